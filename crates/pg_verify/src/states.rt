//! The states of a product, by their numbers.

ghost use Rattle.std.specs.Prelude.{◌≡◌, ◌≢◌, ℕ, ◌+◌, ◌<◌, ◌≤◌, map, length, AllPairs, IfOk, OnOk};
ghost use Rattle.pg_aiger_netlist.specs.Steps.{spelt};
ghost use Rattle.pg_verify.specs.Mirrors.Products.{pair_of, AreWide, IsNumbered};

use indexmap::IndexSet;
use std::alloc::{AllocError, Global};

/// A state of the product.
#[derive(Debug, PartialEq, Eq, Hash, Drop)]
pub(crate) struct ProductState {
    /// The values of the circuit's latches.
    pub latches: Vec<bool>,
    /// The automaton's state.
    pub state: u32,
}

fn copy_of(alloc: Global, row: &ProductState) -> Result<ProductState, AllocError>
    ensures { IfOk result (λ copy. (pair_of copy ≡ pair_of row.now) × (copy.latches.items ≡ row.now.latches.items)) }
{
    Ok(ProductState {
        latches: Vec::from_slice(alloc, &row.latches)?,
        state: row.state,
    })
}

/// Sets a state of the product to these latches and this state of the automaton.
pub(crate) fn set_state(
    row: &mut ProductState,
    latches: &[bool],
    state: u32,
) -> Result<(), AllocError>
    ensures latches { OnOk result (row.new.latches.items ≡ latches.now) }
    ensures state { OnOk result (row.new.state ≡ state) }
{
    row.latches.clear();
    row.latches.extend_from_slice(latches)?;
    row.state = state;
    Ok(())
}

/// Returns the number of a state. It appends the state to the others if it has no number yet.
pub(crate) fn number_of(
    alloc: Global,
    rows: &mut IndexSet<ProductState>,
    row: &ProductState,
) -> Result<u32, AllocError>
    requires few { length rows.old.keys < 4294967295 }
    ensures number { IfOk result (λ n. IsNumbered (map pair_of rows.old.keys) (spelt row.now.latches.items) row.now.state n
        (map pair_of rows.new.keys)) }
    ensures wide { (width : ℕ) → length row.now.latches.items ≡ width → AreWide width rows.old.keys → OnOk result (AreWide width rows.new.keys) }
    ensures few { OnOk result (length rows.new.keys ≤ length rows.old.keys + 1) }
{
    if let Some(number) = rows.get_index_of(row) {
        return Ok(number as u32);
    }
    let (number, _) = rows.insert_full(copy_of(alloc, row)?)?;
    Ok(number as u32)
}

/// Returns the states in the order of their numbers, each once.
pub(crate) fn listed(rows: &IndexSet<ProductState>) -> &[ProductState]
    ensures same { result.now ≡ rows.now.keys }
    ensures distinct { (width : ℕ) → AreWide width rows.now.keys → AllPairs (λ x y. x ≢ y) (map pair_of rows.now.keys) }
{
    rows.as_slice()
}
