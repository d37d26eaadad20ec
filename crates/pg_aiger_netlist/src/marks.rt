//! The variables that are defined, and the literals that are used.

ghost use Rattle.std.specs.Prelude.{◌≡◌, ◌≢◌, ◌+◌, ◌↔◌, ◌++◌, true, map, length, slice_index_or, All, IfOk, IfErr, IsTrue, OnOk};
ghost use Rattle.std.specs.List.{AllPairs};
ghost use Rattle.pg_aiger.specs.declared.gate.Gate.{Gate};
ghost use Rattle.pg_aiger.specs.declared.gate.Latch.{Latch};
ghost use Rattle.pg_aiger_netlist.specs.Netlists.{variable, IsPlain, known_by};
ghost use Rattle.pg_aiger_netlist.specs.Mirrors.Marks.{marked, AreMarked, IsFaultIn, IsUseFault};

use crate::fault::NetlistFault;
use pg_aiger::{Gate, Latch};
use std::alloc::{AllocError, Global};

/// Returns the literals of the inputs, and then of the latches.
pub(crate) fn sources_of(
    alloc: Global,
    inputs: &[u32],
    latches: &[Latch],
) -> Result<Vec<u32>, AllocError>
    ensures { IfOk result (λ list. list.items ≡ inputs.now ++ map Latch.literal latches.now) }
{
    let mut literals = Vec::from_slice(alloc, inputs)?;
    for latch in latches {
        literals.push(latch.literal)?;
    }
    Ok(literals)
}

/// Returns the source literals, and after them the literals of the gates.
pub(crate) fn definitions_of(
    alloc: Global,
    sources: &[u32],
    gates: &[Gate],
) -> Result<Vec<u32>, AllocError>
    ensures { IfOk result (λ list. list.items ≡ sources.now ++ map Gate.lhs gates.now) }
{
    let mut literals = Vec::from_slice(alloc, sources)?;
    for gate in gates {
        literals.push(gate.lhs)?;
    }
    Ok(literals)
}

/// Returns the literals that gates, latches and outputs use.
pub(crate) fn uses_of(
    alloc: Global,
    gates: &[Gate],
    latches: &[Latch],
    outputs: &[u32],
) -> Result<Vec<u32>, AllocError>
    ensures { IfOk result (λ list. list.items
        ≡ map Gate.rhs0 gates.now ++ (map Gate.rhs1 gates.now ++ (map Latch.next latches.now ++ outputs.now))) }
{
    let mut literals = Vec::new(alloc);
    for left in gates {
        literals.push(left.rhs0)?;
    }
    for right in gates {
        literals.push(right.rhs1)?;
    }
    for latch in latches {
        literals.push(latch.next)?;
    }
    literals.extend_from_slice(outputs)?;
    Ok(literals)
}

/// Whether a literal can define a variable.
fn is_plain(greatest: u32, literal: u32) -> bool
    ensures { IsTrue result ↔ IsPlain greatest literal }
{
    literal % 2 == 0 && literal > 0 && literal / 2 <= greatest
}

/// Whether a variable is marked.
pub(crate) fn is_marked(row: &[bool], x: u32) -> bool
    ensures { result ≡ marked row.now x }
{
    (x as usize) < row.len() && row[x as usize]
}

/// Returns a row that marks the constant and the variables that the literals define. It fails at the first literal that can define no
/// variable, or whose variable is already marked.
pub(crate) fn marked(
    alloc: Global,
    greatest: u32,
    literals: &[u32],
) -> Result<Vec<bool>, NetlistFault>
    ensures length { IfOk result (λ row. length row.items ≡ greatest + 1) }
    ensures marks { IfOk result (λ row. AreMarked row.items (known_by literals.now)) }
    ensures plain { OnOk result (All (IsPlain greatest) literals.now) }
    ensures distinct { OnOk result (AllPairs (λ x y. x ≢ y) (map variable literals.now)) }
    ensures fault { IfErr result (IsFaultIn greatest literals.now) }
{
    let mut row = vec![in alloc; false; greatest as usize + 1]?;
    row[0] = true;
    for literal in literals {
        if !is_plain(greatest, *literal) {
            return Err(NetlistFault::NotAVariable(*literal));
        }
        let x = *literal / 2;
        if row[x as usize] {
            return Err(NetlistFault::DefinedTwice(x));
        }
        row[x as usize] = true;
    }
    Ok(row)
}

/// Checks that each literal's variable is marked. It fails with `Undefined` at the first that isn't.
pub(crate) fn check_uses(row: &[bool], uses: &[u32]) -> Result<(), NetlistFault>
    ensures used { OnOk result (All (λ literal. marked row.now (variable literal) ≡ true) uses.now) }
    ensures fault { IfErr result (IsUseFault row.now uses.now) }
{
    for literal in uses {
        if !is_marked(row, *literal / 2) {
            return Err(NetlistFault::Undefined(*literal / 2));
        }
    }
    Ok(())
}
