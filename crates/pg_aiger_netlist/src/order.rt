//! Gates in an order in which each uses only variables that are known before it.

ghost use Rattle.std.specs.Prelude.{◌≡◌, ℕ, ◌<◌, Bool, List, All, Contains, length, IfOk, IfErr, OnOk};
ghost use Rattle.pg_aiger.specs.declared.gate.Gate.{Gate};
ghost use Rattle.pg_aiger_netlist.specs.Mirrors.Marks.{variable_of, HasPassed, IsUnderWay, IsWhole, IsOrderFault};

use crate::fault::NetlistFault;
use crate::marks::is_marked;
use crate::propose::{in_cycle, proposed_order};
use pg_aiger::Gate;
use std::alloc::{AllocError, Global};

/// Appends each gate whose literals are known to the gates in order, one after another, and returns the gates that wait. It skips a gate
/// whose variable is known already.
fn place(
    alloc: Global,
    known: &mut [bool],
    ordered: &mut Vec<Gate>,
    gates: &[Gate],
) -> Result<Vec<Gate>, AllocError>
    requires { All (λ gate. variable_of gate < length known.old) gates.now }
    ensures { IfOk result (λ waiting. HasPassed known.old ordered.old.items gates.now known.new ordered.new.items waiting.items) }
{
    let mut waiting = Vec::new(alloc);
    for gate in gates {
        let x = (gate.lhs / 2) as usize;
        if !known[x] {
            if is_marked(known, gate.rhs0 / 2) && is_marked(known, gate.rhs1 / 2) {
                known[x] = true;
                ordered.push(*gate)?;
            } else {
                waiting.push(*gate)?;
            }
        }
    }
    Ok(waiting)
}

/// Returns the gates at these places, and skips places past the last gate.
fn picked(alloc: Global, gates: &[Gate], places: &[u32]) -> Result<Vec<Gate>, AllocError>
    ensures { IfOk result (λ list. All (Contains gates.now) list.items) }
{
    let mut list = Vec::new(alloc);
    for place in places {
        let at = *place as usize;
        if at < gates.len() {
            list.push(gates[at])?;
        }
    }
    Ok(list)
}

/// Appends the waiting gates to the others, as far as the proposed order allows. However bad a proposal is, it costs only time.
fn place_rest(
    alloc: Global,
    known: &mut [bool],
    ordered: &mut Vec<Gate>,
    waiting: &[Gate],
) -> Result<(), AllocError>
    requires { All (λ gate. variable_of gate < length known.old) waiting.now }
    ensures { OnOk result ((old : List Bool) (gates : List Gate) → IsUnderWay old gates known.old ordered.old.items waiting.now
        → IsUnderWay old gates known.new ordered.new.items waiting.now) }
{
    if waiting.is_empty() {
        return Ok(());
    }
    let places = proposed_order(alloc, known.len(), waiting)?;
    let proposal = picked(alloc, waiting, &places)?;
    let _rest = place(alloc, known, ordered, &proposal)?;
    Ok(())
}

/// Returns all gates in order, if there is one, where the variables of `known` are known at first. Otherwise it fails with `Cycle`. Gates
/// that are in order already take one pass.
pub(crate) fn order_of(
    alloc: Global,
    known: &mut [bool],
    gates: &[Gate],
) -> Result<Vec<Gate>, NetlistFault>
    requires { All (λ gate. variable_of gate < length known.old) gates.now }
    ensures order { IfOk result (λ ordered. IsWhole known.old gates.now ordered.items) }
    ensures fault { IfErr result (IsOrderFault known.old gates.now) }
{
    let mut ordered = Vec::with_capacity(alloc, gates.len())?;
    let mut waiting = place(alloc, known, &mut ordered, gates)?;
    place_rest(alloc, known, &mut ordered, &waiting)?;
    'rounds: loop {
        let before = ordered.len();
        let rest = place(alloc, known, &mut ordered, &waiting)?;
        if rest.is_empty() {
            return Ok(ordered);
        }
        if ordered.len() == before {
            let place = in_cycle(alloc, known.len(), &rest)?.min(rest.len() - 1);
            return Err(NetlistFault::Cycle(rest[place].lhs / 2));
        }
        waiting = rest;
    }
}
