//! Proposals: an order of gates, and a gate in a cycle. Nothing is promised about a proposal, except that it is found safely and that the
//! search ends.

use pg_aiger::Gate;
use std::alloc::{AllocError, Global};

const NONE: u32 = 4_294_967_295;

/// Returns the item at a place, or `NONE` past the last.
fn at(items: &[u32], place: u32) -> u32 {
    items.get(place as usize).copied().unwrap_or(NONE)
}

/// Puts an item at a place, if there is such a place.
fn put(items: &mut [u32], place: u32, item: u32) {
    if (place as usize) < items.len() {
        items[place as usize] = item;
    }
}

/// Returns the place of the gate that defines each variable, or `NONE` if no gate does.
fn definers(alloc: Global, variables: usize, gates: &[Gate]) -> Result<Vec<u32>, AllocError> {
    let mut definers = vec![in alloc; NONE; variables]?;
    for (place, gate) in gates.iter().enumerate() {
        put(&mut definers, gate.lhs / 2, (place % NONE as usize) as u32);
    }
    Ok(definers)
}

/// For each gate, the places of the gates that use its variable, as chains: the first use, and after each use the next. Use 2k is the
/// first literal of gate k, use 2k + 1 its second.
#[derive(Drop)]
struct Uses {
    first: Vec<u32>,
    next: Vec<u32>,
    /// How many literals of each gate still wait.
    waiting: Vec<u32>,
}

fn uses_of(alloc: Global, definers: &[u32], gates: &[Gate]) -> Result<Uses, AllocError> {
    let mut uses = Uses {
        first: vec![in alloc; NONE; gates.len()]?,
        next: Vec::new(alloc),
        waiting: Vec::new(alloc),
    };
    let mut number: u32 = 0;
    for gate in gates {
        let mut waiting: u32 = 0;
        for literal in [gate.rhs0, gate.rhs1] {
            let definer = at(definers, literal / 2);
            uses.next.push(at(&uses.first, definer))?;
            if definer != NONE {
                put(&mut uses.first, definer, number);
                waiting = 1u32.wrapping_add(waiting);
            }
            number = number.wrapping_add(1);
        }
        uses.waiting.push(waiting)?;
    }
    Ok(uses)
}

/// Returns the places of the gates, each after the gates whose variables it uses, as far as possible.
pub(crate) fn proposed_order(
    alloc: Global,
    variables: usize,
    gates: &[Gate],
) -> Result<Vec<u32>, AllocError> {
    let definers = definers(alloc, variables, gates)?;
    let mut uses = uses_of(alloc, &definers, gates)?;
    let mut order = Vec::new(alloc);
    for place in 0..(gates.len() % NONE as usize) as u32 {
        if at(&uses.waiting, place) == 0 {
            order.push(place)?;
        }
    }
    for k in 0..gates.len() {
        let Some(place) = order.get(k).copied() else {
            break;
        };
        release(&mut uses, &mut order, place)?;
    }
    Ok(order)
}

/// Appends to the order the gates that waited only for this one.
fn release(uses: &mut Uses, order: &mut Vec<u32>, place: u32) -> Result<(), AllocError> {
    let mut number = at(&uses.first, place);
    for _ in 0..uses.next.len() {
        if number == NONE {
            break;
        }
        let waiting = at(&uses.waiting, number / 2).wrapping_sub(1);
        put(&mut uses.waiting, number / 2, waiting);
        if waiting == 0 {
            order.push(number / 2)?;
        }
        number = at(&uses.next, number);
    }
    Ok(())
}

/// Returns the place of a gate in a cycle, if each gate waits for another of them: as many steps from gate to gate as there are gates
/// lead into a cycle.
pub(crate) fn in_cycle(
    alloc: Global,
    variables: usize,
    gates: &[Gate],
) -> Result<usize, AllocError> {
    let definers = definers(alloc, variables, gates)?;
    let mut place: u32 = 0;
    for _ in 0..gates.len() {
        let Some(gate) = gates.get(place as usize) else {
            break;
        };
        let left = at(&definers, gate.rhs0 / 2);
        place = if left == NONE {
            at(&definers, gate.rhs1 / 2)
        } else {
            left
        };
    }
    Ok(place as usize)
}
