//! Merges states of a machine that may answer alike.

use crate::game::loses_none;
use crate::machine::Machine;
use crate::numbers::{Allocated, at, spend};
use crate::product::{MachineProduct, places_of};
use crate::steps::Steps;
use pg_search_components::Edges;

/// Returns a machine with fewer states, or the same machine. A state is left out where another one may take its place, since all runs are
/// still accepted then.
pub fn merged(machine: Machine, steps: &Steps, looks: &mut u64) -> Allocated<Machine> {
    let mut machine = machine;
    for _ in 0..u32::MAX {
        let before = machine.states;
        for state in (1..before).rev() {
            if state < machine.states {
                if let Some(fewer) = without(&machine, state, steps, looks)? {
                    machine = fewer;
                }
            }
        }
        if machine.states >= before || *looks == 0 {
            break;
        }
    }
    Ok(machine)
}

/// Returns the machine without a state, if another one may take its place. Only runs through that other one are new.
fn without(
    machine: &Machine,
    state: u32,
    steps: &Steps,
    looks: &mut u64,
) -> Allocated<Option<Machine>> {
    let start = [(0, steps.start)];
    let Some(product) = MachineProduct::of(machine, steps, &start, u32::MAX, looks)? else {
        return Ok(None);
    };
    let most = product.len().saturating_mul(4).saturating_add(256);
    let rows = places_of(steps.alloc, &product.states, machine.states)?;
    for other in 0..machine.states {
        if other == state || !spend(looks, machine.nexts.len() as u64 / 16) {
            continue;
        }
        let tried = machine.led(steps.alloc, state, other)?;
        let mut starts = Vec::new(steps.alloc);
        for pair in rows.targets(state) {
            starts.push((other, at(&product.besides, *pair)))?;
        }
        if let Some(product) = MachineProduct::of(&tried, steps, &starts, most, looks)? {
            if loses_none(&product.steps(&tried, steps)?, looks)? {
                return Ok(Some(tried.reached(steps.alloc)?));
            }
        }
    }
    Ok(None)
}
