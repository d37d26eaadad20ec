//! Finds out what else is known of a step.

ghost use Rattle.std.specs.Prelude.{IfOk};
ghost use Rattle.pg_aiger.specs.Runs.{Satisfies};
ghost use Rattle.pg_satisfies_check.specs.Mirrors.Known.{Meets, Learns};

use crate::known::{pass, value_of};
use pg_aiger::Gate;
use std::alloc::{AllocError, Global};

fn add_user(users: &mut [Vec<usize>], literal: u32, place: usize) -> Result<(), AllocError> {
    if let Some(list) = users.get_mut((literal / 2) as usize) {
        list.push(place)?;
    }
    Ok(())
}

/// Returns for each variable the places of the gates that have it.
pub(crate) fn users_of(
    alloc: Global,
    variables: usize,
    gates: &[Gate],
) -> Result<Vec<Vec<usize>>, AllocError> {
    let mut users = Vec::new(alloc);
    for _x in 0..variables {
        users.push(Vec::new(alloc))?;
    }
    for (place, gate) in gates.iter().enumerate() {
        add_user(&mut users, gate.lhs, place)?;
        add_user(&mut users, gate.rhs0, place)?;
        add_user(&mut users, gate.rhs1, place)?;
    }
    Ok(users)
}

/// Appends to the queue the places of the gates that have the literal's variable.
pub(crate) fn wake(
    queue: &mut Vec<usize>,
    users: &[Vec<usize>],
    literal: u32,
) -> Result<(), AllocError> {
    if let Some(list) = users.get((literal / 2) as usize) {
        queue.extend_from_slice(list)?;
    }
    Ok(())
}

/// Notes what the gate says, and appends to the queue the places of the gates that have a variable that has become known. `false` says that
/// no step has the values that are known.
fn settle_gate(
    row: &mut [Option<bool>],
    gate: Gate,
    users: &[Vec<usize>],
    queue: &mut Vec<usize>,
) -> Result<bool, AllocError>
    ensures { IfOk result (λ ok. Learns (λ u. Meets u gate) row.old ok row.new) }
{
    let first = value_of(row, gate.lhs);
    let second = value_of(row, gate.rhs0);
    let third = value_of(row, gate.rhs1);
    if !pass(row, gate) {
        return Ok(false);
    }
    if value_of(row, gate.lhs) != first {
        wake(queue, users, gate.lhs)?;
    }
    if value_of(row, gate.rhs0) != second {
        wake(queue, users, gate.rhs0)?;
    }
    if value_of(row, gate.rhs1) != third {
        wake(queue, users, gate.rhs1)?;
    }
    Ok(true)
}

/// Notes what the gates at the places of the queue say, and what follows from that. `false` says that no step has the values that are
/// known.
pub(crate) fn settle(
    row: &mut [Option<bool>],
    gates: &[Gate],
    users: &[Vec<usize>],
    mut queue: Vec<usize>,
) -> Result<bool, AllocError>
    ensures { IfOk result (λ ok. Learns (λ u. Satisfies u gates.now) row.old ok row.new) }
{
    // each variable becomes known at most once, and each gate has three
    let most = gates.len().saturating_mul(3).saturating_add(queue.len());
    for _step in 0..most {
        let Some(place) = queue.pop() else {
            return Ok(true);
        };
        if place < gates.len() {
            let ok = settle_gate(row, gates[place], users, &mut queue)?;
            if !ok {
                return Ok(false);
            }
        }
    }
    Ok(true)
}
