//! States of an automaton that the controller can do without.

use crate::dice::Dice;
use crate::numbers::{Allocated, count, is_marked, power, put, spend};
use crate::steps::Steps;

/// How many orders are tried.
const ORDERS: u32 = 10;

/// Of the moves that are left, takes away those to states that the controller can do without: states are left out one after another, in
/// several orders, and the fewest stay.
pub fn keep_few(steps: &Steps, moves: &mut [bool], looks: &mut u64) -> Allocated<()> {
    let alloc = steps.alloc;
    let mut order = Vec::new(alloc);
    for state in (0..steps.states).rev() {
        order.push(state)?;
    }
    let mut dice = Dice::new();
    let mut few = vec![in alloc; true; steps.states as usize]?;
    for _ in 0..ORDERS {
        let mut live = vec![in alloc; true; steps.states as usize]?;
        for state in &order {
            let mut rest = live.clone()?;
            put(&mut rest, *state, false);
            if is_marked(&live, *state) && does_without(steps, moves, &mut rest, looks) {
                live = rest;
            }
        }
        if number(&live) < number(&few) {
            few = live;
        }
        for _ in 0..steps.states {
            dice.exchange(&mut order);
        }
    }
    for place in 0..count(moves.len()) {
        let is_kept = is_marked(moves, place) && is_marked(&few, steps.at(place).target);
        put(moves, place, is_kept);
    }
    Ok(())
}

/// Returns how many places are marked.
fn number(marks: &[bool]) -> usize {
    marks.iter().filter(|it| **it).count()
}

/// Keeps live only the states that can stay among live ones. Returns whether the start can; false also if no looks are left.
fn does_without(steps: &Steps, moves: &[bool], live: &mut [bool], looks: &mut u64) -> bool {
    let stays = |live: &[bool], point: u32| {
        (0..power(steps.outputs)).any(|output| {
            let place = steps.place(point, output);
            is_marked(moves, place) && is_marked(live, steps.at(place).target)
        })
    };
    for _ in 0..steps.states {
        if !spend(looks, moves.len() as u64) {
            return false;
        }
        let mut changes = false;
        for state in 0..steps.states {
            let mut points = steps.point(state, 0)..steps.point(state.saturating_add(1), 0);
            if is_marked(live, state) && !points.all(|point| stays(live, point)) {
                put(live, state, false);
                changes = true;
            }
        }
        if !changes {
            break;
        }
    }
    is_marked(live, steps.start)
}
