//! The formulas that hold on a cycle that goes on for ever.

use crate::automaton::MarkedEdge;
use crate::components::ComponentRanks;
use crate::fault::Attempt;
use crate::numbers::{NONE, NumberMap, at, count, has_bit, item, put};
use crate::pool::{Followed, FormulaPool, Operator};
use crate::product::ColouredProduct;
use std::alloc::Global;

/// Returns the classes of letters on a shortest cycle from a state back to it inside its component, or none if there is no cycle.
pub fn cycle(
    alloc: Global,
    product: &ColouredProduct,
    ranks: &ComponentRanks,
    start: u32,
) -> Attempt<Vec<u32>> {
    let mut befores = NumberMap::new(alloc);
    let mut classes = NumberMap::new(alloc);
    let mut queue = vec![in alloc; start; 1]?;
    for turn in 0..product.states.len() {
        let Some(v) = queue.get(turn as usize).copied() else {
            break;
        };
        for (class, MarkedEdge { target, .. }) in product.row(v).iter().enumerate() {
            if ranks.of(*target) != ranks.of(start) || befores.get(*target) != NONE {
                continue;
            }
            befores.set(*target, v)?;
            classes.set(*target, count(class))?;
            if *target == start {
                return way_back(alloc, &befores, &classes, start, product.states.len());
            }
            queue.push(*target)?;
        }
    }
    Ok(Vec::new(alloc))
}

/// Returns the classes on the way from a state back to itself.
fn way_back(
    alloc: Global,
    befores: &NumberMap,
    classes: &NumberMap,
    start: u32,
    most: u32,
) -> Attempt<Vec<u32>> {
    let mut way = Vec::new(alloc);
    let mut v = start;
    for _ in 0..most {
        way.push(classes.get(v))?;
        v = befores.get(v);
        if v == start {
            break;
        }
    }
    way.reverse();
    Ok(way)
}

/// Whether a formula holds of the word that repeats these letters for ever.
pub fn holds_on(pool: &FormulaPool, f: u32, letters: &[u32]) -> Attempt<bool> {
    let parts = pool.parts(f, Followed::All)?;
    let mut places = NumberMap::new(pool.alloc);
    let mut found: Vec<Vec<bool>> = Vec::new(pool.alloc);
    for part in &parts {
        let values = values_of(pool, *part, letters, &places, &found)?;
        places.set(*part, count(found.len()))?;
        found.push(values)?;
    }
    match found.last() {
        Some(values) => Ok(item(values, 0, false)),
        None => Ok(false),
    }
}

/// Returns the values of a formula at each letter, from those of its operands.
fn values_of(
    pool: &FormulaPool,
    f: u32,
    letters: &[u32],
    places: &NumberMap,
    found: &[Vec<bool>],
) -> Attempt<Vec<bool>> {
    let operator = pool.operator(f);
    let operands = pool.operands(f);
    let value = |operand: u32, place: u32| -> bool {
        match found.get(places.get(at(operands, operand)) as usize) {
            Some(values) => item(values, place, false),
            None => false,
        }
    };
    let many = count(letters.len());
    let is_first = matches!(operator, Operator::Release | Operator::True | Operator::All);
    let mut values = vec![in pool.alloc; is_first; letters.len()]?;
    for _ in 0..2 {
        for place in (0..many).rev() {
            let next = if place.wrapping_add(1) < many {
                place.wrapping_add(1)
            } else {
                0
            };
            let later = item(&values, next, false);
            let mut operands = 0..count(operands.len());
            let here = match operator {
                Operator::False => false,
                Operator::True => true,
                Operator::Literal(p, value) => has_bit(at(letters, place), p) == value,
                Operator::All => operands.all(|it| value(it, place)),
                Operator::Any => operands.any(|it| value(it, place)),
                Operator::Next => value(0, next),
                Operator::Until => value(1, place) || value(0, place) && later,
                Operator::Release => value(1, place) && (value(0, place) || later),
            };
            put(&mut values, place, here);
        }
    }
    Ok(values)
}
