//! The headers of a text, once all of them are read.

ghost use Rattle.std.specs.Prelude.{◌≡◌, ◌<◌, map, IfOk, IfErr, MatchOption, MatchBool};
ghost use Rattle.std.specs.List.{All};
ghost use Rattle.pg_hoa_syntax.specs.Mirrors.Kept.{head_in};
ghost use Rattle.pg_hoa_syntax.specs.Mirrors.Preambles.{preamble_in, IsPreambleOf, HasCondition, HasNoPreamble, StartsBelow, marked};

use crate::fault::{LeftOutName, PartFault, PartRefusal};
use crate::header::{Head, is_noted};
use crate::shape::shape_of;
use pg_hoa_automaton::Shape;
use std::alloc::{AllocError, Global};

/// The contents of all headers together: the number of states, if it is given, the start state, the names of the
/// propositions, for each proposition whether the controller sets it, the number of sets, and the shape of the
/// condition.
#[derive(Drop)]
pub struct Preamble {
    pub states: Option<u32>,
    pub start: u32,
    pub names: Vec<Vec<u8>>,
    pub controllable: Vec<bool>,
    pub sets: u32,
    pub shape: Shape,
}

/// Returns for each proposition whether its number is in the list.
fn marked(alloc: Global, controls: &[(u32, usize)], count: usize) -> Result<Vec<bool>, AllocError>
    ensures { IfOk result (λ v. v.items ≡ marked (map (λ x. x.0) controls.now) count) }
{
    let mut marks = Vec::new(alloc);
    for proposition in 0..count {
        marks.push(is_noted(controls, proposition))?;
    }
    Ok(marks)
}

/// Returns the number of bytes left from the first number in the list that isn't below the count, if there is one.
fn first_above(controls: &[(u32, usize)], count: usize) -> Option<usize>
    ensures { MatchOption result (All (λ x. x.0 < count) controls.now) (λ _. All (λ x. x.0 < count) controls.now → ⊥) }
{
    for (number, left) in controls {
        if *number as usize >= count {
            return Some(*left);
        }
    }
    None
}

/// Returns the contents of the headers, where `left` bytes are left from `--BODY--` on. It refuses, in this order,
/// headers without a condition, headers without a start, a start that isn't below the number of states, a proposition
/// of the controller that isn't below the number of propositions, and a condition of none of the six shapes.
pub fn preamble_of(alloc: Global, head: Head, left: usize) -> Result<Preamble, PartRefusal>
    requires { HasCondition (head_in head).acceptance }
    ensures found { IfOk result (λ s. IsPreambleOf (head_in head) (preamble_in s)) }
    ensures refused { IfErr result (HasNoPreamble (head_in head)) }
{
    let Head {
        states,
        start,
        names,
        controls,
        acceptance,
    } = head;
    let Some((sets, condition)) = acceptance else {
        return Err(PartRefusal::Wrong(PartFault::Syntax(left)));
    };
    let Some((start, start_left)) = start else {
        return Err(PartRefusal::Wrong(PartFault::LeftOut(LeftOutName::NoStart, left)));
    };
    if !starts_below(start, states) {
        return Err(PartRefusal::Wrong(PartFault::OutOfRange(start_left)));
    }
    let names = names.unwrap_or(Vec::new(alloc));
    let controls = controls.unwrap_or(Vec::new(alloc));
    let count = names.len();
    if let Some(left) = first_above(&controls, count) {
        return Err(PartRefusal::Wrong(PartFault::OutOfRange(left)));
    }
    let controllable = marked(alloc, &controls, count)?;
    let Some(shape) = shape_of(&condition, sets) else {
        return Err(PartRefusal::Wrong(PartFault::NotParity));
    };
    Ok(Preamble {
        states,
        start,
        names,
        controllable,
        sets,
        shape,
    })
}

/// Whether the state is below the number of states, if that is given.
fn starts_below(start: u32, states: Option<u32>) -> bool
    ensures { MatchBool result (StartsBelow start states) (StartsBelow start states → ⊥) }
{
    match states {
        Some(states) => start < states,
        None => true,
    }
}
