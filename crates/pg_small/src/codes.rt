//! Codes of states: parts of a machine that go on independently have bits of their own.

use crate::numbers::{Allocated, NONE, at, count, logarithm, put, spend, width};
use std::alloc::Global;

/// The most classes that a part may have.
const CLASSES: usize = 4;

/// How much a part must tell at least for each of its bits, in units of 1/256 of a bit.
const LEAST_GAIN: u32 = 111;

/// The most bits that a code may have.
const MAX_BITS: u32 = 24;

/// A code for each state; the code of state 0 is 0.
#[derive(Drop)]
pub struct Codes {
    pub bits: u32,
    pub of: Vec<u32>,
}

impl Codes {
    /// Returns codes that begin with parts of few classes, as long as these tell much. The remaining bits count the states that are alike
    /// so far. `None` if there is no part though there are edges, or if the codes have more than `MAX_BITS` bits.
    pub fn new(columns: Columns, looks: &mut u64) -> Allocated<Option<Codes>> {
        let Columns { alloc, states, .. } = columns;
        let mut codes = Codes {
            bits: 0,
            of: vec![in alloc; 0; states as usize]?,
        };
        let mut many = 1;
        let is_counted = columns.edges.is_empty();
        let distances = if is_counted { 0 } else { states };
        for distance in 1..distances {
            if *looks == 0 {
                break;
            }
            for state in 0..states.saturating_sub(distance) {
                let pair = (state, state.saturating_add(distance));
                if !spend(looks, 1) {
                    break;
                }
                if at(&codes.of, pair.0) != at(&codes.of, pair.1) {
                    continue;
                }
                let Some(part) = columns.part(pair, looks)? else {
                    continue;
                };
                let tried = codes.with(&part)?;
                let now = tried.places(alloc)?.iter().filter(|it| **it == 0).count() as u64;
                let bits = tried.bits.saturating_sub(codes.bits).max(1);
                if logarithm(now).saturating_sub(logarithm(many)) / bits >= LEAST_GAIN {
                    codes = tried;
                    many = now;
                }
            }
        }
        let has_parts = codes.bits > 0 || is_counted;
        let codes = codes.with(&codes.places(alloc)?)?;
        Ok(Some(codes).filter(|it| has_parts && it.bits <= MAX_BITS))
    }

    /// Returns the codes with a number of each state added to them.
    fn with(&self, numbers: &[u32]) -> Allocated<Codes> {
        let mut of = self.of.clone()?;
        let mut most = 0;
        for (code, number) in of.iter_mut().zip(numbers) {
            *code |= number.wrapping_shl(self.bits.min(31));
            most = most.max(*number);
        }
        let bits = self.bits.saturating_add(width(most.saturating_add(1)));
        Ok(Codes { bits, of })
    }

    /// Gives a state a code; the state that has it gets the old one.
    pub fn exchange(&mut self, state: u32, code: u32) {
        let old = at(&self.of, state);
        for it in self.of.iter_mut() {
            if *it == code {
                *it = old;
            }
        }
        put(&mut self.of, state, code);
    }

    /// Returns a copy of the codes.
    pub fn copied(&self) -> Allocated<Codes> {
        Ok(Codes {
            bits: self.bits,
            of: self.of.clone()?,
        })
    }

    /// Returns the place of each state among those of the same code.
    fn places(&self, alloc: Global) -> Allocated<Vec<u32>> {
        let mut order = Vec::new(alloc);
        for (state, code) in self.of.iter().enumerate() {
            order.push((*code, count(state)))?;
        }
        order.sort_unstable();
        let mut places = vec![in alloc; 0; self.of.len()]?;
        let (mut last, mut first) = (NONE, 0u32);
        for (place, (code, state)) in order.iter().enumerate() {
            if *code != last {
                last = *code;
                first = count(place);
            }
            put(&mut places, *state, count(place).saturating_sub(first));
        }
        Ok(places)
    }
}

/// Where the edges of `states` states lead, or `NONE`: at `letter * states + state`.
#[derive(Clone, Copy)]
pub struct Columns<'a> {
    pub alloc: Global,
    pub states: u32,
    pub edges: &'a [u32],
}

impl Columns<'_> {
    /// Returns the class of each state in a part that tells two states apart, or `None` if too many classes are left.
    fn part(self, apart: (u32, u32), looks: &mut u64) -> Allocated<Option<Vec<u32>>> {
        let mut classes = Vec::new(self.alloc);
        for state in 0..self.states {
            classes.push(state)?;
        }
        let mut roots: Vec<u32> = Vec::new(self.alloc);
        for state in 0..self.states {
            for root in &roots {
                if at(&classes, state) == state && at(&classes, *root) == *root {
                    let mut joined = classes.clone()?;
                    join(&mut joined, *root, state);
                    if self.close(&mut joined, apart, looks)? {
                        classes = joined;
                    }
                }
            }
            roots.push(state)?;
            roots.retain(|root| at(&classes, *root) == *root);
            if roots.len() > 2 * CLASSES {
                return Ok(None);
            }
        }
        for class in classes.iter_mut() {
            let place = roots.iter().position(|root| *root == *class);
            *class = count(place.unwrap_or(0));
        }
        Ok(Some(classes).filter(|_| roots.len() <= CLASSES))
    }

    /// Merges classes until each class leads to one class by each letter. Returns false if the two states of `apart` come into one class,
    /// or that takes too long.
    fn close(self, classes: &mut [u32], apart: (u32, u32), looks: &mut u64) -> Allocated<bool> {
        for _ in 0..classes.len() {
            let mut changes = false;
            for column in self.edges.chunks(self.states.max(1) as usize) {
                let mut leads = vec![in self.alloc; NONE; classes.len()]?;
                for (state, target) in column.iter().enumerate() {
                    let target = at(classes, *target);
                    let class = at(classes, count(state));
                    let lead = at(classes, at(&leads, class));
                    if lead == NONE {
                        put(&mut leads, class, target);
                    } else if target != NONE && target != lead {
                        join(classes, lead, target);
                        spend(looks, self.states as u64);
                        changes = true;
                    }
                }
                let is_apart = at(classes, apart.0) != at(classes, apart.1);
                if !is_apart || !spend(looks, self.states as u64) {
                    return Ok(false);
                }
            }
            if !changes {
                break;
            }
        }
        Ok(true)
    }
}

/// Merges two classes into the one with the lesser number.
fn join(classes: &mut [u32], one: u32, two: u32) {
    for class in classes.iter_mut() {
        if *class == one.max(two) {
            *class = one.min(two);
        }
    }
}
