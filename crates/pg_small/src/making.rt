//! Literals of a net, made as they are wanted.

use crate::net::{Net, flip};
use crate::numbers::{Allocated, item, logarithm};
use std::alloc::Global;

/// What is wanted of a literal: true at the points of `on`, false at those of `off`.
#[derive(Drop)]
pub struct Want {
    pub on: Vec<u64>,
    pub off: Vec<u64>,
}

impl Want {
    /// Returns a `Want` with nothing in it yet.
    pub fn new(alloc: Global) -> Want {
        Want {
            on: Vec::new(alloc),
            off: Vec::new(alloc),
        }
    }
}

/// The most ways that are looked at where one gate may do.
const WAYS: usize = 8;

/// How a literal may serve.
#[derive(Clone, Copy, PartialEq, Eq)]
enum LiteralUse {
    /// Its conjunction with something else.
    And,
    /// The negation of such a conjunction.
    Nand,
    /// A choice of something where it holds, and something else where it doesn't.
    Choose,
}

/// A literal that serves in a way, and how much it tells per gate.
#[derive(Clone, Copy)]
struct Candidate {
    literal: u32,
    way: LiteralUse,
    gain: u32,
}

/// Returns how many ones two lists share, if the second one is flipped by `flip`.
fn shared(words: &[u64], others: &[u64], flip: u64) -> u32 {
    let mut many = 0u32;
    for (word, other) in words.iter().zip(others) {
        many = many.saturating_add((*word & (*other ^ flip)).count_ones());
    }
    many
}

impl Net {
    /// Returns a literal as wanted, of at most `most` new gates, if one is found: of one gate by several ways, or by the way that tells
    /// most. Gates are left over where none is found.
    #[cycle(making)]
    pub fn make(&mut self, want: &Want, most: u32) -> Allocated<Option<u32>> {
        let many = (
            shared(&want.on, &want.on, 0),
            shared(&want.off, &want.off, 0),
        );
        if many.0 == 0 || many.1 == 0 {
            return Ok(Some((many.0 != 0) as u32));
        }
        let there = self.there(want);
        if there.is_some() || most == 0 || self.looks == 0 {
            return Ok(there);
        }
        let ways = self.ways(want, many)?;
        for it in &ways {
            let made = self.make_by(*it, want, 1)?;
            if made.is_some() {
                return Ok(made);
            }
        }
        match ways.first() {
            Some(best) => self.make_by(*best, want, most),
            None => Ok(None),
        }
    }

    /// Makes a literal as wanted from a candidate, of at most `most` new gates, if one is found.
    #[cycle(making)]
    fn make_by(&mut self, best: Candidate, want: &Want, most: u32) -> Allocated<Option<u32>> {
        let Candidate { literal, way, .. } = best;
        let cost = if way == LiteralUse::Choose { 3 } else { 1 };
        if most == 0 || most < cost {
            return Ok(None);
        }
        let mark = self.len();
        let rest = self.rest(want, way, literal)?;
        let Some(then) = self.make(&rest, (most - cost).min(most - 1))? else {
            return Ok(None);
        };
        if way != LiteralUse::Choose {
            let negated = (way == LiteralUse::Nand) as u32;
            return Ok(Some(self.and(literal, then ^ negated)? ^ negated));
        }
        let used = self.len().saturating_sub(mark).saturating_add(3);
        let rest = self.rest(want, way, literal ^ 1)?;
        let Some(other) = self.make(&rest, most.saturating_sub(used).min(most - 1))? else {
            return Ok(None);
        };
        let one = self.and(literal, then)?;
        let two = self.and(literal ^ 1, other)?;
        Ok(Some(self.and(one ^ 1, two ^ 1)? ^ 1))
    }

    /// Returns a literal that is there and as wanted, if there is one.
    fn there(&mut self, want: &Want) -> Option<u32> {
        self.looks = self.looks.saturating_sub(self.len() as u64 * 2);
        (0..self.len().saturating_mul(2)).find(|literal| {
            let turn = flip(*literal);
            let wants = want.on.iter().zip(&want.off);
            let mut words = self.values(*literal / 2).iter().zip(wants);
            let serves = words.all(|(word, (on, off))| {
                let word = *word ^ turn;
                !word & *on == 0 && word & *off == 0
            });
            serves && !item(&self.barred, *literal / 2, true)
        })
    }

    /// Returns the literals that serve, those that tell most first, and at most `WAYS`.
    fn ways(&mut self, want: &Want, many: (u32, u32)) -> Allocated<Vec<Candidate>> {
        self.look(self.len().saturating_mul(2));
        let mut ways = Vec::new(self.alloc);
        for signal in 0..self.len() {
            if !item(&self.barred, signal, true) {
                let it = self.see(signal, want, many);
                if it.gain > 0 {
                    ways.push(it)?;
                }
            }
        }
        ways.sort_by_key(|it: &Candidate| u32::MAX - it.gain)?;
        ways.truncate(WAYS);
        Ok(ways)
    }

    /// Returns the values of a literal as what is wanted.
    pub fn want_of(&self, literal: u32) -> Allocated<Want> {
        let mut want = Want::new(self.alloc);
        for word in self.values(literal / 2) {
            want.on.push(*word ^ flip(literal))?;
            want.off.push(!*word ^ flip(literal))?;
        }
        Ok(want)
    }

    /// Returns what is wanted besides a literal that serves in a way.
    fn rest(&self, want: &Want, way: LiteralUse, literal: u32) -> Allocated<Want> {
        let mut rest = Want::new(self.alloc);
        let wants = want.on.iter().zip(&want.off);
        for (word, (on, off)) in self.values(literal / 2).iter().zip(wants) {
            let word = *word ^ flip(literal);
            rest.on.push(if way == LiteralUse::And {
                *on
            } else {
                *on & word
            })?;
            rest.off.push(if way == LiteralUse::Nand {
                *off
            } else {
                *off & word
            })?;
        }
        Ok(rest)
    }

    /// Returns a signal as a candidate, where true is wanted at `on` points and false at `off` points.
    fn see(&self, signal: u32, want: &Want, (on, off): (u32, u32)) -> Candidate {
        let values = self.values(signal);
        let (mut on_one, mut on_zero, mut off_one, mut off_zero) = (0u64, 0u64, 0u64, 0u64);
        for ((word, on), off) in values.iter().zip(&want.on).zip(&want.off) {
            on_one |= *word & *on;
            on_zero |= !*word & *on;
            off_one |= *word & *off;
            off_zero |= !*word & *off;
        }
        let literal = signal.saturating_mul(2);
        let (literal, way) = match (on_zero, on_one, off_one, off_zero) {
            (0, _, _, _) => (literal, LiteralUse::And),
            (_, 0, _, _) => (literal | 1, LiteralUse::And),
            (_, _, 0, _) => (literal | 1, LiteralUse::Nand),
            (_, _, _, 0) => (literal, LiteralUse::Nand),
            _ => (literal, LiteralUse::Choose),
        };
        let on_true = shared(&want.on, values, flip(literal));
        let off_true = shared(&want.off, values, flip(literal));
        let on_false = on.saturating_sub(on_true);
        let off_false = off.saturating_sub(off_true);
        let mut left = pairs(on_true, off_true);
        let mut cost = 1;
        if way == LiteralUse::Choose {
            left = left.saturating_add(pairs(on_false, off_false));
            cost = if signal < self.given { 3 } else { u32::MAX };
        }
        let gain = logarithm(pairs(on, off)).saturating_sub(logarithm(left)) / cost;
        Candidate { literal, way, gain }
    }
}

/// Returns how many pairs of a point of `on` and a point of `off` there are, in units of 1/256, given how many points there are.
fn pairs(on: u32, off: u32) -> u64 {
    (on as u64).saturating_mul(off as u64).saturating_mul(256)
}
