//! Nets of conjunctions over signals whose values are known at every point that can come up. Two signals that agree at all points are
//! one, whatever they would be elsewhere.

use crate::numbers::{Allocated, NONE, at, count, item, put};
use std::alloc::Global;

/// A conjunction of two literals: a literal is twice a variable, plus one where it is negated.
#[derive(Clone, Copy)]
pub struct Conjunction {
    pub left: u32,
    pub right: u32,
}

/// How many places for signals there are: a power of two.
const PLACES: u32 = 1 << 12;

/// A net. Signal 0 is false; then come the signals that are given, and then the gates.
#[derive(Drop)]
pub struct Net {
    pub alloc: Global,
    /// How many words hold the values of a signal.
    pub words: u32,
    /// How many signals aren't gates.
    pub given: u32,
    gates: Vec<Conjunction>,
    /// The values of all signals.
    pub values: Vec<u64>,
    /// Signals at places that follow from their values: the last one at each place, though it may be gone.
    places: Vec<u32>,
    /// Whether each signal is barred from use.
    pub barred: Vec<bool>,
    /// How many words may still be looked at.
    pub looks: u64,
}

/// Returns a word of ones for a literal that is negated, and a word of zeros for any other.
pub fn flip(literal: u32) -> u64 {
    0u64.wrapping_sub((literal & 1) as u64)
}

/// Returns a word of a literal's values.
pub fn word_of(values: &[u64], literal: u32, word: u32, words: u32) -> u64 {
    let place = (literal / 2).saturating_mul(words).saturating_add(word);
    item(values, place, 0) ^ flip(literal)
}

impl Net {
    /// Returns the net of signals that are given by their values, signal after signal; the values of signal 0 are zeros.
    pub fn new(alloc: Global, words: u32, given: &[u64], looks: u64) -> Allocated<Net> {
        let mut net = Net {
            alloc,
            words,
            given: 0,
            gates: Vec::new(alloc),
            values: Vec::from_slice(alloc, given)?,
            places: vec![in alloc; NONE; PLACES as usize]?,
            barred: Vec::new(alloc),
            looks,
        };
        for _ in given.chunks(words.max(1) as usize) {
            net.add(Conjunction { left: 0, right: 0 })?;
        }
        net.given = net.len();
        Ok(net)
    }

    /// How many signals there are.
    pub fn len(&self) -> u32 {
        count(self.gates.len())
    }

    pub fn gate(&self, signal: u32) -> Conjunction {
        item(&self.gates, signal, Conjunction { left: 0, right: 0 })
    }

    /// Returns the values of a signal.
    pub fn values(&self, signal: u32) -> &[u64] {
        let words = self.words as usize;
        let from = (signal as usize)
            .saturating_mul(words)
            .min(self.values.len());
        let to = from.saturating_add(words).min(self.values.len());
        &self.values[from..to]
    }

    /// Takes the words of signals that were looked at from those that may be looked at.
    pub fn look(&mut self, signals: u32) {
        let words = (signals as u64).saturating_mul(self.words as u64);
        self.looks = self.looks.saturating_sub(words);
    }

    /// Removes the last signals, so that `len` of them stay.
    pub fn cut(&mut self, len: u32) {
        self.gates.truncate(len as usize);
        self.barred.truncate(len as usize);
        let words = (len as usize).saturating_mul(self.words as usize);
        self.values.truncate(words);
    }

    /// Adds a signal whose values are there already.
    fn add(&mut self, gate: Conjunction) -> Allocated<()> {
        let signal = self.len();
        let place = self.place(self.values(signal));
        put(&mut self.places, place, signal);
        self.gates.push(gate)?;
        self.barred.push(false)?;
        Ok(())
    }

    /// Returns the place of signals with these values or their negation.
    fn place(&self, values: &[u64]) -> u32 {
        let turn = flip((item(values, 0, 0) & 1) as u32);
        let mut mixed = 0u64;
        for word in values {
            mixed = (mixed ^ *word ^ turn).wrapping_mul(0x9e37_79b9_7f4a_7c15);
            mixed ^= mixed >> 29;
        }
        (mixed >> 32) as u32 & (PLACES - 1)
    }

    /// Returns a literal that may be used and has the last values, of which no signal is made yet; or `NONE`.
    fn find(&self) -> u32 {
        let values = self.values(self.len());
        let signal = at(&self.places, self.place(values));
        let others = self.values(signal);
        let flips = ((item(values, 0, 0) ^ item(others, 0, 0)) & 1) as u32;
        let mut pairs = values.iter().zip(others);
        if item(&self.barred, signal, true)
            || !pairs.all(|(word, other)| *word ^ *other == flip(flips))
        {
            return NONE;
        }
        signal.saturating_mul(2) | flips
    }

    /// Returns the conjunction of two literals.
    pub fn and(&mut self, x: u32, y: u32) -> Allocated<u32> {
        for word in 0..self.words {
            let left = word_of(&self.values, x, word, self.words);
            let right = word_of(&self.values, y, word, self.words);
            self.values.push(left & right)?;
        }
        self.look(2);
        let (signal, known) = (self.len(), self.find());
        if known != NONE {
            self.cut(signal);
            return Ok(known);
        }
        let (left, right) = (x.max(y), x.min(y));
        self.add(Conjunction { left, right })?;
        Ok(signal.saturating_mul(2))
    }

    /// Returns the gates except one: first those that don't depend on it, and then those that do.
    fn order(&self, signal: u32, behind: &[bool]) -> Allocated<Vec<u32>> {
        let mut order = Vec::new(self.alloc);
        for is_behind in [false, true] {
            for other in self.given..self.len() {
                if item(behind, other, false) == is_behind && other != signal {
                    order.push(other)?;
                }
            }
        }
        Ok(order)
    }

    /// Returns which signals literals need when a literal takes the place of a signal; all given signals count as needed.
    pub fn needed(
        &self,
        literals: &[u32],
        swap: (u32, u32),
        behind: &[bool],
    ) -> Allocated<Vec<bool>> {
        let mut needed = vec![in self.alloc; true; self.given as usize]?;
        needed.resize(self.gates.len(), false)?;
        for literal in literals {
            put(&mut needed, instead(swap, *literal) / 2, true);
        }
        for other in self.order(swap.0, behind)?.iter().rev() {
            if item(&needed, *other, false) {
                let gate = self.gate(*other);
                put(&mut needed, instead(swap, gate.left) / 2, true);
                put(&mut needed, instead(swap, gate.right) / 2, true);
            }
        }
        Ok(needed)
    }

    /// Returns the net of what literals need, and nothing else, when a literal takes the place of a signal; the literals become literals of
    /// that net. The signals that depend on the replaced one are marked, and the literal that replaces it is none of these.
    pub fn rebuilt(
        &self,
        literals: &mut [u32],
        swap: (u32, u32),
        behind: &[bool],
    ) -> Allocated<Net> {
        let needed = self.needed(literals, swap, behind)?;
        let words = (self.given as usize).saturating_mul(self.words as usize);
        let given = &self.values[..words.min(self.values.len())];
        let mut net = Net::new(self.alloc, self.words, given, self.looks)?;
        let mut map = Vec::new(self.alloc);
        for signal in 0..self.len() {
            map.push(signal.saturating_mul(2))?;
        }
        for other in &self.order(swap.0, behind)? {
            if item(&needed, *other, false) {
                let gate = self.gate(*other);
                let left = image(&map, instead(swap, gate.left));
                let right = image(&map, instead(swap, gate.right));
                put(&mut map, *other, net.and(left, right)?);
            }
        }
        for literal in literals.iter_mut() {
            *literal = image(&map, instead(swap, *literal));
        }
        Ok(net)
    }
}

/// Returns what takes the place of a literal when a literal takes the place of a signal.
fn instead(swap: (u32, u32), literal: u32) -> u32 {
    if literal / 2 == swap.0 {
        swap.1 ^ (literal & 1)
    } else {
        literal
    }
}

/// Returns the literal of another net, by a map from signals to literals.
fn image(map: &[u32], literal: u32) -> u32 {
    at(map, literal / 2) ^ (literal & 1)
}
