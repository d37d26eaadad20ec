//! Makes a circuit of free moves: the outputs one after another, then the next states.

use crate::codes::Codes;
use crate::freedom::Freedom;
use crate::making::Want;
use crate::net::{Conjunction, Net, flip};
use crate::numbers::{Allocated, NONE, at, has_bit, item, put, spend};
use std::alloc::Global;

/// The most gates that a function may have.
const MAX_GATES: u32 = 1 << 10;

/// A net with literals: the outputs, and then the next values of the latches.
#[derive(Drop)]
pub struct WantedNet {
    pub net: Net,
    pub literals: Vec<u32>,
    /// What is wanted of each literal.
    pub wants: Vec<Want>,
}

impl WantedNet {
    pub fn size(&self) -> usize {
        (self.net.len() as usize).saturating_add(self.literals.len())
    }

    /// Appends the gates to `gates`, with all variables from `from` on made greater by `by`. Returns the literals there.
    pub fn append(&self, gates: &mut Vec<Conjunction>, from: u32, by: u32) -> Allocated<Vec<u32>> {
        let shifted = |literal: u32| {
            let more = if literal / 2 < from { 0 } else { by };
            literal.saturating_add(more.saturating_mul(2))
        };
        for signal in self.net.given..self.net.len() {
            let Conjunction { left, right } = self.net.gate(signal);
            gates.push(Conjunction {
                left: shifted(left),
                right: shifted(right),
            })?;
        }
        let mut literals = Vec::new(self.net.alloc);
        for literal in &self.literals {
            literals.push(shifted(*literal))?;
        }
        Ok(literals)
    }
}

/// A circuit that is being made.
#[derive(Drop)]
struct NetDraft<'a> {
    free: &'a Freedom,
    codes: &'a Codes,
    net: Net,
    /// The moves that are left.
    left: Vec<bool>,
}

/// Returns a circuit of free moves: the bits of the output letter, made in the given order, and then the given number of bits of the next
/// state's code. Takes the words that are looked at from `looks`. `None` if these run out, or a bit isn't found.
pub fn circuit_of(
    free: &Freedom,
    codes: &Codes,
    (order, bits): (&[u32], u32),
    looks: &mut u64,
) -> Allocated<Option<WantedNet>> {
    let alloc = *free.nexts.allocator();
    let given = given_values(alloc, free, codes)?;
    let mut draft = NetDraft {
        free,
        codes,
        net: Net::new(alloc, free.points().div_ceil(64), &given, *looks)?,
        left: vec![in alloc; true; free.nexts.len()]?,
    };
    let many = free.outputs.saturating_add(bits);
    let mut literals = vec![in alloc; 0u32; many as usize]?;
    for bit in order.iter().copied().chain(free.outputs..many) {
        let made = draft.choose(bit)?;
        *looks = draft.net.looks;
        let Some(literal) = made else {
            return Ok(None);
        };
        put(&mut literals, bit, literal);
    }
    let net = draft.net.rebuilt(&mut literals, (NONE, 0), &[])?;
    let mut wants = Vec::new(alloc);
    for literal in &literals {
        wants.push(net.want_of(*literal)?)?;
    }
    Ok(Some(WantedNet {
        net,
        literals,
        wants,
    }))
}

/// Returns the values of signal 0, the inputs and the bits of codes at all points. The last point is repeated until a word is full.
fn given_values(alloc: Global, free: &Freedom, codes: &Codes) -> Allocated<Vec<u64>> {
    let mut given = Vec::new(alloc);
    for signal in 0..free.inputs.saturating_add(codes.bits).saturating_add(1) {
        for place in 0..free.points().div_ceil(64).saturating_mul(64) {
            let point = place.min(free.points().saturating_sub(1));
            let code = at(&codes.of, point.wrapping_shr(free.inputs));
            let bit = match signal.checked_sub(1) {
                None => false,
                Some(input) if input < free.inputs => has_bit(point, input),
                Some(latch) => has_bit(code, latch.wrapping_sub(free.inputs)),
            };
            push(&mut given, place, bit)?;
        }
    }
    Ok(given)
}

/// Appends the bit of a place to words.
fn push(words: &mut Vec<u64>, place: u32, bit: bool) -> Allocated<()> {
    if place % 64 == 0 {
        words.push(0)?;
    }
    if let Some(word) = words.last_mut() {
        *word |= (bit as u64).wrapping_shl(place % 64);
    }
    Ok(())
}

impl NetDraft<'_> {
    /// Returns a bit of a move: first come the bits of the output letter, then those of the next state's code.
    fn bit_of(&self, place: u32, bit: u32) -> bool {
        if bit < self.free.outputs {
            return has_bit(at(&self.free.letters, place), bit);
        }
        let code = at(&self.codes.of, at(&self.free.nexts, place));
        has_bit(code, bit.wrapping_sub(self.free.outputs))
    }

    /// Makes a bit, with either value where both are free, and drops the moves in which it has the other value.
    fn choose(&mut self, bit: u32) -> Allocated<Option<u32>> {
        if !spend(&mut self.net.looks, self.left.len() as u64) {
            return Ok(None);
        }
        let mut want = Want::new(self.net.alloc);
        for place in 0..self.net.words.saturating_mul(64) {
            let (mut on, mut off) = (true, true);
            for it in self
                .free
                .places(place.min(self.free.points().saturating_sub(1)))
            {
                if item(&self.left, it, false) {
                    let is_set = self.bit_of(it, bit);
                    on = on && is_set;
                    off = off && !is_set;
                }
            }
            push(&mut want.on, place, on)?;
            push(&mut want.off, place, off)?;
        }
        let Some(literal) = self.net.make(&want, MAX_GATES)? else {
            return Ok(None);
        };
        for point in 0..self.free.points() {
            let word = item(self.net.values(literal / 2), point / 64, 0) ^ flip(literal);
            let value = word.wrapping_shr(point % 64) & 1 == 1;
            for place in self.free.places(point) {
                if self.bit_of(place, bit) != value {
                    put(&mut self.left, place, false);
                }
            }
        }
        Ok(Some(literal))
    }
}
