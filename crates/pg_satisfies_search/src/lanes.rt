//! CubeSteps of a circuit, 64 at once: a word for each variable, with a bit for each step.

use crate::numbers::{item, put};
use pg_aiger::{Gate, Latch};

/// Returns the word with this value in each lane.
#[inline(always)]
pub fn spread(value: bool) -> u64 {
    if value { u64::MAX } else { 0 }
}

/// Whether a lane of a word is set.
#[inline(always)]
pub fn has_lane(word: u64, lane: u32) -> bool {
    word.wrapping_shr(lane) & 1 == 1
}

/// Whether a bit of a list of words is set.
#[inline(always)]
pub fn has_bit(words: &[u64], bit: u32) -> bool {
    has_lane(item(words, bit / 64, 0), bit % 64)
}

/// Returns the word of an input: lane i has its value in the letter 64 * `block` + i, whose bit j is the j-th input.
pub fn letter_word(input: u32, block: u32) -> u64 {
    match input {
        0 => 0xAAAA_AAAA_AAAA_AAAA,
        1 => 0xCCCC_CCCC_CCCC_CCCC,
        2 => 0xF0F0_F0F0_F0F0_F0F0,
        3 => 0xFF00_FF00_FF00_FF00,
        4 => 0xFFFF_0000_FFFF_0000,
        5 => 0xFFFF_FFFF_0000_0000,
        _ => spread(has_lane(block as u64, input.wrapping_sub(6))),
    }
}

/// Returns the word of a literal.
#[inline(always)]
pub fn word_of(words: &[u64], literal: u32) -> u64 {
    let word = item(words, literal / 2, 0);
    if literal % 2 == 1 { !word } else { word }
}

/// Writes the words of the latches, which have the same values in each lane.
pub fn put_latches(words: &mut [u64], latches: &[Latch], state: &[u64]) {
    let mut bit = 0u32;
    for latch in latches {
        put(words, latch.literal / 2, spread(has_bit(state, bit)));
        bit = bit.wrapping_add(1);
    }
}

/// Writes the words of gates, each after those that it uses.
pub fn put_gates(words: &mut [u64], gates: &[Gate]) {
    for gate in gates {
        let word = word_of(words, gate.rhs0) & word_of(words, gate.rhs1);
        put(words, gate.lhs / 2, word);
    }
}
