//! CubeSteps of a circuit with unknown inputs, 64 at once: two words for each variable, one for the steps in which it is known to be true, and
//! one for those in which it is known to be false.

use crate::bits::LetterCube;
use crate::lanes::{has_bit, has_lane, spread};
use crate::numbers::{count, item, put};
use pg_aiger::{Gate, Latch};

/// The lanes in which a variable is known to be true, and those in which it is known to be false.
#[derive(Clone, Copy)]
pub struct Rail {
    pub on: u64,
    pub off: u64,
}

impl Rail {
    pub const FALSE: Rail = Rail {
        on: 0,
        off: u64::MAX,
    };

    /// Returns the lanes in which the variable isn't known.
    #[inline(always)]
    pub fn unknown(self) -> u64 {
        !(self.on | self.off)
    }
}

/// Returns what is known of a literal.
#[inline(always)]
pub fn rail_of(rails: &[Rail], literal: u32) -> Rail {
    let rail = item(rails, literal / 2, Rail::FALSE);
    if literal % 2 == 1 {
        return Rail {
            on: rail.off,
            off: rail.on,
        };
    }
    rail
}

/// Whether a literal isn't known in a lane.
pub fn is_unknown(rails: &[Rail], literal: u32, lane: u32) -> bool {
    has_lane(rail_of(rails, literal).unknown(), lane)
}

/// Writes what is known of the inputs, whose variables are these: in each lane what the cube says that stands there.
pub fn put_inputs(rails: &mut [Rail], inputs: &[u32], cubes: &[LetterCube]) {
    let mut signal = 0u32;
    for variable in inputs {
        let mut rail = Rail { on: 0, off: 0 };
        for lane in 0..count(cubes.len()).min(64) {
            let cube = item(cubes, lane, LetterCube::FREE);
            if cube.on.has(signal) {
                rail.on |= 1u64.wrapping_shl(lane);
            } else if cube.known.has(signal) {
                rail.off |= 1u64.wrapping_shl(lane);
            }
        }
        put(rails, *variable, rail);
        signal = signal.wrapping_add(1);
    }
}

/// Writes what is known of the latches, which have the same values in each lane.
pub fn put_latches(rails: &mut [Rail], latches: &[Latch], state: &[u64]) {
    let mut bit = 0u32;
    for latch in latches {
        let on = spread(has_bit(state, bit));
        put(rails, latch.literal / 2, Rail { on, off: !on });
        bit = bit.wrapping_add(1);
    }
}

/// Writes what is known of gates, each after those that it uses.
pub fn put_gates(rails: &mut [Rail], gates: &[Gate]) {
    for gate in gates {
        let one = rail_of(rails, gate.rhs0);
        let other = rail_of(rails, gate.rhs1);
        let rail = Rail {
            on: one.on & other.on,
            off: one.off | other.off,
        };
        put(rails, gate.lhs / 2, rail);
    }
}
