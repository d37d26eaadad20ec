//! Small sets, and what is known of signals.

/// Numbers in a set are below this one.
pub const ROOM: u32 = 256;

/// A set of numbers below `ROOM`.
#[derive(Clone, Copy, PartialEq, Eq, Hash)]
pub struct Bits {
    low: u128,
    high: u128,
}

impl Bits {
    pub const EMPTY: Bits = Bits { low: 0, high: 0 };

    /// Returns the set of one number; of a number that is too great, the empty set.
    #[inline(always)]
    pub fn one(number: u32) -> Bits {
        if number < 128 {
            return Bits {
                low: 1u128.wrapping_shl(number),
                high: 0,
            };
        }
        Bits {
            low: 0,
            high: if number < ROOM {
                1u128.wrapping_shl(number)
            } else {
                0
            },
        }
    }

    /// Returns the set of all numbers below this one.
    pub fn below(number: u32) -> Bits {
        let mut bits = Bits::EMPTY;
        for smaller in 0..number {
            bits = bits.or(Bits::one(smaller));
        }
        bits
    }

    #[inline(always)]
    pub fn or(self, other: Bits) -> Bits {
        Bits {
            low: self.low | other.low,
            high: self.high | other.high,
        }
    }

    #[inline(always)]
    pub fn and(self, other: Bits) -> Bits {
        Bits {
            low: self.low & other.low,
            high: self.high & other.high,
        }
    }

    #[inline(always)]
    pub fn without(self, other: Bits) -> Bits {
        Bits {
            low: self.low & !other.low,
            high: self.high & !other.high,
        }
    }

    #[inline(always)]
    pub fn is_empty(self) -> bool {
        self.low == 0 && self.high == 0
    }

    #[inline(always)]
    pub fn is_within(self, other: Bits) -> bool {
        self.without(other).is_empty()
    }

    #[inline(always)]
    pub fn has(self, number: u32) -> bool {
        !self.and(Bits::one(number)).is_empty()
    }

    /// Returns the least number of the set.
    #[inline(always)]
    pub fn first(self) -> Option<u32> {
        if self.low != 0 {
            return Some(self.low.trailing_zeros());
        }
        if self.high != 0 {
            return Some(self.high.trailing_zeros().saturating_add(128));
        }
        None
    }

    /// Takes the least number out of the set.
    #[inline(always)]
    pub fn take(&mut self) -> Option<u32> {
        let first = self.first()?;
        *self = self.without(Bits::one(first));
        Some(first)
    }
}

/// What is known of signals: which of them are known, and which of those are true.
#[derive(Clone, Copy, PartialEq, Eq, Hash)]
pub struct LetterCube {
    pub known: Bits,
    pub on: Bits,
}

impl LetterCube {
    pub const FREE: LetterCube = LetterCube {
        known: Bits::EMPTY,
        on: Bits::EMPTY,
    };

    /// Returns that a signal has this value.
    #[inline(always)]
    pub fn of(signal: u32, value: bool) -> LetterCube {
        let known = Bits::one(signal);
        LetterCube {
            known,
            on: if value { known } else { Bits::EMPTY },
        }
    }

    /// Returns what both of these say.
    #[inline(always)]
    pub fn and(self, other: LetterCube) -> LetterCube {
        LetterCube {
            known: self.known.or(other.known),
            on: self.on.or(other.on),
        }
    }

    /// Returns what is known of these signals alone.
    #[inline(always)]
    pub fn over(self, signals: Bits) -> LetterCube {
        LetterCube {
            known: self.known.and(signals),
            on: self.on.and(signals),
        }
    }

    /// Whether no signal has different values in the two.
    #[inline(always)]
    pub fn agrees(self, other: LetterCube) -> bool {
        let both = self.known.and(other.known);
        self.on.and(both) == other.on.and(both)
    }

    /// Whether the other one says all that this one says.
    #[inline(always)]
    pub fn is_within(self, other: LetterCube) -> bool {
        self.known.is_within(other.known) && self.agrees(other)
    }
}
