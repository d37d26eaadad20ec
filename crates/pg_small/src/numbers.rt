//! Numbers in lists, widths, and budgets.

pub use pg_search_components::{NONE, at, count, has_bit, is_marked, item, power, put};
use std::alloc::AllocError;

/// A result, unless memory runs out.
pub type Allocated<T> = Result<T, AllocError>;

/// Returns how many bits tell `many` numbers apart.
pub fn width(many: u32) -> u32 {
    (0..32).find(|n| many <= power(*n)).unwrap_or(32)
}

/// Returns the logarithm of a number to base 2, in units of 1/256; 0 for 0.
pub fn logarithm(number: u64) -> u32 {
    let zeros = number.leading_zeros().min(63);
    let rest = number.wrapping_shl(zeros).wrapping_shr(55) & 255;
    (63 - zeros) * 256 + rest as u32
}

/// Takes `many` from the looks that are left. Returns whether any are left.
pub fn spend(looks: &mut u64, many: u64) -> bool {
    *looks = looks.saturating_sub(many);
    *looks > 0
}
