//! Dice that throw the same numbers each time.

use crate::numbers::count;

#[derive(Drop)]
pub struct Dice(u64);

impl Dice {
    pub fn new() -> Dice {
        Dice(1)
    }

    /// Returns a number below `many`, or 0 if that is 0.
    pub fn below(&mut self, many: u32) -> u32 {
        self.0 ^= self.0.wrapping_shl(13);
        self.0 ^= self.0.wrapping_shr(7);
        self.0 ^= self.0.wrapping_shl(17);
        let wide = self.0.wrapping_shr(32).wrapping_mul(many as u64);
        wide.wrapping_shr(32) as u32
    }

    /// Exchanges two numbers of a list, at random places.
    pub fn exchange(&mut self, list: &mut [u32]) {
        let many = count(list.len());
        let (one, two) = (self.below(many) as usize, self.below(many) as usize);
        if one < list.len() && two < list.len() {
            list.swap(one, two);
        }
    }
}
