//! Numbers, and lists that can be read and written at any place.

/// Stands for no number.
pub const NONE: u32 = u32::MAX;

/// Returns the item at a place, or `other` past the end.
#[inline(always)]
pub fn item<T: Copy + Drop>(items: &[T], place: u32, other: T) -> T {
    if (place as usize) < items.len() {
        items[place as usize]
    } else {
        other
    }
}

/// Returns the number at a place, or `NONE` past the end.
#[inline(always)]
pub fn at(numbers: &[u32], place: u32) -> u32 {
    item(numbers, place, NONE)
}

/// Whether a place is marked. Past the end none is.
#[inline(always)]
pub fn is_marked(marks: &[bool], place: u32) -> bool {
    item(marks, place, false)
}

/// Sets the item at a place, if it is within the list.
#[inline(always)]
pub fn put<T: Copy + Drop>(items: &mut [T], place: u32, it: T) {
    if (place as usize) < items.len() {
        items[place as usize] = it;
    }
}

/// Returns a length as a number of 32 bits, or `NONE` if it is greater.
#[inline(always)]
pub fn count(length: usize) -> u32 {
    length.min(NONE as usize) as u32
}

/// Returns the items from the place `from` on before the place `to`, as far as they are there.
#[inline(always)]
pub fn between<T>(items: &[T], from: u32, to: u32) -> &[T] {
    let to = (to as usize).min(items.len());
    let from = (from as usize).min(to);
    &items[from..to]
}

/// Returns the numbers from a place on.
#[inline(always)]
pub fn from(numbers: &[u32], place: usize) -> &[u32] {
    let place = place.min(numbers.len());
    &numbers[place..]
}

/// Returns two to the power of `n`, which is below 32.
#[inline(always)]
pub fn power(n: u32) -> u32 {
    1u32.wrapping_shl(n)
}

/// Whether bit `n` of a number is set.
#[inline(always)]
pub fn has_bit(number: u32, n: u32) -> bool {
    number.wrapping_shr(n) & 1 == 1
}
