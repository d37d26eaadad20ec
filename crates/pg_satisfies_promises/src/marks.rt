//! Sets of places.

use std::alloc::{AllocError, Global};

/// A set of places of a list.
#[derive(Drop)]
pub struct Marks {
    marks: Vec<bool>,
}

impl Marks {
    /// Returns the empty set of places below `count`.
    pub fn new(alloc: Global, count: usize) -> Result<Marks, AllocError> {
        let marks = vec![in alloc; false; count]?;
        Ok(Marks { marks })
    }

    /// Adds a place, if it is below the count.
    pub fn add(&mut self, place: usize) {
        if let Some(mark) = self.marks.get_mut(place) {
            *mark = true;
        }
    }

    /// Whether the place is in the set.
    pub fn has(&self, place: usize) -> bool {
        self.marks.get(place).copied().unwrap_or(false)
    }
}
