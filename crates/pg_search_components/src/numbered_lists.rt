//! Numbers for lists: equal lists have the same number.

use crate::numbers::count;
use indexmap::IndexSet;
use std::alloc::{AllocError, Global};
use std::hash::Hash;

/// Lists, numbered from 0 in the order in which they were added.
#[derive(Drop)]
pub struct NumberedLists<T: Copy + Eq + Hash + Drop> {
    lists: IndexSet<Vec<T>>,
}

impl<T: Copy + Eq + Hash + Drop> NumberedLists<T> {
    pub fn new(alloc: Global) -> NumberedLists<T> {
        NumberedLists {
            lists: IndexSet::new(alloc),
        }
    }

    /// Returns how many different lists were added.
    pub fn len(&self) -> u32 {
        count(self.lists.len())
    }

    /// Returns the list with this number, or an empty one past the last.
    pub fn list(&self, number: u32) -> &[T] {
        match self.lists.get_index(number as usize) {
            Some(list) => list.as_slice(),
            None => &[],
        }
    }

    /// Returns the number of a list, if it was added.
    pub fn find(&self, list: &[T]) -> Option<u32> {
        Some(count(self.lists.get_index_of(list)?))
    }

    /// Returns the number of a list, which is added if it is new.
    pub fn number(&mut self, list: &[T]) -> Result<u32, AllocError> {
        if let Some(number) = self.find(list) {
            return Ok(number);
        }
        let list = Vec::from_slice(*self.lists.allocator(), list)?;
        let (number, _) = self.lists.insert_full(list)?;
        Ok(count(number))
    }
}
