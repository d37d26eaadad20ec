//! Lists of vertices that are joined at no cost.

use pg_search_components::{NONE, at, put};
use std::alloc::{AllocError, Global};

/// A list, given by its first and its last vertex and its length.
#[derive(Clone, Copy)]
pub(crate) struct List {
    pub first: u32,
    pub last: u32,
    pub len: u32,
}

impl List {
    pub const EMPTY: List = List {
        first: NONE,
        last: NONE,
        len: 0,
    };
}

/// A list for each player.
#[derive(Clone, Copy)]
pub(crate) struct Sides {
    pub even: List,
    pub odd: List,
}

impl Sides {
    pub const EMPTY: Sides = Sides {
        even: List::EMPTY,
        odd: List::EMPTY,
    };

    /// Returns the list of a player.
    #[inline(always)]
    pub fn of(&self, player: u32) -> List {
        if player == 0 { self.even } else { self.odd }
    }

    /// Sets the list of a player.
    #[inline(always)]
    pub fn set(&mut self, player: u32, list: List) {
        if player == 0 {
            self.even = list;
        } else {
            self.odd = list;
        }
    }
}

/// The vertices before and after each vertex in its list. A vertex that is in no list has itself before it.
#[derive(Drop)]
pub(crate) struct Links {
    befores: Vec<u32>,
    nexts: Vec<u32>,
}

impl Links {
    pub fn new(alloc: Global, vertices: u32) -> Result<Links, AllocError> {
        let mut befores = Vec::with_capacity(alloc, vertices as usize)?;
        for v in 0..vertices {
            befores.push(v)?;
        }
        Ok(Links {
            befores,
            nexts: vec![in alloc; NONE; vertices as usize]?,
        })
    }

    /// Returns the vertex after a given one in its list.
    #[inline(always)]
    pub fn next(&self, v: u32) -> u32 {
        at(&self.nexts, v)
    }

    /// Notes that a vertex is in no list.
    #[inline(always)]
    pub fn forget(&mut self, v: u32) {
        put(&mut self.befores, v, v);
    }

    /// Appends `other` to `list`, and returns the joined list.
    pub fn join(&mut self, list: List, other: List) -> List {
        if list.len == 0 {
            return other;
        }
        if other.len == 0 {
            return list;
        }
        put(&mut self.nexts, list.last, other.first);
        put(&mut self.befores, other.first, list.last);
        List {
            first: list.first,
            last: other.last,
            len: list.len.wrapping_add(other.len),
        }
    }

    /// Appends vertices to a list, and returns it.
    pub fn append(&mut self, list: List, vertices: &[u32]) -> List {
        let mut list = list;
        for v in vertices {
            if list.len == 0 {
                list.first = *v;
            } else {
                put(&mut self.nexts, list.last, *v);
            }
            put(&mut self.befores, *v, list.last);
            list.last = *v;
            list.len = list.len.wrapping_add(1);
        }
        list
    }

    /// Removes the vertices that are in a list from it, and returns it. Those in no list are skipped.
    pub fn remove(&mut self, list: List, vertices: &[u32]) -> List {
        let mut list = list;
        for v in vertices {
            let (before, next) = (at(&self.befores, *v), at(&self.nexts, *v));
            if before == *v {
                continue;
            }
            if list.first == *v {
                list.first = next;
            } else {
                put(&mut self.nexts, before, next);
            }
            if list.last == *v {
                list.last = before;
            } else {
                put(&mut self.befores, next, before);
            }
            list.len = list.len.wrapping_sub(1);
            self.forget(*v);
        }
        list
    }
}
