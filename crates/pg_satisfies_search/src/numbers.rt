//! Parts of lists, and the numbers and lists of every search.

use pg_search_components::between;
pub use pg_search_components::{NONE, count, item, put};

/// A part of a list: from a place up to, but not including, another.
#[derive(Clone, Copy, PartialEq, Eq)]
pub struct NodeSpan {
    pub from: u32,
    pub to: u32,
}

impl NodeSpan {
    pub const EMPTY: NodeSpan = NodeSpan { from: 0, to: 0 };

    /// Returns the items of this part, as far as the list goes.
    #[inline(always)]
    pub fn of<T>(self, items: &[T]) -> &[T] {
        between(items, self.from, self.to)
    }
}
