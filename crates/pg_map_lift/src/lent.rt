//! Lines that are borrowed.

use pg_arena::{Player, Vertex};
use pg_map::Lines;

/// Borrowed lines, which stay where they are.
#[derive(Drop)]
pub struct Lent<'a, G: Lines> {
    pub lines: &'a G,
}

impl<'a, G: Lines> Lines for Lent<'a, G> {
    ghost line = { λ l. G.line l.lines.now };

    #[inline(always)]
    fn holds(&self, v: Vertex) -> bool {
        self.lines.holds(v)
    }

    #[inline(always)]
    fn priority(&self, v: Vertex) -> u32 {
        self.lines.priority(v)
    }

    #[inline(always)]
    fn owner(&self, v: Vertex) -> Player {
        self.lines.owner(v)
    }

    #[inline(always)]
    fn successors(&self, v: Vertex) -> &[Vertex] {
        self.lines.successors(v)
    }
}
