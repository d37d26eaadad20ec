//! The vertices that lead to a vertex. What is gathered is only proposed: a look decides whether all are there.

ghost use Rattle.std.specs.Prelude.{◌≡◌, slice_index_or};
ghost use Rattle.std.specs.Bool.{OnTrue};
ghost use Rattle.std.specs.List.{Contains};
ghost use Rattle.pg_map.specs.Lines.{AreWithin};
ghost use Rattle.pg_map_lift.specs.Mirrors.Watches.{sources_of, IsListed, ListsAll};

use pg_arena::Vertex;
use pg_map::Lines;
use std::alloc::{AllocError, Global};

/// The vertices that lead to each vertex of some lines, once they are gathered. Those that lead to `v` stand from `starts[v]` up to
/// `starts[v + 1]`, in rising order.
#[derive(Drop)]
pub(crate) struct Predecessors {
    pub starts: Vec<usize>,
    pub sources: Vec<Vertex>,
    is_gathered: bool,
}

/// Counts an edge at a place, or takes one away. Returns how many there are then.
fn change(starts: &mut [usize], place: usize, by: usize) -> usize {
    match starts.get_mut(place) {
        Some(start) => {
            *start = start.wrapping_add(by);
            *start
        }
        None => 0,
    }
}

/// Whether a vertex is found among others, which are in rising order.
fn is_listed(others: &[Vertex], v: Vertex) -> bool
    ensures { OnTrue result (Contains others.now v) }
{
    if let Ok(at) = others.binary_search(&v) {
        if others[at] == v {
            return true;
        }
    }
    false
}

impl Predecessors {
    /// Makes a list for vertices below `count`, with no predecessors yet.
    pub fn new(alloc: Global, count: u32) -> Result<Predecessors, AllocError> {
        Ok(Predecessors {
            starts: vec![in alloc; 0; count as usize + 1]?,
            sources: Vec::new(alloc),
            is_gathered: false,
        })
    }

    /// Makes room for `edges` more edges, and lets all be gathered anew.
    pub fn reserve(&mut self, edges: usize) -> Result<(), AllocError> {
        self.is_gathered = false;
        self.sources
            .resize(self.sources.len().saturating_add(edges), Vertex(0))
    }

    /// Gathers the edges of the lines, unless they are gathered already. It takes no memory.
    pub fn gather<G: Lines>(&mut self, lines: &G) {
        if self.is_gathered {
            return;
        }
        self.is_gathered = true;
        let count = self.starts.len().saturating_sub(1).min(u32::MAX as usize) as u32;
        self.starts.fill(0);
        for number in 0..count {
            let u = Vertex(number);
            if lines.holds(u) {
                for w in lines.successors(u) {
                    let _edges = change(&mut self.starts, w.0 as usize, 1);
                }
            }
        }
        let mut all = 0usize;
        for start in self.starts.iter_mut() {
            all = all.saturating_add(*start);
            *start = all;
        }
        for number in (0..count).rev() {
            let u = Vertex(number);
            if lines.holds(u) {
                for w in lines.successors(u) {
                    let place = change(&mut self.starts, w.0 as usize, usize::MAX);
                    if let Some(source) = self.sources.get_mut(place) {
                        *source = u;
                    }
                }
            }
        }
    }

    /// Returns where the vertices that lead to this one begin.
    fn start(&self, v: usize) -> usize
        ensures { result ≡ slice_index_or self.now.starts.items v 0 }
    {
        if v < self.starts.len() {
            self.starts[v]
        } else {
            0
        }
    }

    /// Returns the vertices that lead to a vertex.
    pub fn of(&self, v: Vertex) -> &[Vertex]
        ensures { result.now ≡ sources_of self.now.starts.items self.now.sources.items v }
    {
        let to = self.start(v.0 as usize + 1).min(self.sources.len());
        let from = self.start(v.0 as usize).min(to);
        &self.sources[from..to]
    }

    /// Whether a vertex is listed as leading to each of the others.
    fn list(&self, v: Vertex, others: &[Vertex]) -> bool
        ensures { OnTrue result (IsListed self.now.starts.items self.now.sources.items v others.now) }
    {
        for w in others {
            if !is_listed(self.of(*w), v) {
                return false;
            }
        }
        true
    }

    /// Whether each vertex of the lines is listed as leading to each of its successors.
    pub fn list_all<G: Lines>(&self, lines: &G, count: u32) -> bool
        requires { AreWithin count (G.line lines.now) }
        ensures { OnTrue result (ListsAll self.now.starts.items self.now.sources.items (G.line lines.now)) }
    {
        for number in 0..count {
            let v = Vertex(number);
            if lines.holds(v) && !self.list(v, lines.successors(v)) {
                return false;
            }
        }
        true
    }
}
