//! Lists of vertices, each at most once.

ghost use Rattle.std.specs.Prelude.{◌≡◌, ◌<◌, ◌++◌, ◌∷◌, [], length, All, AllPairs, Any, IfOk};
ghost use Rattle.std.specs.List.{Contains};
ghost use Rattle.std.specs.Prelude.{ℕ, ◌⊎◌};

use pg_arena::Vertex;
use std::alloc::{AllocError, Global};
use std::marker::Model;

/// A list of vertices, each at most once. It takes all its memory when it is made.
#[derive(Drop)]
pub struct VertexSet {
    vertices: Vec<Vertex>,
    marked: Vec<bool>,
}

impl Model for VertexSet {
    ghost use Rattle.std.specs.Prelude.{length};
    ghost use Rattle.pg_coord_partition.specs.VertexSets.{VertexSetValue};
    ghost use Rattle.pg_coord_partition.specs.Mirrors.Listed.{IsVertexSet};

    ghost Value = { VertexSetValue };

    ghost view = { λ l. record { vertices = l.vertices.items; count = length l.marked.items } };

    ghost invariant = { λ l. IsVertexSet l.vertices.items l.marked.items l.vertices.cap };
}

impl VertexSet {
    /// Makes an empty list with room for the vertices below `count`. Fails only if memory runs out.
    pub fn new(alloc: Global, count: u32) -> Result<VertexSet, AllocError>
        ensures count { IfOk result (λ l. l.count ≡ count) }
        ensures none { IfOk result (λ l. l.vertices ≡ []) }
    {
        Ok(VertexSet {
            vertices: Vec::with_capacity(alloc, count as usize)?,
            marked: vec![in alloc; false; count as usize]?,
        })
    }

    /// Lists a vertex, which must be below the count, unless it is listed already.
    pub fn add(&mut self, v: Vertex)
        requires { v < self.old.count }
        ensures count { self.new.count ≡ self.old.count }
        ensures there { Contains self.new.vertices v }
        ensures more { (u : ℕ) → Contains self.old.vertices u → Contains self.new.vertices u }
        ensures only { (u : ℕ) → Contains self.new.vertices u → (u ≡ v) ⊎ Contains self.old.vertices u }
    {
        let at = v.0 as usize;
        if !self.marked[at] {
            self.marked[at] = true;
            self.vertices.push_reserved(v);
        }
    }

    /// Removes all vertices from the list.
    pub fn clear(&mut self)
        ensures count { self.new.count ≡ self.old.count }
        ensures none { self.new.vertices ≡ [] }
    {
        while let Some(v) = self.vertices.pop() {
            self.marked[v.0 as usize] = false;
        }
    }

    /// Sorts the list by number, from the least on.
    pub fn sort(&mut self)
        ensures count { self.new.count ≡ self.old.count }
        ensures rising { AllPairs (λ v w. v < w) self.new.vertices }
        ensures more { (u : ℕ) → Contains self.old.vertices u → Contains self.new.vertices u }
        ensures only { (u : ℕ) → Contains self.new.vertices u → Contains self.old.vertices u }
    {
        self.vertices.sort_unstable();
    }

    /// Returns the vertices that are listed.
    pub fn as_slice(&self) -> &[Vertex]
        ensures { result.now ≡ self.now.vertices }
    {
        &self.vertices
    }
}
