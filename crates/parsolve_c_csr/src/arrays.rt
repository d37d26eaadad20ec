//! A game as arrays.

/// A game in compressed sparse rows. Vertex `v` has the priority `priorities[v]`. Even owns it if `owners[v]` is 0, and Odd if it is 1.
/// Its successors are in `successors` from `starts[v]` up to, but not including, `starts[v + 1]`, in any order; a repeated one counts
/// once.
#[derive(Drop)]
#[repr(C)]
pub struct Arrays<'a> {
    /// A priority for each vertex, from 0 to 65,535.
    pub priorities: &'a [u32],
    /// An owner for each vertex, 0 or 1.
    pub owners: &'a [u8],
    /// A start for each vertex, and the end of the last vertex's successors.
    pub starts: &'a [u32],
    /// The successors of all vertices.
    pub successors: &'a [u32],
}
