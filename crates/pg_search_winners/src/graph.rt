//! Graphs with priorities and owners.

use pg_arena::{Game, Player, Vertex};
use pg_search_components::{Edges, NONE, TargetRows, at, between, count, put};
use std::alloc::{AllocError, Global};

/// Vertices with priorities and owners, and their successors and predecessors row by row. Players are numbers here: Even is 0 and
/// Odd is 1, so that the player of a priority is its remainder by 2.
///
/// If a vertex leads to itself to its owner's harm, and to another vertex too, the edge to itself isn't kept: the first other
/// successor stands there once more.
#[derive(Drop)]
pub struct Graph {
    priorities: Vec<u32>,
    /// For each vertex, twice the place where its row begins, plus its owner; and one more entry at the end.
    rows: Vec<u32>,
    successors: Vec<u32>,
    /// The predecessors of each vertex, in rising order.
    predecessors: TargetRows,
    /// The vertices that had an edge to themselves.
    loops: Vec<u32>,
}

/// A graph of at least `LARGE` vertices is large, an edge over at least `FAR` vertices leads far, and one in `SAMPLE` vertices is
/// sampled.
const LARGE: u32 = 1 << 19;

const FAR: u32 = 1 << 14;

const SAMPLE: u32 = 64;

/// Returns the number that says where a row begins and who owns it.
#[inline(always)]
fn row_of(offset: u32, owner: Player) -> u32 {
    let player = match owner {
        Player::Even => 0,
        Player::Odd => 1,
    };
    offset.saturating_mul(2) | player
}

impl Graph {
    /// Makes the graph of a game.
    pub fn of(alloc: Global, game: &Game) -> Result<Graph, AllocError> {
        let mut priorities = Vec::with_capacity(alloc, game.len())?;
        let mut rows = Vec::with_capacity(alloc, game.len().saturating_add(1))?;
        let mut successors = Vec::new(alloc);
        for number in 0..game.len() as u32 {
            let v = Vertex(number);
            priorities.push(game.priority(v))?;
            rows.push(row_of(count(successors.len()), game.owner(v)))?;
            for w in game.successors(v) {
                successors.push(w.0)?;
            }
        }
        rows.push(row_of(count(successors.len()), Player::Even))?;
        Graph::of_rows(alloc, priorities, rows, successors)
    }

    /// Makes the graph with these priorities and owners. The successors of each vertex stand from its offset on up to the next one,
    /// so there is one more offset than vertices. Each vertex must have a successor.
    pub fn new(
        alloc: Global,
        priorities: Vec<u32>,
        owners: &[Player],
        offsets: &[u32],
        successors: Vec<u32>,
    ) -> Result<Graph, AllocError> {
        let mut rows = Vec::with_capacity(alloc, offsets.len())?;
        for (offset, owner) in offsets.iter().zip(owners) {
            rows.push(row_of(*offset, *owner))?;
        }
        rows.push(row_of(count(successors.len()), Player::Even))?;
        Graph::of_rows(alloc, priorities, rows, successors)
    }

    /// Makes the graph of some vertices, numbered in the order in which they are given. `numbers` has the new number of each vertex
    /// of this graph; edges to a vertex for which it has `NONE` are left out.
    pub fn part(
        &self,
        alloc: Global,
        vertices: &[u32],
        numbers: &[u32],
    ) -> Result<Graph, AllocError> {
        let mut priorities = Vec::with_capacity(alloc, vertices.len())?;
        let mut rows = Vec::with_capacity(alloc, vertices.len().saturating_add(1))?;
        let mut successors = Vec::new(alloc);
        for v in vertices {
            priorities.push(self.priority(*v))?;
            rows.push(count(successors.len()).saturating_mul(2) | self.owner(*v))?;
            for w in self.successors(*v) {
                let number = at(numbers, *w);
                if number != NONE {
                    successors.push(number)?;
                }
            }
        }
        rows.push(row_of(count(successors.len()), Player::Even))?;
        Graph::of_rows(alloc, priorities, rows, successors)
    }

    fn of_rows(
        alloc: Global,
        priorities: Vec<u32>,
        rows: Vec<u32>,
        successors: Vec<u32>,
    ) -> Result<Graph, AllocError> {
        let mut graph = Graph {
            priorities,
            rows,
            successors,
            predecessors: TargetRows::with_capacity(alloc, 0)?,
            loops: Vec::new(alloc),
        };
        graph.take_loops()?;
        graph.find_predecessors()?;
        Ok(graph)
    }

    /// Notes which vertices lead to themselves, and removes such edges that harm their owner where another edge is left.
    fn take_loops(&mut self) -> Result<(), AllocError> {
        for v in 0..self.len() {
            let row = self.successors(v);
            if !row.contains(&v) {
                continue;
            }
            let other = row.iter().copied().find(|w| *w != v);
            self.loops.push(v)?;
            if self.owner(v) != self.priority(v) % 2
                && let Some(other) = other
            {
                self.lead_elsewhere(v, other);
            }
        }
        Ok(())
    }

    /// Redirects the edges from a vertex to itself to another vertex.
    fn lead_elsewhere(&mut self, v: u32, other: u32) {
        let (from, to) = (self.row(v), self.row(v.saturating_add(1)));
        for place in from..to {
            if at(&self.successors, place) == v {
                put(&mut self.successors, place, other);
            }
        }
    }

    fn find_predecessors(&mut self) -> Result<(), AllocError> {
        let all = self.len();
        self.predecessors.clear(all)?;
        for w in &self.successors {
            self.predecessors.count(*w);
        }
        self.predecessors.make_room()?;
        let middle = if self.is_scattered() { all / 2 } else { 0 };
        self.put_predecessors(middle, all);
        self.put_predecessors(0, middle);
        Ok(())
    }

    /// Puts the predecessors of the vertices in `from..to` into their rows.
    fn put_predecessors(&mut self, from: u32, to: u32) {
        if from == to {
            return;
        }
        for v in (0..self.len()).rev() {
            for edge in self.row(v)..self.row(v.saturating_add(1)) {
                let w = at(&self.successors, edge);
                if (from..to).contains(&w) {
                    self.predecessors.put(w, v);
                }
            }
        }
    }

    /// Whether the graph is large and most of its edges lead far in memory. Then the rows of predecessors are filled half by half,
    /// since the processor keeps track of only a limited number of pages of memory at once.
    fn is_scattered(&self) -> bool {
        let sampled = self.len() / SAMPLE;
        let (mut edges, mut far) = (0usize, 0usize);
        for number in 0..sampled {
            let v = number.saturating_mul(SAMPLE);
            let row = self.successors(v);
            edges = edges.saturating_add(row.len());
            far = far.saturating_add(row.iter().filter(|w| v.abs_diff(**w) >= FAR).count());
        }
        self.len() >= LARGE && far > edges / 2
    }

    /// Returns where the row of a vertex begins.
    #[inline(always)]
    fn row(&self, v: u32) -> u32 {
        at(&self.rows, v) / 2
    }

    /// Returns the number of vertices.
    #[inline(always)]
    pub fn len(&self) -> u32 {
        count(self.priorities.len())
    }

    /// Returns the priorities of all vertices.
    pub(crate) fn priorities(&self) -> &[u32] {
        &self.priorities
    }

    /// Returns the priorities of all vertices, and frees the rest of the graph.
    pub fn into_priorities(self) -> Vec<u32> {
        let Graph { priorities, .. } = self;
        priorities
    }

    /// Returns the number of edges.
    pub fn edges(&self) -> u32 {
        count(self.successors.len())
    }

    /// Returns the priority of a vertex, or `NONE` past the last vertex.
    #[inline(always)]
    pub fn priority(&self, v: u32) -> u32 {
        at(&self.priorities, v)
    }

    /// Numbers the priorities of a part without gaps, from 0 or 1 on. The part is given by rising priority; neighbours whose
    /// priorities have one parity get one number. Returns the number after the last one.
    pub(crate) fn compress(&self, part: &[u32], numbers: &mut [u32]) -> u32 {
        let mut number = 0u32;
        for v in part {
            if self.priority(*v) % 2 != number % 2 {
                number = number.saturating_add(1);
            }
            put(numbers, *v, number);
        }
        number.saturating_add(1)
    }

    /// Returns the owner of a vertex: 0 is Even, 1 is Odd.
    #[inline(always)]
    pub fn owner(&self, v: u32) -> u32 {
        at(&self.rows, v) % 2
    }

    /// Returns the successors of a vertex.
    #[inline(always)]
    pub fn successors(&self, v: u32) -> &[u32] {
        between(&self.successors, self.row(v), self.row(v.saturating_add(1)))
    }

    /// Returns the predecessors of a vertex, each as often as it has edges to the vertex.
    #[inline(always)]
    pub fn predecessors(&self, v: u32) -> &[u32] {
        self.predecessors.targets(v)
    }

    /// Returns the vertices that had an edge to themselves.
    pub fn loops(&self) -> &[u32] {
        &self.loops
    }
}
