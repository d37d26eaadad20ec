//! A lesser game with the same least rows.
//!
//! A vertex that leads to one vertex alone often counts for nothing where it is reached: its priority is less than that of the vertex
//! before it, or its priority is the winner's and no greater than that of the vertex after it. Then an edge to it passes it, and leads to
//! the vertex after it. So nothing leads to most of these vertices any more. Such vertices are taken out, one after another: their rows
//! follow from the rows of the vertices that they lead to.

use crate::proposal::most_looks;
use pg_arena::Player;
use pg_search_components::{Edges, NONE, TargetRows, at, count, put};
use pg_search_rows::Side;
use pg_search_winners::Graph;
use std::alloc::{AllocError, Global};

/// The most vertices that an edge may pass.
const FAR: u32 = 16;

#[derive(Drop)]
pub(crate) struct Reduced {
    pub graph: Graph,
    /// What the winner chooses at each vertex of its own.
    choices: Vec<u32>,
    /// The vertex of the whole side for each vertex that is left.
    vertices: Vec<u32>,
    /// Where each vertex of the whole side leads, once edges pass vertices.
    edges: TargetRows,
    /// The vertices that were taken out, in order.
    out: Vec<u32>,
}

impl Reduced {
    /// Returns the lesser game of a side.
    pub fn of(alloc: Global, side: &Side) -> Result<Reduced, AllocError> {
        let edges = edges_of(alloc, side)?;
        let mut degrees = vec![in alloc; 0; side.len() as usize]?;
        for w in edges.all() {
            let degree = at(&degrees, *w).wrapping_add(1);
            put(&mut degrees, *w, degree);
        }
        let out = take_out(alloc, &edges, &mut degrees)?;
        let mut numbers = vec![in alloc; NONE; side.len() as usize]?;
        let mut vertices = Vec::new(alloc);
        let mut choices = Vec::new(alloc);
        for v in 0..side.len() {
            if at(&degrees, v) > 0 {
                put(&mut numbers, v, count(vertices.len()));
                vertices.push(v)?;
                choices.push(pass(side, v, side.state(v).to))?;
            }
        }
        for choice in choices.iter_mut() {
            *choice = at(&numbers, *choice);
        }
        Ok(Reduced {
            graph: draw(alloc, side.graph, &edges, &vertices, &numbers)?,
            choices,
            vertices,
            edges,
            out,
        })
    }

    /// Whether the lesser game has so few vertices that it saves time.
    pub fn is_small(&self, whole: &Side) -> bool {
        self.graph.len() / 3 < whole.len() / 4
    }

    /// Returns the side of the lesser game, with zeros everywhere.
    pub fn side(&self, alloc: Global, whole: &Side) -> Result<Side<'_>, AllocError> {
        let most = most_looks(&self.graph);
        Side::new(alloc, &self.graph, whole.player, &self.choices, most)
    }

    /// Gives the whole side the least rows, from the rows of the lesser side.
    pub fn extend(&self, lesser: Side, whole: &mut Side) -> Result<(), AllocError> {
        for (number, v) in self.vertices.iter().enumerate() {
            whole.set_row(*v, lesser.row(count(number)));
        }
        let Side { rows, .. } = lesser;
        whole.rows = rows;
        for v in self.out.iter().rev() {
            self.set_row(whole, *v)?;
        }
        Ok(())
    }

    /// Sets the row of a vertex that was taken out, from the rows of the vertices that it leads to.
    fn set_row(&self, whole: &mut Side, v: u32) -> Result<(), AllocError> {
        let state = whole.state(v);
        let successors = self.edges.targets(v);
        let mut best = whole.row(at(successors, 0));
        for w in successors {
            let row = whole.row(*w);
            let (less, more) = if state.is_mine() {
                (row, best)
            } else {
                (best, row)
            };
            if whole.rows.is_under(less, more) {
                best = row;
            }
        }
        let row = whole.rows.step(best, state.priority())?;
        whole.set_row(v, row);
        Ok(())
    }
}

/// Returns where each vertex leads, once edges pass vertices.
fn edges_of(alloc: Global, side: &Side) -> Result<TargetRows, AllocError> {
    let mut edges = TargetRows::with_capacity(alloc, side.len() as usize)?;
    for v in 0..side.len() {
        let mut last = NONE;
        for w in side.graph.successors(v) {
            let to = pass(side, v, *w);
            if to != last {
                edges.push(to)?;
            }
            last = to;
        }
        edges.end()?;
    }
    Ok(edges)
}

/// Returns where an edge leads, past vertices that count for nothing.
fn pass(side: &Side, v: u32, w: u32) -> u32 {
    let before = side.state(v).priority();
    let mut to = w;
    for _ in 0..FAR {
        let successors = side.graph.successors(to);
        if to == v || successors.len() != 1 {
            break;
        }
        let next = at(successors, 0);
        let priority = side.state(to).priority();
        let most = before.max(side.state(next).priority());
        if priority >= before && (priority % 2 == 1 || priority > most) {
            break;
        }
        to = next;
    }
    to
}

/// Takes out vertices to which nothing leads, one after another. Returns them in order.
fn take_out(
    alloc: Global,
    edges: &TargetRows,
    degrees: &mut [u32],
) -> Result<Vec<u32>, AllocError> {
    let mut out = Vec::new(alloc);
    for v in 0..count(degrees.len()) {
        if at(degrees, v) == 0 {
            out.push(v)?;
        }
    }
    for place in 0..usize::MAX {
        let Some(v) = out.get(place).copied() else {
            break;
        };
        for w in edges.targets(v) {
            let degree = at(degrees, *w).wrapping_sub(1);
            put(degrees, *w, degree);
            if degree == 0 {
                out.push(*w)?;
            }
        }
    }
    Ok(out)
}

/// Returns the graph of some vertices, with the edges among them.
fn draw(
    alloc: Global,
    whole: &Graph,
    edges: &TargetRows,
    vertices: &[u32],
    numbers: &[u32],
) -> Result<Graph, AllocError> {
    let mut priorities = Vec::with_capacity(alloc, vertices.len())?;
    let mut owners = Vec::with_capacity(alloc, vertices.len())?;
    let mut offsets = Vec::with_capacity(alloc, vertices.len())?;
    let mut targets = Vec::new(alloc);
    for v in vertices {
        priorities.push(whole.priority(*v))?;
        owners.push(match whole.owner(*v) {
            0 => Player::Even,
            _ => Player::Odd,
        })?;
        offsets.push(count(targets.len()))?;
        for w in edges.targets(*v) {
            targets.push(at(numbers, *w))?;
        }
    }
    Graph::new(alloc, priorities, &owners, &offsets, targets)
}
