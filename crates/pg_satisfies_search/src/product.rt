//! The part of the product of a circuit and a tableau that is reached from the start.

use crate::bits::{Bits, LetterCube};
use crate::budget::{Limits, SearchLimit, SearchResult, SearchStop};
use crate::numbers::{NodeSpan, count, item};
use crate::pieces::CircuitPieces;
use crate::tableau::{CubeTableau, Move};
use indexmap::IndexSet;
use std::alloc::Global;

/// A state of the circuit, and a set of the tableau.
#[derive(Clone, Copy, PartialEq, Eq, Hash)]
pub struct ProductNode {
    pub state: u32,
    pub set: u32,
}

/// An edge: its target, the number of the set of Untils that it puts off, and the numbers of the piece and the move that it is made of.
#[derive(Clone, Copy)]
pub struct ProductArc {
    pub to: u32,
    pub puts: u32,
    piece: u32,
    step: u32,
}

#[derive(Drop)]
pub struct CircuitProduct {
    pub alloc: Global,
    pub tableau: CubeTableau,
    /// The first node is the start.
    pub nodes: IndexSet<ProductNode>,
    arcs: Vec<ProductArc>,
    /// The arcs of each node.
    spans: Vec<NodeSpan>,
}

impl CircuitProduct {
    /// Makes a product that has only the start.
    pub fn new(alloc: Global, tableau: CubeTableau) -> SearchResult<CircuitProduct> {
        let mut nodes = IndexSet::new(alloc);
        let _ = nodes.insert_full(ProductNode { state: 0, set: 0 })?;
        Ok(CircuitProduct {
            alloc,
            tableau,
            nodes,
            arcs: Vec::new(alloc),
            spans: Vec::new(alloc),
        })
    }

    /// Goes on from the nodes up to the one with the number `end`. Returns whether all that is reached from the start was added.
    pub fn explore(
        &mut self,
        circuit: &mut CircuitPieces,
        end: u32,
        limits: &mut Limits,
    ) -> SearchResult<bool> {
        for v in self.len()..end {
            let Some(node) = self.nodes.get_index(v as usize).copied() else {
                return Ok(true);
            };
            self.expand(circuit, node, limits)?;
            if count(self.nodes.len()) > limits.nodes {
                return Err(SearchStop::GivenUp(SearchLimit::Nodes));
            }
        }
        Ok(self.nodes.len() <= end as usize)
    }

    /// Appends the arcs of a node. Nodes must be expanded in order.
    fn expand(
        &mut self,
        circuit: &mut CircuitPieces,
        node: ProductNode,
        limits: &mut Limits,
    ) -> SearchResult<()> {
        let mut found = Vec::new(self.alloc);
        let pieces = circuit.of(node.state, limits)?;
        for place in pieces.from..pieces.to {
            let piece = circuit.piece(place);
            let moves = self.tableau.moves_of(node.set, piece.cube, limits)?;
            for step in moves.from..moves.to {
                let Move { set, puts, .. } = self.tableau.step(step);
                let state = piece.next;
                let (to, _) = self.nodes.insert_full(ProductNode { state, set })?;
                found.push((count(to), puts, place, step))?;
            }
        }
        limits.spend(found.len().saturating_mul(32).saturating_add(1))?;
        found.sort_unstable();
        self.append(&found)
    }

    /// Appends the arcs of a node, which are sorted: one for each target and set of Untils.
    fn append(&mut self, found: &[(u32, u32, u32, u32)]) -> SearchResult<()> {
        let from = count(self.arcs.len());
        let mut last = None;
        for (to, puts, piece, step) in found {
            if last != Some((*to, *puts)) {
                last = Some((*to, *puts));
                self.arcs.push(ProductArc {
                    to: *to,
                    puts: *puts,
                    piece: *piece,
                    step: *step,
                })?;
            }
        }
        let to = count(self.arcs.len());
        self.spans.push(NodeSpan { from, to })?;
        Ok(())
    }

    /// Returns the number of nodes from which the product goes on.
    pub fn len(&self) -> u32 {
        count(self.spans.len())
    }

    /// Returns the number of edges.
    pub fn edges(&self) -> usize {
        self.arcs.len()
    }

    /// Returns a node.
    pub fn node(&self, v: u32) -> ProductNode {
        match self.nodes.get_index(v as usize) {
            Some(node) => *node,
            None => ProductNode { state: 0, set: 0 },
        }
    }

    /// Returns the arcs of a node.
    pub fn arcs(&self, v: u32) -> &[ProductArc] {
        item(&self.spans, v, NodeSpan::EMPTY).of(&self.arcs)
    }

    /// Returns the Untils that an arc puts off.
    pub fn put_off(&self, arc: &ProductArc) -> Bits {
        self.tableau.put_off(arc.puts)
    }

    /// Returns what signals have to be in a letter by which an arc goes.
    pub fn letter(&self, circuit: &CircuitPieces, arc: &ProductArc) -> LetterCube {
        let piece = circuit.piece(arc.piece);
        piece.cube.and(self.tableau.step(arc.step).sample)
    }
}
