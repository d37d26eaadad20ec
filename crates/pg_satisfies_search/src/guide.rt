//! Guides the check of a certificate that the search proposed.

use crate::bits::Bits;
use crate::machine::{CircuitMachine, STATE_WORDS};
use crate::numbers::{NONE, NodeSpan, count, item, put};
use crate::pieces::CircuitPieces;
use crate::product::{CircuitProduct, ProductNode};
use crate::ranks::ProductRanks;
use pg_ltl::NormalNode;
use pg_satisfies_check::Guide;
use std::alloc::AllocError;

/// A product without a run that satisfies the formula. The certificate's nodes are the product's.
#[derive(Drop)]
pub struct EmptyProduct {
    product: CircuitProduct,
    ranks: ProductRanks,
    /// The nodes, those of one state one after another.
    order: Vec<u32>,
    /// Where in this order the nodes of each state are.
    spans: Vec<NodeSpan>,
}

impl EmptyProduct {
    /// Sorts the nodes of a product by their states, of which there are `states`.
    pub(crate) fn new(
        product: CircuitProduct,
        ranks: ProductRanks,
        states: u32,
    ) -> Result<EmptyProduct, AllocError> {
        let alloc = product.alloc;
        let mut pairs = Vec::with_capacity(alloc, product.len() as usize)?;
        for v in 0..product.len() {
            pairs.push((product.node(v).state, v))?;
        }
        pairs.sort_unstable();
        let mut order = Vec::with_capacity(alloc, pairs.len())?;
        let mut spans = vec![in alloc; NodeSpan::EMPTY; states as usize]?;
        for (state, v) in &pairs {
            let place = count(order.len());
            let span = item(&spans, *state, NodeSpan::EMPTY);
            let from = if span == NodeSpan::EMPTY {
                place
            } else {
                span.from
            };
            let to = place.saturating_add(1);
            put(&mut spans, *state, NodeSpan { from, to });
            order.push(*v)?;
        }
        Ok(EmptyProduct {
            product,
            ranks,
            order,
            spans,
        })
    }

    /// Returns the number of edges.
    pub fn edges(&self) -> usize {
        self.product.edges()
    }

    /// Returns a guide through the check of the certificate.
    pub fn guide<'a>(&'a self, circuit: &'a CircuitPieces) -> SearchGuide<'a> {
        SearchGuide {
            circuit,
            found: self,
        }
    }

    /// Returns the set of the formulas at these places.
    fn set(&self, places: &[usize]) -> Bits {
        let mut set = Bits::EMPTY;
        let formulas = &self.product.tableau.formulas;
        for place in places {
            set = set.or(formulas.bits(formulas.position(*place)));
        }
        set
    }

    /// Whether an edge from one node to another that puts off these Untils is consistent with the ranks.
    fn is_fine(&self, from: u32, puts: Bits, to: u32) -> bool {
        let rank = self.ranks.of(from);
        let next = self.ranks.of(to);
        let witness = self.ranks.witness(rank).unwrap_or(NONE);
        next < rank || next == rank && puts.has(witness)
    }

    /// Returns the node of a state that asks for exactly the least set of these formulas.
    fn exact(&self, state: u32, asks: Bits) -> Option<u32> {
        let tableau = &self.product.tableau;
        let least = tableau.formulas.least(asks);
        let set = count(tableau.sets.get_index_of(&least)?);
        let node = self
            .product
            .nodes
            .get_index_of(&ProductNode { state, set })?;
        Some(count(node))
    }

    /// Returns a node of a state that asks for no more, and to which an edge from `v` that puts off these Untils is consistent with the
    /// ranks.
    fn served(&self, v: u32, state: u32, asks: Bits, puts: Bits) -> Option<u32> {
        if let Some(exact) = self.exact(state, asks)
            && self.is_fine(v, puts, exact)
        {
            return Some(exact);
        }
        for node in item(&self.spans, state, NodeSpan::EMPTY).of(&self.order) {
            let set = self.product.node(*node).set;
            if self.product.tableau.asks(set).is_within(asks) && self.is_fine(v, puts, *node) {
                return Some(*node);
            }
        }
        None
    }
}

/// Guides the check of the certificate that an empty product makes.
#[derive(Clone, Copy)]
pub struct SearchGuide<'a> {
    circuit: &'a CircuitPieces,
    found: &'a EmptyProduct,
}

impl<'a> SearchGuide<'a> {
    /// Returns the circuit, whose cubes are those of the certificate.
    pub fn circuit(&self) -> &'a CircuitPieces {
        self.circuit
    }

    fn machine(&self) -> &'a CircuitMachine {
        let circuit = self.circuit;
        &circuit.machine
    }

    /// Returns the number of the next state, if all is known of it and it was reached.
    fn next_state(&self, row: &[Option<bool>]) -> Option<u32> {
        let machine = self.machine();
        let mut words = [0u64; STATE_WORDS];
        for latch in 0..count(machine.system.latches.len()) {
            if item(row, item(&machine.places, latch, NONE), None)? {
                let word = item(&words, latch / 64, 0);
                put(&mut words, latch / 64, word | 1u64.wrapping_shl(latch));
            }
        }
        let many = machine.state_words().min(STATE_WORDS);
        machine.find(&words[..many])
    }

    /// Whether one of the choices of the formula at a position asks for nothing and is possible where this is known.
    fn is_free(&self, row: &[Option<bool>], position: usize) -> bool {
        let found = self.found;
        match found.product.tableau.formulas.node_below(position) {
            NormalNode::Top => true,
            NormalNode::Bottom | NormalNode::Next(_) => false,
            NormalNode::Literal(p, value) => {
                let column = self.machine().latches.saturating_add(p);
                let formulas = &found.product.tableau.formulas;
                match item(row, column, None) {
                    Some(known) => known == value,
                    None => formulas.is_pure(formulas.literal(p, value)),
                }
            }
            NormalNode::Both(a, b) | NormalNode::Release(a, b) => {
                self.is_free(row, a) && self.is_free(row, b)
            }
            NormalNode::Either(a, b) => self.is_free(row, a) || self.is_free(row, b),
            NormalNode::Until(_, b) => self.is_free(row, b),
        }
    }
}

impl Guide for SearchGuide<'_> {
    fn leaves_out(&self, row: &[Option<bool>], place: usize) -> bool {
        let found = self.found;
        let position = found.product.tableau.formulas.position(place);
        self.is_free(row, position)
    }

    fn find(&self, v: usize, row: &[Option<bool>], asks: &[usize], puts: &[usize]) -> usize {
        let Some(state) = self.next_state(row) else {
            return usize::MAX;
        };
        let found = self.found;
        match found.served(count(v), state, found.set(asks), found.set(puts)) {
            Some(node) => node as usize,
            None => usize::MAX,
        }
    }
}
