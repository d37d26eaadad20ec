//! Ways in a product, and the lasso made of them.

use crate::bits::{Bits, LetterCube, ROOM};
use crate::numbers::{count, item, put};
use crate::pieces::CircuitPieces;
use crate::product::{CircuitProduct, ProductArc};
use crate::ranks::ProductRanks;
use std::alloc::AllocError;

/// Letters one after another; after the last one, the letter at the place `back` comes again. A letter has a value for each input.
#[derive(Debug, Drop)]
pub struct InputLasso {
    pub letters: Vec<Vec<bool>>,
    pub back: usize,
}

/// The arc with which a way must end.
#[derive(Clone, Copy)]
enum EdgeCondition {
    /// An arc that leads to this node.
    To(u32),
    /// Any arc.
    Any,
    /// An arc that doesn't put off this Until.
    Without(u32),
}

/// Letters of a lasso that have no value for inputs on which nothing depends.
#[derive(Drop)]
pub struct OpenLasso {
    pub letters: Vec<Vec<Option<bool>>>,
    pub back: usize,
}

/// A way through a product: what signals have to be in each of its letters, where it is, and the Untils that every arc so far puts off.
#[derive(Drop)]
struct ProductWay<'a> {
    circuit: &'a CircuitPieces,
    product: &'a CircuitProduct,
    ranks: &'a ProductRanks,
    /// The component in which the way has to stay, if there is one.
    inside: Option<u32>,
    letters: Vec<LetterCube>,
    at: u32,
    common: Bits,
}

impl ProductWay<'_> {
    fn is_wanted(&self, arc: &ProductArc, wanted: EdgeCondition) -> bool {
        match wanted {
            EdgeCondition::To(v) => arc.to == v,
            EdgeCondition::Any => true,
            EdgeCondition::Without(until) => !self.product.put_off(arc).has(until),
        }
    }

    /// Whether the way may go along an arc.
    fn is_open(&self, arc: &ProductArc) -> bool {
        match self.inside {
            Some(component) => self.ranks.of(arc.to) == component,
            None => true,
        }
    }

    /// Goes on by a shortest way to a wanted arc, that arc included. Stays if there is none.
    fn go(&mut self, wanted: EdgeCondition) -> Result<(), AllocError> {
        let alloc = self.product.alloc;
        let mut from: Vec<Option<(u32, ProductArc)>> = vec![in alloc; None; self
            .product
            .len() as usize]?;
        let mut queue = Vec::new(alloc);
        queue.push(self.at)?;
        for turn in 0..self.product.len() {
            let Some(v) = queue.get(turn as usize).copied() else {
                break;
            };
            for arc in self.product.arcs(v) {
                if !self.is_open(arc) {
                    continue;
                }
                if self.is_wanted(arc, wanted) {
                    return self.follow(&from, v, *arc);
                }
                if arc.to != self.at && item(&from, arc.to, None).is_none() {
                    put(&mut from, arc.to, Some((v, *arc)));
                    queue.push(arc.to)?;
                }
            }
        }
        Ok(())
    }

    /// Follows the arcs by which the node `v` was reached, and then a last one.
    fn follow(
        &mut self,
        from: &[Option<(u32, ProductArc)>],
        v: u32,
        last: ProductArc,
    ) -> Result<(), AllocError> {
        let mut way = Vec::new(self.product.alloc);
        way.push(last)?;
        let mut at = v;
        for _ in 0..from.len() {
            if at == self.at {
                break;
            }
            let Some((before, arc)) = item(from, at, None) else {
                break;
            };
            way.push(arc)?;
            at = before;
        }
        for arc in way.iter().rev() {
            self.common = self.common.and(self.product.put_off(arc));
            self.letters.push(self.product.letter(self.circuit, arc))?;
        }
        self.at = last.to;
        Ok(())
    }

    /// Goes round in the component until no Until is put off by every arc.
    fn go_round(&mut self) -> Result<(), AllocError> {
        let root = self.at;
        self.common = Bits::below(ROOM);
        self.go(EdgeCondition::Any)?;
        for _ in 0..ROOM {
            let Some(until) = self.common.first() else {
                break;
            };
            self.go(EdgeCondition::Without(until))?;
        }
        if self.at != root {
            self.go(EdgeCondition::To(root))?;
        }
        Ok(())
    }

    /// Returns the letters as values of the inputs with these literals, as far as they matter.
    fn rows(&self, inputs: &[u32]) -> Result<Vec<Vec<Option<bool>>>, AllocError> {
        let alloc = self.product.alloc;
        let circuit = self.circuit;
        let mut rows = Vec::with_capacity(alloc, self.letters.len())?;
        for letter in &self.letters {
            let mut row = Vec::with_capacity(alloc, inputs.len())?;
            for literal in inputs {
                let signal = circuit.machine.signals.of(*literal / 2);
                let is_known = letter.known.has(signal);
                row.push(if is_known {
                    Some(letter.on.has(signal))
                } else {
                    None
                })?;
            }
            rows.push(row)?;
        }
        Ok(rows)
    }
}

/// Returns the first node of a component.
fn root_of(ranks: &ProductRanks, component: u32) -> u32 {
    for v in 0..count(ranks.ranks.len()) {
        if ranks.of(v) == component {
            return v;
        }
    }
    0
}

/// Returns a lasso that goes round in a component, on which no Until is put off by every arc.
pub fn lasso_of<'a>(
    circuit: &'a CircuitPieces,
    product: &'a CircuitProduct,
    ranks: &'a ProductRanks,
    component: u32,
    inputs: &[u32],
) -> Result<OpenLasso, AllocError> {
    let root = root_of(ranks, component);
    let mut way = ProductWay {
        circuit,
        product,
        ranks,
        inside: None,
        letters: Vec::new(product.alloc),
        at: 0,
        common: Bits::EMPTY,
    };
    if root != 0 {
        way.go(EdgeCondition::To(root))?;
    }
    let back = way.letters.len();
    way.inside = Some(component);
    way.go_round()?;
    Ok(OpenLasso {
        letters: way.rows(inputs)?,
        back,
    })
}
