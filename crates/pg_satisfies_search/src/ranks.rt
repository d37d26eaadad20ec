//! ProductRanks of the nodes of a product: their strongly connected components.

use crate::bits::Bits;
use crate::numbers::{NONE, item, put};
use crate::product::CircuitProduct;
use pg_search_components::{Components, TargetRows};
use std::alloc::AllocError;

/// The component of each node. No edge leads to a component with a greater number.
#[derive(Drop)]
pub struct ProductRanks {
    pub ranks: Vec<u32>,
    /// For each component the Untils that each edge inside it puts off, or `None` if it has no edge inside.
    pub common: Vec<Option<Bits>>,
}

/// Returns the ranks of a product's nodes.
pub fn ranks_of(product: &CircuitProduct) -> Result<ProductRanks, AllocError> {
    let alloc = product.alloc;
    let mut rows = TargetRows::with_capacity(alloc, product.len() as usize)?;
    let mut all = Vec::with_capacity(alloc, product.len() as usize)?;
    for v in 0..product.len() {
        for arc in product.arcs(v) {
            if arc.to < product.len() {
                rows.push(arc.to)?;
            }
        }
        rows.end()?;
        all.push(v)?;
    }
    let mut components = Components::new(alloc);
    components.search(&rows, &all, product.len())?;
    let mut ranks = vec![in alloc; NONE; all.len()]?;
    for number in 0..components.len() {
        for v in components.component(number) {
            put(&mut ranks, *v, number);
        }
    }
    let mut found = ProductRanks {
        ranks,
        common: vec![in alloc; None; components.len() as usize]?,
    };
    found.gather(product);
    Ok(found)
}

impl ProductRanks {
    /// Returns the component of a node.
    #[inline(always)]
    pub fn of(&self, v: u32) -> u32 {
        item(&self.ranks, v, NONE)
    }

    /// Returns the number of an Until that each edge inside a component puts off.
    pub fn witness(&self, component: u32) -> Option<u32> {
        item(&self.common, component, None)?.first()
    }

    /// Gathers the Untils that each edge inside a component puts off.
    fn gather(&mut self, product: &CircuitProduct) {
        for v in 0..product.len() {
            let rank = self.of(v);
            for arc in product.arcs(v) {
                if self.of(arc.to) == rank {
                    let puts = product.put_off(arc);
                    let common = match item(&self.common, rank, None) {
                        Some(before) => puts.and(before),
                        None => puts,
                    };
                    put(&mut self.common, rank, Some(common));
                }
            }
        }
    }

    /// Returns a component that has edges inside, and no Until that all of them put off.
    pub fn fulfilling(&self) -> Option<u32> {
        let mut number = 0u32;
        for common in &self.common {
            if *common == Some(Bits::EMPTY) {
                return Some(number);
            }
            number = number.wrapping_add(1);
        }
        None
    }
}
