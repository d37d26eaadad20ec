//! The strongly connected component of each vertex.

use crate::fault::Attempt;
use crate::numbers::{NONE, at, put};
use pg_search_components::{Components, TargetRows};
use std::alloc::Global;

/// The number of the component of each vertex. It is greater than the numbers of the components that this one leads to.
#[derive(Drop)]
pub struct ComponentRanks {
    of: Vec<u32>,
    pub many: u32,
}

impl ComponentRanks {
    /// Finds the components of the vertices below `vertices`.
    pub fn new(alloc: Global, rows: &TargetRows, vertices: u32) -> Attempt<ComponentRanks> {
        let mut all = Vec::with_capacity(alloc, vertices as usize)?;
        for v in 0..vertices {
            all.push(v)?;
        }
        let mut components = Components::new(alloc);
        components.search(rows, &all, vertices)?;
        let mut of = vec![in alloc; NONE; vertices as usize]?;
        for number in 0..components.len() {
            for v in components.component(number) {
                put(&mut of, *v, number);
            }
        }
        Ok(ComponentRanks {
            of,
            many: components.len(),
        })
    }

    pub fn of(&self, v: u32) -> u32 {
        at(&self.of, v)
    }

    /// Returns the vertices in ascending order of the numbers of their components.
    pub fn order(&self, alloc: Global) -> Attempt<Vec<u32>> {
        let mut pairs = Vec::new(alloc);
        let mut v = 0u32;
        for rank in &self.of {
            pairs.push((*rank, v))?;
            v = v.wrapping_add(1);
        }
        pairs.sort_unstable();
        let mut order = Vec::new(alloc);
        for (_, v) in &pairs {
            order.push(*v)?;
        }
        Ok(order)
    }
}
