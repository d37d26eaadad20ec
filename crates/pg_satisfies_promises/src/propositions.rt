//! The propositions that formulas speak of.

use crate::growing::alone;
use crate::marks::Marks;
use pg_ltl::NormalNode;
use std::alloc::{AllocError, Global};
use std::collections::BTreeMap;

/// Returns the propositions that the part at a place of a list speaks of, in rising order, each once. Takes time linear in the length of
/// the list. Fails only if an allocation fails.
pub fn propositions_of(
    alloc: Global,
    nodes: &[NormalNode],
    place: usize,
) -> Result<Vec<u32>, AllocError> {
    let mut found = Vec::new(alloc);
    let mut seen = Marks::new(alloc, nodes.len())?;
    let mut waiting = alone(alloc, place)?;
    // The operands of each part wait once, so these are enough steps.
    for _step in 0..=nodes.len().saturating_mul(2) {
        let Some(place) = waiting.pop() else {
            break;
        };
        if seen.has(place) {
            continue;
        }
        seen.add(place);
        match nodes.get(place).copied() {
            None | Some(NormalNode::Top | NormalNode::Bottom) => {}
            Some(NormalNode::Literal(proposition, _)) => found.push(proposition)?,
            Some(NormalNode::Next(a)) => waiting.push(a)?,
            Some(
                NormalNode::Both(a, b)
                | NormalNode::Either(a, b)
                | NormalNode::Until(a, b)
                | NormalNode::Release(a, b),
            ) => {
                waiting.push(a)?;
                waiting.push(b)?;
            }
        }
    }
    found.sort_unstable();
    found.dedup();
    Ok(found)
}

/// The propositions of parts of a formula, by the places of the parts. Those of each part are found once.
#[derive(Drop)]
pub struct Vocabulary {
    rows: BTreeMap<usize, Vec<u32>>,
}

impl Vocabulary {
    /// Returns the vocabulary of no parts.
    pub fn new(alloc: Global) -> Vocabulary {
        Vocabulary {
            rows: BTreeMap::new(alloc),
        }
    }

    /// Finds the propositions of these parts.
    pub fn learn(
        &mut self,
        alloc: Global,
        nodes: &[NormalNode],
        places: &[usize],
    ) -> Result<(), AllocError> {
        for place in places {
            if !self.rows.contains_key(place) {
                let row = propositions_of(alloc, nodes, *place)?;
                self.rows.insert(*place, row)?;
            }
        }
        Ok(())
    }

    /// Returns the propositions of a part, or none if they weren't found yet.
    pub fn of(&self, place: usize) -> &[u32] {
        match self.rows.get(&place) {
            Some(row) => row.as_slice(),
            None => &[],
        }
    }
}
