//! Formulas that others of their set imply. They make no difference, and without them there are fewer sets.

use pg_ltl::NormalNode;
use std::alloc::{AllocError, Global};

/// For each formula of a list, the places of formulas that imply it.
#[derive(Drop)]
pub struct Implications {
    by: Vec<Vec<usize>>,
}

/// Notes that one formula is implied by another.
fn note(by: &mut Vec<Vec<usize>>, implied: usize, other: usize) -> Result<(), AllocError> {
    if implied < by.len() {
        by[implied].push(other)?;
    }
    Ok(())
}

impl Implications {
    /// Notes which formulas of the list imply which others. Fails only if an allocation fails.
    pub fn new(alloc: Global, nodes: &[NormalNode]) -> Result<Implications, AllocError> {
        let mut by = Vec::with_capacity(alloc, nodes.len())?;
        for (place, node) in nodes.iter().enumerate() {
            by.push(Vec::new(alloc))?;
            match *node {
                NormalNode::Release(_, b) => note(&mut by, b, place)?,
                NormalNode::Until(_, b) => note(&mut by, place, b)?,
                NormalNode::Both(a, b) => {
                    note(&mut by, a, place)?;
                    note(&mut by, b, place)?;
                }
                NormalNode::Either(a, b) => {
                    note(&mut by, place, a)?;
                    note(&mut by, place, b)?;
                }
                _ => (),
            }
        }
        Ok(Implications { by })
    }

    /// Whether some other formula of the set, a rising list, implies this one.
    fn is_implied(&self, set: &[usize], place: usize) -> bool {
        let Some(by) = self.by.get(place) else {
            return false;
        };
        for other in by {
            if *other != place && set.binary_search(other).is_ok() {
                return true;
            }
        }
        false
    }

    /// Returns the set, a rising list, without the formulas that others of the set imply.
    pub fn least(&self, alloc: Global, set: &[usize]) -> Result<Vec<usize>, AllocError> {
        let mut least = Vec::with_capacity(alloc, set.len())?;
        for place in set {
            if !self.is_implied(set, *place) {
                least.push(*place)?;
            }
        }
        Ok(least)
    }
}
