//! Ways in a product, and the lassos made of them.

use crate::graph::is_inside;
use crate::product::{Arc, Product};
use pg_search_components::NONE;
use std::alloc::{AllocError, Global};

/// Letters one after another; after the last one, the letter at the place `back` comes again.
#[derive(Debug, Drop)]
pub struct Lasso {
    pub letters: Vec<u32>,
    pub back: usize,
}

/// The arc with which a way must end.
#[derive(Clone, Copy)]
enum Wanted {
    /// An arc that leads to this node.
    To(u32),
    /// An arc of this priority.
    Priority(u32),
    /// An arc that doesn't put off this Until.
    Without(usize),
}

/// The arcs of at most this priority that stay inside a component.
#[derive(Clone, Copy)]
struct InnerArcs<'a, 'b> {
    product: &'a Product,
    ranks: &'b [u32],
    priority: u32,
}

fn is_wanted(product: &Product, arc: &Arc, wanted: Wanted) -> bool {
    match wanted {
        Wanted::To(v) => arc.to == v,
        Wanted::Priority(priority) => arc.priority == priority,
        Wanted::Without(until) => !product.puts.list(arc.puts).contains(&until),
    }
}

/// How a node was reached: from which node, by which arc.
#[derive(Clone, Copy)]
struct ArcStep {
    from: u32,
    arc: Arc,
}

impl InnerArcs<'_, '_> {
    /// Returns a shortest way from a node to a wanted arc, that arc included. The way is empty if there is none.
    fn way(&self, alloc: Global, from: u32, wanted: Wanted) -> Result<Vec<Arc>, AllocError> {
        let mut steps: Vec<Option<ArcStep>> = vec![in alloc; None; self.product.len()]?;
        let mut queue = Vec::new(alloc);
        queue.push(from)?;
        for turn in 0..self.product.len() {
            let Some(v) = queue.get(turn).copied() else {
                break;
            };
            for arc in self.product.arcs(v as usize) {
                if !is_inside(self.ranks, v as usize, arc, self.priority) {
                    continue;
                }
                if is_wanted(self.product, arc, wanted) {
                    return way_back(alloc, &steps, from, v, *arc);
                }
                let to = arc.to as usize;
                if arc.to != from && to < steps.len() && steps[to].is_none() {
                    steps[to] = Some(ArcStep { from: v, arc: *arc });
                    queue.push(arc.to)?;
                }
            }
        }
        Ok(Vec::new(alloc))
    }
}

/// Returns the arcs by which the node `to` was reached from `from`, followed by a last arc.
fn way_back(
    alloc: Global,
    steps: &[Option<ArcStep>],
    from: u32,
    to: u32,
    last: Arc,
) -> Result<Vec<Arc>, AllocError> {
    let mut way = Vec::new(alloc);
    way.push(last)?;
    let mut v = to;
    for _ in 0..steps.len() {
        if v == from {
            break;
        }
        let Some(Some(step)) = steps.get(v as usize).copied() else {
            break;
        };
        way.push(step.arc)?;
        v = step.from;
    }
    way.reverse();
    Ok(way)
}

/// Returns the places that both lists have.
pub fn common_places(alloc: Global, a: &[usize], b: &[usize]) -> Result<Vec<usize>, AllocError> {
    let mut common = Vec::new(alloc);
    for place in a {
        if b.contains(place) {
            common.push(*place)?;
        }
    }
    Ok(common)
}

/// A way round in a component. `common` has the Untils that every arc so far puts off.
#[derive(Drop)]
struct Round {
    letters: Vec<u32>,
    at: u32,
    common: Option<Vec<usize>>,
}

impl Round {
    /// Follows a way.
    fn go(&mut self, alloc: Global, product: &Product, way: &[Arc]) -> Result<(), AllocError> {
        for arc in way {
            let puts = product.puts.list(arc.puts);
            let common = match &self.common {
                Some(common) => common_places(alloc, common, puts)?,
                None => Vec::from_slice(alloc, puts)?,
            };
            self.common = Some(common);
            self.letters.push(arc.letter)?;
            self.at = arc.to;
        }
        Ok(())
    }

    /// Returns an Until that every arc so far puts off, if there is one.
    fn put_off(&self) -> Option<usize> {
        match &self.common {
            Some(common) => common.first().copied(),
            None => None,
        }
    }
}

/// Returns a lasso that goes round in a component by arcs of at most this priority, on which this priority is met and no Until is put off
/// by every arc.
pub fn lasso_of(
    alloc: Global,
    product: &Product,
    ranks: &[u32],
    component: u32,
    priority: u32,
    formulas: usize,
) -> Result<Lasso, AllocError> {
    let root = root_of(ranks, component);
    let all = vec![in alloc; 0; ranks.len()]?;
    let anywhere = InnerArcs {
        product,
        ranks: &all,
        priority: u32::MAX,
    };
    let inside = InnerArcs {
        product,
        ranks,
        priority,
    };
    let mut round = Round {
        letters: Vec::new(alloc),
        at: 0,
        common: None,
    };
    if root != 0 {
        round.go(alloc, product, &anywhere.way(alloc, 0, Wanted::To(root))?)?;
    }
    let back = round.letters.len();
    round.common = None;
    let at = round.at;
    round.go(
        alloc,
        product,
        &inside.way(alloc, at, Wanted::Priority(priority))?,
    )?;
    for _ in 0..formulas {
        let Some(until) = round.put_off() else {
            break;
        };
        let at = round.at;
        round.go(
            alloc,
            product,
            &inside.way(alloc, at, Wanted::Without(until))?,
        )?;
    }
    let at = round.at;
    if at != root {
        round.go(alloc, product, &inside.way(alloc, at, Wanted::To(root))?)?;
    }
    Ok(Lasso {
        letters: round.letters,
        back,
    })
}

/// Returns the first node of a component.
fn root_of(ranks: &[u32], component: u32) -> u32 {
    for (v, rank) in ranks.iter().enumerate() {
        if *rank == component {
            return v.min(NONE as usize) as u32;
        }
    }
    0
}
