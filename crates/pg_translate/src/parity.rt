//! The product with a memory for the colours, as a parity automaton.

use crate::automaton::{KeyedEdges, MarkedAutomaton, MarkedEdge};
use crate::bdd::{ALWAYS, NEVER};
use crate::components::ComponentRanks;
use crate::cycles::{cycle, holds_on};
use crate::fault::{Attempt, TranslateFault};
use crate::numbers::{MOST_EDGES, NONE, NumberMap, at, item, put};
use crate::product::ColouredProduct;
use crate::skeleton::Skeleton;
use crate::zielonka::{Climb, Condition, Tree};
use pg_search_components::{NumberedLists, TargetRows};
use std::alloc::Global;

/// The product, with the tree of each of its components that has a cycle.
#[derive(Drop)]
struct Remembering<'a> {
    product: &'a ColouredProduct,
    ranks: ComponentRanks,
    trees: Vec<Option<Tree>>,
    /// States with a memory; `entered` has how each is entered.
    entries: NumberedLists<u32>,
    entered: Vec<Climb>,
    /// The states of the parity automaton: states of the product, each with the memory in which it was entered.
    states: NumberedLists<u32>,
}

/// Components that get trees, and what these are made of.
#[derive(Drop)]
struct Planting<'a> {
    product: &'a ColouredProduct,
    ranks: &'a ComponentRanks,
    inner: InnerColours,
    /// The least letter of each class.
    examples: Vec<u32>,
}

/// The colours of the edges inside each component: those that are met on some edge, and those on all.
#[derive(Drop)]
struct InnerColours {
    some: Vec<u32>,
    all: Vec<u32>,
}

/// Finds the components of the product.
fn ranks_of(alloc: Global, product: &ColouredProduct) -> Attempt<ComponentRanks> {
    let mut rows = TargetRows::with_capacity(alloc, product.states.len() as usize)?;
    for state in 0..product.states.len() {
        let mut last = NONE;
        for edge in product.row(state) {
            if edge.target != last {
                rows.push(edge.target)?;
            }
            last = edge.target;
        }
        rows.end()?;
    }
    ComponentRanks::new(alloc, &rows, product.states.len())
}

/// Returns the colours of the edges inside each component.
fn inner_colours(
    alloc: Global,
    product: &ColouredProduct,
    ranks: &ComponentRanks,
) -> Attempt<InnerColours> {
    let mut inner = InnerColours {
        some: vec![in alloc; 0u32; ranks.many as usize]?,
        all: vec![in alloc; u32::MAX; ranks.many as usize]?,
    };
    for state in 0..product.states.len() {
        let rank = ranks.of(state);
        for edge in product.row(state) {
            if ranks.of(edge.target) == rank {
                inner.meet(rank, edge.mark);
            }
        }
    }
    Ok(inner)
}

impl InnerColours {
    /// Notes the colours of an edge inside a component.
    fn meet(&mut self, rank: u32, colours: u32) {
        let some = item(&self.some, rank, 0) | colours;
        let all = item(&self.all, rank, 0) & colours;
        put(&mut self.some, rank, some);
        put(&mut self.all, rank, all);
    }
}

impl Planting<'_> {
    /// Returns the letters of a cycle inside the component of a state, or none if the state is on no cycle.
    fn letters(&self, alloc: Global, state: u32) -> Attempt<Vec<u32>> {
        let mut letters = cycle(alloc, self.product, self.ranks, state)?;
        for letter in letters.iter_mut() {
            *letter = at(&self.examples, *letter);
        }
        Ok(letters)
    }
}

impl Skeleton {
    /// Returns what is asked on a cycle of a component. Whatever is asked besides the leaves is settled there.
    fn condition(&mut self, asked: u32, letters: &[u32]) -> Attempt<u32> {
        let mut known = NumberMap::new(self.alloc);
        for variable in &self.progress.bdd.support(asked, NONE)? {
            if self.leaf_of(*variable) == NONE {
                let f = self.progress.formula(*variable);
                let holds = holds_on(&self.pool, f, letters)?;
                known.set(*variable, if holds { ALWAYS } else { NEVER })?;
            }
        }
        let mut noted = NumberMap::new(self.alloc);
        self.progress.bdd.replaced(asked, &known, &mut noted)
    }

    /// Returns the colours of the leaves of a diagram.
    fn colours_of(&mut self, diagram: u32) -> Attempt<u32> {
        let mut colours = 0;
        for variable in &self.progress.bdd.support(diagram, NONE)? {
            let number = self.leaf_of(*variable);
            if let Some(leaf) = self.leaves.get(number as usize) {
                colours |= leaf.colours();
            }
        }
        Ok(colours)
    }

    /// Returns the tree of a component in which a diagram is asked on each cycle.
    fn tree(&mut self, inner: &InnerColours, rank: u32, diagram: u32) -> Attempt<Tree> {
        let used = self.colours_of(diagram)? & item(&inner.some, rank, 0);
        let fixed = used & item(&inner.all, rank, 0);
        let condition = Condition {
            skeleton: self,
            diagram,
        };
        Tree::new(self.alloc, &condition, used, fixed)
    }

    /// Returns the tree of the component of a state, if the state is on a cycle.
    fn tree_at(&mut self, planting: &Planting, state: u32) -> Attempt<Option<Tree>> {
        let letters = planting.letters(self.alloc, state)?;
        if letters.is_empty() {
            return Ok(None);
        }
        let diagram = self.condition(planting.product.asked(state), &letters)?;
        let tree = self.tree(&planting.inner, planting.ranks.of(state), diagram)?;
        Ok(Some(tree))
    }

    /// Gives each component that has a cycle its tree. The states are in ascending order of the numbers of their components.
    fn plant(
        &mut self,
        planting: &Planting,
        order: &[u32],
        trees: &mut Vec<Option<Tree>>,
    ) -> Attempt<()> {
        for state in order {
            let rank = planting.ranks.of(*state);
            if matches!(trees.get(rank as usize), Some(None)) {
                let tree = self.tree_at(planting, *state)?;
                if let Some(place) = trees.get_mut(rank as usize) {
                    *place = tree;
                }
            }
        }
        Ok(())
    }

    /// Returns the tree of each component that has a cycle.
    fn trees(
        &mut self,
        product: &ColouredProduct,
        ranks: &ComponentRanks,
    ) -> Attempt<Vec<Option<Tree>>> {
        let planting = Planting {
            product,
            ranks,
            inner: inner_colours(self.alloc, product, ranks)?,
            examples: product.classes.examples(self.alloc)?,
        };
        let order = ranks.order(self.alloc)?;
        let mut trees = no_trees(self.alloc, ranks.many)?;
        self.plant(&planting, &order, &mut trees)?;
        Ok(trees)
    }

    /// Returns numbers for the states of a product: states with the same number are known to accept the same words.
    fn keys(&self, product: &ColouredProduct) -> Attempt<Vec<u32>> {
        let mut numbers = NumberedLists::new(self.alloc);
        let mut keys = Vec::new(self.alloc);
        for state in 0..product.states.len() {
            let mut key = Vec::from_slice(self.alloc, product.states.list(state))?;
            for (own, leaf) in key.iter_mut().skip(1).zip(&self.leaves) {
                *own = leaf.key(*own);
            }
            keys.push(numbers.number(&key)?)?;
        }
        Ok(keys)
    }

    /// Returns a product with the trees of its components.
    fn remembering<'a>(&mut self, product: &'a ColouredProduct) -> Attempt<Remembering<'a>> {
        let ranks = ranks_of(self.alloc, product)?;
        let trees = self.trees(product, &ranks)?;
        Ok(Remembering {
            product,
            ranks,
            trees,
            entries: NumberedLists::new(self.alloc),
            entered: Vec::new(self.alloc),
            states: NumberedLists::new(self.alloc),
        })
    }

    /// Returns the parity automaton of a product.
    pub fn parity(&mut self, product: &ColouredProduct) -> Attempt<MarkedAutomaton> {
        let mut remembering = self.remembering(product)?;
        let of_product = self.keys(product)?;
        let mut found = KeyedEdges::new(self.alloc);
        remembering.explore(self.alloc, &of_product, &mut found)?;
        let classes = product.classes.clone()?;
        Ok(found.with_classes(self.alloc, classes))
    }
}

/// Returns a list with no tree for each component.
fn no_trees(alloc: Global, components: u32) -> Attempt<Vec<Option<Tree>>> {
    let mut trees = Vec::new(alloc);
    for _ in 0..components {
        trees.push(None)?;
    }
    Ok(trees)
}

impl Remembering<'_> {
    /// Finds the edges of each state of the parity automaton; `of_product` has the keys of the product's states.
    fn explore(
        &mut self,
        alloc: Global,
        of_product: &[u32],
        found: &mut KeyedEdges,
    ) -> Attempt<()> {
        let start = self.entered(alloc, 0, self.begin(0))?;
        self.states.number(&[0, start.next])?;
        for number in 0..u32::MAX {
            let [state, leaf] = *self.states.list(number) else {
                break;
            };
            found.keys.push(at(of_product, state))?;
            self.expand(alloc, state, leaf, &mut found.edges)?;
            if found.edges.len() > MOST_EDGES {
                return Err(TranslateFault::TooManyStates);
            }
        }
        Ok(())
    }

    /// Appends the edges of a state with a memory.
    fn expand(
        &mut self,
        alloc: Global,
        state: u32,
        leaf: u32,
        edges: &mut Vec<MarkedEdge>,
    ) -> Attempt<()> {
        for class in 0..self.product.classes.many {
            let edge = item(self.product.row(state), class, MarkedEdge::NONE);
            let climb = self.step(alloc, state, leaf, edge)?;
            edges.push(MarkedEdge {
                target: self.states.number(&[edge.target, climb.next])?,
                mark: climb.priority,
            })?;
        }
        Ok(())
    }

    fn tree(&self, state: u32) -> Option<&Tree> {
        match self.trees.get(self.ranks.of(state) as usize) {
            Some(Some(tree)) => Some(tree),
            _ => None,
        }
    }

    /// Returns the memory with which a state is entered if `leaf` comes with it, and the greatest priority on the way: where each edge
    /// inside the component climbs anyhow, the memory climbs at once.
    fn entered(&self, alloc: Global, state: u32, leaf: u32) -> Attempt<Climb> {
        let mut entered = Climb {
            next: leaf,
            priority: 0,
        };
        let Some(tree) = self.tree(state) else {
            return Ok(entered);
        };
        let mut seen = vec![in alloc; leaf; 1]?;
        for _ in 0..u32::MAX {
            let Some(climb) = self.least_climb(tree, state, entered.next) else {
                break;
            };
            if seen.contains(&climb.next) {
                break;
            }
            seen.push(climb.next)?;
            entered.next = climb.next;
            entered.priority = entered.priority.max(climb.priority);
        }
        Ok(entered)
    }

    /// Returns the lowest climb of an edge inside the component, if there is one.
    fn least_climb(&self, tree: &Tree, state: u32, leaf: u32) -> Option<Climb> {
        let mut least: Option<Climb> = None;
        let mut last = NONE;
        for edge in self.product.row(state) {
            if edge.mark == last || self.ranks.of(edge.target) != self.ranks.of(state) {
                continue;
            }
            last = edge.mark;
            let climb = tree.climb(leaf, edge.mark);
            if least.is_none_or(|other| climb.priority < other.priority) {
                least = Some(climb);
            }
        }
        least
    }

    /// Returns the memory after an edge, and the priority of the edge.
    fn step(&mut self, alloc: Global, state: u32, leaf: u32, edge: MarkedEdge) -> Attempt<Climb> {
        let stays = self.ranks.of(edge.target) == self.ranks.of(state);
        let climb = match self.tree(state) {
            Some(tree) if stays => tree.climb(leaf, edge.mark),
            _ => Climb {
                next: self.begin(edge.target),
                priority: 0,
            },
        };
        let number = self.entries.number(&[edge.target, climb.next])?;
        if number as usize >= self.entered.len() {
            let entered = self.entered(alloc, edge.target, climb.next)?;
            self.entered.push(entered)?;
        }
        let entered = item(&self.entered, number, climb);
        let priority = if stays {
            climb.priority.max(entered.priority)
        } else {
            0
        };
        Ok(Climb {
            next: entered.next,
            priority,
        })
    }

    /// Returns the memory with which the component of a state is entered.
    fn begin(&self, state: u32) -> u32 {
        match self.tree(state) {
            Some(tree) => tree.first_leaf(0),
            None => 0,
        }
    }
}
