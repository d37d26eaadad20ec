//! Complete deterministic automata, by classes of letters.

use crate::fault::Attempt;
use crate::numbers::{NONE, at, between, count, gathered, item, power, put};
use pg_search_components::NumberedLists;
use std::alloc::Global;

/// Where an edge leads, and what it is marked with: a priority, or a set of colours as bits.
#[derive(Clone, Copy, PartialEq, Eq, PartialOrd, Ord)]
pub struct MarkedEdge {
    pub target: u32,
    pub mark: u32,
}

impl MarkedEdge {
    /// Stands for no edge.
    pub const NONE: MarkedEdge = MarkedEdge {
        target: NONE,
        mark: 0,
    };
}

/// The class of each letter. Letters of one class have the same edge from each state.
#[derive(Drop)]
pub struct Classes {
    of: Vec<u32>,
    pub many: u32,
}

impl Classes {
    /// Puts all letters over the given number of propositions into one class.
    pub fn new(alloc: Global, propositions: u32) -> Attempt<Classes> {
        Ok(Classes {
            of: vec![in alloc; 0; power(propositions) as usize]?,
            many: 1,
        })
    }

    /// Returns the classes of letters that have the same edge from each state. The edges are given letter by letter.
    fn of_rows(alloc: Global, propositions: u32, edges: &[MarkedEdge]) -> Attempt<Classes> {
        let mut classes = Classes::new(alloc, propositions)?;
        let letters = classes.letters();
        for row in edges.chunks(letters.max(1) as usize) {
            classes.refine(alloc, row, letters.wrapping_sub(1))?;
        }
        Ok(classes)
    }

    /// Of edges that are given letter by letter, returns one of each class.
    fn one_of_each(&self, alloc: Global, edges: &[MarkedEdge]) -> Attempt<Vec<MarkedEdge>> {
        let examples = self.examples(alloc)?;
        let mut by_class = Vec::new(alloc);
        for row in edges.chunks(self.letters().max(1) as usize) {
            for letter in &examples {
                by_class.push(item(row, *letter, MarkedEdge::NONE))?;
            }
        }
        Ok(by_class)
    }

    pub fn of(&self, letter: u32) -> u32 {
        at(&self.of, letter)
    }

    pub fn letters(&self) -> u32 {
        count(self.of.len())
    }

    pub fn clone(&self) -> Attempt<Classes> {
        Ok(Classes {
            of: self.of.clone()?,
            many: self.many,
        })
    }

    /// Returns the least letter of each class.
    pub fn examples(&self, alloc: Global) -> Attempt<Vec<u32>> {
        let mut examples = vec![in alloc; 0; self.many as usize]?;
        for letter in (0..self.letters()).rev() {
            put(&mut examples, self.of(letter), letter);
        }
        Ok(examples)
    }

    /// Splits the classes by the edges of a state, which are given letter by letter over the propositions of a mask.
    pub fn refine(&mut self, alloc: Global, edges: &[MarkedEdge], mask: u32) -> Attempt<()> {
        let mut numbers = NumberedLists::new(alloc);
        let (mut last, mut last_number) = ([NONE, NONE, NONE], 0);
        for letter in 0..self.letters() {
            let edge = item(edges, gathered(letter, mask), MarkedEdge::NONE);
            let key = [self.of(letter), edge.target, edge.mark];
            if key != last {
                last_number = numbers.number(&key)?;
                last = key;
            }
            put(&mut self.of, letter, last_number);
        }
        self.many = numbers.len();
        Ok(())
    }

    /// Gives each class its number in `numbers`; `many` classes are left.
    pub fn renumber(&mut self, numbers: &[u32], many: u32) {
        for class in self.of.iter_mut() {
            *class = at(numbers, *class);
        }
        self.many = many;
    }
}

/// An automaton with priorities as marks: it accepts a word if the greatest priority that recurs is even. It begins in state 0.
#[derive(Drop)]
pub struct MarkedAutomaton {
    pub alloc: Global,
    pub classes: Classes,
    /// The edge of each class, state by state.
    pub edges: Vec<MarkedEdge>,
    /// The key of each state. States with the same key are known to accept the same words.
    pub keys: Vec<u32>,
}

/// The edges of states, state by state, and the key of each state.
#[derive(Drop)]
pub struct KeyedEdges {
    pub edges: Vec<MarkedEdge>,
    pub keys: Vec<u32>,
}

impl KeyedEdges {
    pub fn new(alloc: Global) -> KeyedEdges {
        KeyedEdges {
            edges: Vec::new(alloc),
            keys: Vec::new(alloc),
        }
    }

    /// Returns the automaton of edges that are given by class.
    pub fn with_classes(self, alloc: Global, classes: Classes) -> MarkedAutomaton {
        MarkedAutomaton {
            alloc,
            classes,
            edges: self.edges,
            keys: self.keys,
        }
    }

    /// Returns the automaton of edges that are given letter by letter.
    pub fn with_letters(self, alloc: Global, propositions: u32) -> Attempt<MarkedAutomaton> {
        let classes = Classes::of_rows(alloc, propositions, &self.edges)?;
        let edges = classes.one_of_each(alloc, &self.edges)?;
        Ok(MarkedAutomaton {
            alloc,
            classes,
            edges,
            keys: self.keys,
        })
    }
}

impl MarkedAutomaton {
    /// How many states there are.
    pub fn len(&self) -> u32 {
        count(self.edges.len()) / self.classes.many.max(1)
    }

    /// Returns the edges of a state, by class.
    pub fn row(&self, state: u32) -> &[MarkedEdge] {
        let from = state.saturating_mul(self.classes.many);
        between(&self.edges, from, from.saturating_add(self.classes.many))
    }

    pub fn step(&self, state: u32, letter: u32) -> MarkedEdge {
        item(self.row(state), self.classes.of(letter), MarkedEdge::NONE)
    }

    /// Returns the different edges of a state, in ascending order.
    pub fn distinct(&self, state: u32) -> Attempt<Vec<MarkedEdge>> {
        let mut edges = Vec::from_slice(self.alloc, self.row(state))?;
        edges.sort_unstable();
        edges.dedup();
        Ok(edges)
    }

    pub fn greatest_priority(&self) -> u32 {
        let mut greatest = 0;
        for edge in &self.edges {
            greatest = greatest.max(edge.mark);
        }
        greatest
    }

    /// Whether a state leads only to itself and accepts or, if `accepts` is false, rejects.
    pub fn is_sink(&self, state: u32, accepts: bool) -> bool {
        let mut row = self.row(state).iter();
        row.all(|edge| edge.target == state && (edge.mark % 2 == 0) == accepts)
    }

    /// Returns the automaton of the states that are reached when `by` replaces each state, numbered in the order in which they are met.
    pub fn replaced(&self, by: &[u32]) -> Attempt<MarkedAutomaton> {
        let mut met = MetStates {
            numbers: vec![in self.alloc; NONE; self.len() as usize]?,
            order: Vec::new(self.alloc),
        };
        met.number(at(by, 0))?;
        let mut found = KeyedEdges::new(self.alloc);
        for place in 0..self.len() {
            let Some(state) = met.order.get(place as usize).copied() else {
                break;
            };
            found.keys.push(at(&self.keys, state))?;
            self.redirect(state, by, &mut met, &mut found.edges)?;
        }
        let classes = self.classes.clone()?;
        Ok(found.with_classes(self.alloc, classes))
    }

    /// Appends the edges of a state, when `by` replaces each state and the states that were met have numbers.
    fn redirect(
        &self,
        state: u32,
        by: &[u32],
        met: &mut MetStates,
        edges: &mut Vec<MarkedEdge>,
    ) -> Attempt<()> {
        for edge in self.row(state) {
            edges.push(MarkedEdge {
                target: met.number(at(by, edge.target))?,
                mark: edge.mark,
            })?;
        }
        Ok(())
    }
}

/// States that were met, in the order in which they were, and the number of each state in this order, or `NONE`.
#[derive(Drop)]
struct MetStates {
    numbers: Vec<u32>,
    order: Vec<u32>,
}

impl MetStates {
    /// Returns the number of a state, which is the next one if the state is new.
    fn number(&mut self, state: u32) -> Attempt<u32> {
        if at(&self.numbers, state) == NONE {
            put(&mut self.numbers, state, count(self.order.len()));
            self.order.push(state)?;
        }
        Ok(at(&self.numbers, state))
    }
}
