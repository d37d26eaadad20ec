//! Breakpoints (Miyano and Hayashi, Theoretical Computer Science 32, 1984): a state is what is asked, and what of that is waited for.

use crate::automaton::{KeyedEdges, MarkedEdge};
use crate::bdd::{ALWAYS, NEVER};
use crate::fault::{Attempt, TranslateFault};
use crate::leaf::Leaf;
use crate::numbers::{MOST_EDGES, NONE, power, spread};
use crate::pool::{FALSE, FormulaPool, Operator, TRUE};
use crate::progress::Progress;
use pg_search_components::NumberedLists;

/// A formula in Pi 2, whose states are explored.
#[derive(Drop)]
struct Breakpoints {
    progress: Progress,
    /// For `G F f`, the diagram of `F f`, the only formula that is waited for, again and again; else `NONE`.
    again: u32,
    /// What is asked and what is waited for in each state.
    states: NumberedLists<u32>,
}

/// Returns the formula that is waited for again and again: `F f` of `G F f`.
fn recurring(pool: &FormulaPool, f: u32) -> Option<u32> {
    match (pool.operator(f), pool.operands(f)) {
        (Operator::Release, [FALSE, g]) if pool.operator(*g) == Operator::Until => {
            let left = pool.operands(*g).first().copied();
            if left == Some(TRUE) { Some(*g) } else { None }
        }
        _ => None,
    }
}

impl Breakpoints {
    /// Returns the states of a formula that are known at first: the start alone.
    fn new(pool: &mut FormulaPool, f: u32, propositions: u32) -> Attempt<Breakpoints> {
        let mut points = Breakpoints {
            progress: Progress::new(pool.alloc, propositions, false)?,
            again: NONE,
            states: NumberedLists::new(pool.alloc),
        };
        points.begin(pool, f)?;
        Ok(points)
    }

    /// Adds the first state.
    fn begin(&mut self, pool: &mut FormulaPool, f: u32) -> Attempt<()> {
        let start = self.progress.ask(pool, f)?;
        if let Some(g) = recurring(pool, f) {
            self.again = self.progress.ask(pool, g)?;
        }
        let waited = self.waits(pool, start)?;
        self.states.number(&[start, waited])?;
        Ok(())
    }

    /// Returns what is waited for next, once nothing is left to wait for.
    fn waits(&mut self, pool: &mut FormulaPool, asked: u32) -> Attempt<u32> {
        if self.again != NONE {
            return Ok(self.again);
        }
        self.progress.waits(pool, asked)
    }

    /// Returns the edge to the state of what is asked and waited for.
    fn edge(&mut self, pool: &mut FormulaPool, asked: u32, waited: u32) -> Attempt<MarkedEdge> {
        let (state, mark) = match (asked, waited) {
            (NEVER, _) => ([NEVER, NEVER], 1),
            (ALWAYS, _) => ([ALWAYS, ALWAYS], 2),
            (_, ALWAYS) => ([asked, self.waits(pool, asked)?], 2),
            _ => ([asked, waited], 1),
        };
        let target = self.states.number(&state)?;
        Ok(MarkedEdge { target, mark })
    }

    /// Appends the edges of a state over the propositions of a mask, letter by letter.
    fn expand(
        &mut self,
        pool: &mut FormulaPool,
        state: [u32; 2],
        mask: u32,
        edges: &mut Vec<MarkedEdge>,
    ) -> Attempt<()> {
        let [asked, waited] = state;
        let next_asked = self.progress.step(pool, asked)?;
        let next_waited = self.progress.step(pool, waited)?;
        for local in 0..power(mask.count_ones()) {
            let letter = spread(local, mask);
            let left = if self.again == NONE {
                self.progress.left(next_asked, letter)
            } else {
                asked
            };
            let waited = self.progress.left(next_waited, letter);
            let edge = self.edge(pool, left, waited)?;
            edges.push(edge)?;
        }
        Ok(())
    }

    /// Finds the edges of each state over the propositions of a mask.
    fn explore(
        &mut self,
        pool: &mut FormulaPool,
        mask: u32,
        found: &mut KeyedEdges,
    ) -> Attempt<()> {
        for number in 0..u32::MAX {
            let [asked, waited] = *self.states.list(number) else {
                break;
            };
            found.keys.push(asked)?;
            self.expand(pool, [asked, waited], mask, &mut found.edges)?;
            if found.edges.len() > MOST_EDGES {
                return Err(TranslateFault::TooManyStates);
            }
        }
        Ok(())
    }
}

/// Returns the edges of a formula in Pi 2 over the propositions of a mask; `propositions` is the number of all propositions.
fn edges_of(pool: &mut FormulaPool, f: u32, propositions: u32, mask: u32) -> Attempt<KeyedEdges> {
    let mut points = Breakpoints::new(pool, f, propositions)?;
    let mut found = KeyedEdges::new(pool.alloc);
    points.explore(pool, mask, &mut found)?;
    Ok(found)
}

/// Returns the automaton of a formula in Pi 2; `propositions` is the number of all propositions.
pub fn by_breakpoints(pool: &mut FormulaPool, f: u32, propositions: u32) -> Attempt<Leaf> {
    let mask = pool.facts(f).propositions;
    let found = edges_of(pool, f, propositions, mask)?;
    let automaton = found.with_letters(pool.alloc, mask.count_ones())?;
    Leaf::new(&automaton, mask)
}
