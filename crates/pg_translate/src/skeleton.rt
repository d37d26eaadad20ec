//! A formula as a combination of temporal formulas: those that are safety or co-safety are progressed together, and each other one becomes
//! a leaf, an automaton of its own.

use crate::breakpoints::by_breakpoints;
use crate::fault::{Attempt, TranslateFault};
use crate::leaf::Leaf;
use crate::numbers::{NONE, NumberMap, count};
use crate::pool::{FALSE, FormulaPool, Operator, TRUE};
use crate::progress::Progress;
use crate::safra::by_trees;
use std::alloc::Global;

/// The leaves of a formula, and what is asked besides them.
#[derive(Drop)]
pub struct Skeleton {
    pub alloc: Global,
    pub pool: FormulaPool,
    pub progress: Progress,
    pub leaves: Vec<Leaf>,
    /// The leaf of a variable, if it has one.
    leaf_of: NumberMap,
    /// The diagrams of formulas.
    known: NumberMap,
}

impl Skeleton {
    pub fn new(pool: FormulaPool, propositions: u32) -> Attempt<Skeleton> {
        let alloc = pool.alloc;
        Ok(Skeleton {
            alloc,
            pool,
            progress: Progress::new(alloc, propositions, true)?,
            leaves: Vec::new(alloc),
            leaf_of: NumberMap::new(alloc),
            known: NumberMap::new(alloc),
        })
    }

    /// Returns the number of the leaf of a variable, or `NONE`.
    pub fn leaf_of(&self, variable: u32) -> u32 {
        self.leaf_of.get(variable)
    }

    /// Returns the diagram of a formula, and makes the leaves that it needs.
    pub fn diagram(&mut self, f: u32) -> Attempt<u32> {
        let mut stack = vec![in self.alloc; f; 1]?;
        for _ in 0..u64::MAX {
            let Some(g) = stack.last().copied() else {
                break;
            };
            let needed = self.needed(g)?;
            if !self.push_unknown(&needed, &mut stack)? {
                let _ = stack.pop();
                let diagram = self.joined(g, &needed)?;
                self.known.set(g, diagram)?;
            }
        }
        Ok(self.known.get(f))
    }

    /// Pushes the formulas whose diagrams aren't known yet, and returns whether there are any.
    fn push_unknown(&self, needed: &[u32], stack: &mut Vec<u32>) -> Attempt<bool> {
        let mut has_unknown = false;
        for part in needed {
            if self.known.get(*part) == NONE {
                stack.push(*part)?;
                has_unknown = true;
            }
        }
        Ok(has_unknown)
    }

    /// Returns the formulas whose diagrams the diagram of a formula needs: its operands, or one formula that says the same.
    fn needed(&mut self, f: u32) -> Attempt<Vec<u32>> {
        if self.pool.operator(f).is_junction() {
            return Ok(Vec::from_slice(self.alloc, self.pool.operands(f))?);
        }
        let facts = self.pool.facts(f);
        let same = if facts.sigma <= 1 || facts.pi <= 1 {
            f
        } else {
            self.distributed(f)?
        };
        let mut needed = Vec::new(self.alloc);
        if same != f {
            needed.push(same)?;
        }
        Ok(needed)
    }

    /// Returns `X` of a junction, `G` of a conjunction or `F` of a disjunction as a junction, and any other formula as it is.
    fn distributed(&mut self, f: u32) -> Attempt<u32> {
        let operator = self.pool.operator(f);
        let operands = Vec::from_slice(self.alloc, self.pool.operands(f))?;
        let Some(inner) = operands.last().copied() else {
            return Ok(f);
        };
        let junction = self.pool.operator(inner);
        let fits = match (operator, operands.as_slice()) {
            (Operator::Next, _) => junction.is_junction(),
            (Operator::Release, [FALSE, _]) => junction == Operator::All,
            (Operator::Until, [TRUE, _]) => junction == Operator::Any,
            _ => false,
        };
        if !fits {
            return Ok(f);
        }
        let parts = self.made_of_each(operator, &operands, inner)?;
        self.pool.join(junction, &parts)
    }

    /// Returns a formula with each operand of its last operand in the place of that one.
    fn made_of_each(
        &mut self,
        operator: Operator,
        operands: &[u32],
        inner: u32,
    ) -> Attempt<Vec<u32>> {
        let inner = Vec::from_slice(self.alloc, self.pool.operands(inner))?;
        let mut parts = Vec::new(self.alloc);
        for part in &inner {
            let made = match operands {
                [left, _] => self.pool.make(operator, &[*left, *part])?,
                _ => self.pool.make(operator, &[*part])?,
            };
            parts.push(made)?;
        }
        Ok(parts)
    }

    /// Returns the diagram of a formula, once the diagrams that it needs are known.
    fn joined(&mut self, f: u32, needed: &[u32]) -> Attempt<u32> {
        let operator = self.pool.operator(f);
        let facts = self.pool.facts(f);
        if operator.is_junction() {
            let mut diagrams = Vec::new(self.alloc);
            for part in needed {
                diagrams.push(self.known.get(*part))?;
            }
            return self.progress.joined(operator, &diagrams);
        }
        match needed {
            [same] => Ok(self.known.get(*same)),
            _ if facts.sigma <= 1 || facts.pi <= 1 => self.progress.ask(&mut self.pool, f),
            _ => self.leaf(f),
        }
    }

    /// Returns the diagram of a formula that is a leaf or the negation of one.
    fn leaf(&mut self, f: u32) -> Attempt<u32> {
        let negation = self.pool.negation(f)?;
        let facts = self.pool.facts(f);
        let is_positive = facts.pi <= 2 || facts.sigma > 2 && f < negation;
        let f = if is_positive { f } else { negation };
        let diagram = self.progress.atom(&mut self.pool, f)?;
        let variable = self.progress.bdd.top(diagram);
        if self.leaf_of(variable) == NONE {
            let leaf = if self.pool.facts(f).pi <= 2 {
                by_breakpoints(&mut self.pool, f, self.progress.propositions)?
            } else {
                by_trees(&self.pool, f)?
            };
            self.leaf_of.set(variable, count(self.leaves.len()))?;
            self.progress.fix(variable)?;
            self.leaves.push(leaf)?;
        }
        if is_positive {
            Ok(diagram)
        } else {
            self.progress.bdd.not(diagram)
        }
    }

    /// Gives the leaves their colours. Fails with `TooManyStates` if there are more than 32 in all.
    pub fn colour(&mut self) -> Attempt<()> {
        let mut colours = 0u32;
        for leaf in self.leaves.iter_mut() {
            colours = leaf.colour(colours);
        }
        if colours > 32 {
            return Err(TranslateFault::TooManyStates);
        }
        Ok(())
    }
}
