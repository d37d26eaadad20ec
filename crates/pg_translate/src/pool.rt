//! Formulas in negation normal form, each stored once.

use crate::fault::Attempt;
use crate::numbers::{NONE, NumberMap, count, item, power};
use indexmap::IndexSet;
use pg_search_components::NumberedLists;
use std::alloc::Global;

/// The formulas false and true.
pub const FALSE: u32 = 0;

pub const TRUE: u32 = 1;

#[derive(Clone, Copy, PartialEq, Eq, Hash)]
pub enum Operator {
    False,
    True,
    /// A proposition, or its negation if the flag is false.
    Literal(u32, bool),
    All,
    Any,
    Next,
    Until,
    Release,
}

impl Operator {
    /// Returns the operator that gives the negation when applied to the negated operands.
    pub fn dual(self) -> Operator {
        match self {
            Operator::False => Operator::True,
            Operator::True => Operator::False,
            Operator::Literal(p, value) => Operator::Literal(p, !value),
            Operator::All => Operator::Any,
            Operator::Any => Operator::All,
            Operator::Next => Operator::Next,
            Operator::Until => Operator::Release,
            Operator::Release => Operator::Until,
        }
    }

    pub fn is_junction(self) -> bool {
        self == Operator::All || self == Operator::Any
    }
}

/// An operator, and the number of the list of its operands.
#[derive(Clone, Copy, PartialEq, Eq, Hash)]
struct PoolNode {
    operator: Operator,
    operands: u32,
}

/// What is known about a formula.
#[derive(Clone, Copy)]
pub struct Facts {
    /// Its propositions, as bits.
    pub propositions: u32,
    /// The least k such that the formula is in Sigma k of the syntactic hierarchy; `pi` is the least k such that it is in Pi k.
    pub sigma: u32,
    pub pi: u32,
    /// Whether it is known to hold of a word exactly if it holds of each of the word's tails.
    pub is_suspendable: bool,
}

/// Which operators are followed from a formula to its parts.
#[derive(Clone, Copy, PartialEq, Eq)]
pub enum Followed {
    Junctions,
    /// The operators that don't look ahead: all but Next.
    Now,
    JunctionsAndNext,
    All,
}

impl Followed {
    fn goes_by(self, operator: Operator) -> bool {
        match self {
            Followed::Junctions => operator.is_junction(),
            Followed::Now => operator != Operator::Next,
            Followed::JunctionsAndNext => operator.is_junction() || operator == Operator::Next,
            Followed::All => true,
        }
    }
}

/// Formulas by number. Operands have smaller numbers than the formulas made of them.
#[derive(Drop)]
pub struct FormulaPool {
    pub alloc: Global,
    nodes: IndexSet<PoolNode>,
    lists: NumberedLists<u32>,
    facts: Vec<Facts>,
    negations: NumberMap,
}

impl FormulaPool {
    /// Returns a pool with the formulas false and true.
    pub fn new(alloc: Global) -> Attempt<FormulaPool> {
        let mut pool = FormulaPool {
            alloc,
            nodes: IndexSet::new(alloc),
            lists: NumberedLists::new(alloc),
            facts: Vec::new(alloc),
            negations: NumberMap::new(alloc),
        };
        for operator in [Operator::False, Operator::True] {
            pool.add(operator, &[])?;
        }
        Ok(pool)
    }

    fn node(&self, f: u32) -> PoolNode {
        match self.nodes.get_index(f as usize) {
            Some(node) => *node,
            None => PoolNode {
                operator: Operator::False,
                operands: 0,
            },
        }
    }

    pub fn operator(&self, f: u32) -> Operator {
        self.node(f).operator
    }

    pub fn operands(&self, f: u32) -> &[u32] {
        self.lists.list(self.node(f).operands)
    }

    pub fn facts(&self, f: u32) -> Facts {
        item(&self.facts, f, Facts::NONE)
    }

    /// Returns the formula of an operator and operands, which is added if it is new.
    pub fn add(&mut self, operator: Operator, operands: &[u32]) -> Attempt<u32> {
        let operands = self.lists.number(operands)?;
        let (number, is_new) = self.nodes.insert_full(PoolNode { operator, operands })?;
        if is_new {
            let facts = self.facts_of(operator, self.lists.list(operands));
            self.facts.push(facts)?;
        }
        Ok(count(number))
    }

    fn facts_of(&self, operator: Operator, operands: &[u32]) -> Facts {
        let mut facts = Facts::NONE;
        facts.is_suspendable = !operands.is_empty();
        for f in operands {
            let other = self.facts(*f);
            facts.propositions |= other.propositions;
            facts.sigma = facts.sigma.max(other.sigma);
            facts.pi = facts.pi.max(other.pi);
            facts.is_suspendable = facts.is_suspendable && other.is_suspendable;
        }
        match operator {
            Operator::Literal(p, _) => facts.propositions = power(p),
            Operator::Until => {
                facts.sigma = facts.sigma.max(1);
                facts.pi = facts.sigma.saturating_add(1);
                facts.is_suspendable = self.recurs(TRUE, Operator::Release, operands);
            }
            Operator::Release => {
                facts.pi = facts.pi.max(1);
                facts.sigma = facts.pi.saturating_add(1);
                facts.is_suspendable = self.recurs(FALSE, Operator::Until, operands);
            }
            _ => {}
        }
        facts
    }

    /// Whether a temporal formula with these operands holds of each tail of a word if it holds of one: `F G f` and `G F f` do, and so does
    /// a formula whose right operand does.
    fn recurs(&self, left: u32, right: Operator, operands: &[u32]) -> bool {
        match operands {
            [f, g] => {
                let inner = self.operands(*g).first().copied();
                let is_known = self.facts(*g).is_suspendable;
                is_known || *f == left && self.operator(*g) == right && inner == Some(left ^ 1)
            }
            _ => false,
        }
    }

    /// Returns the parts of a formula that are reached through the operators of `reach`, operands first and the formula itself last.
    pub fn parts(&self, f: u32, reach: Followed) -> Attempt<Vec<u32>> {
        let mut parts = IndexSet::new(self.alloc);
        let _ = parts.insert_full(f)?;
        for place in 0..u32::MAX {
            let Some(part) = parts.get_index(place as usize).copied() else {
                break;
            };
            if reach.goes_by(self.operator(part)) {
                for operand in self.operands(part) {
                    let _ = parts.insert_full(*operand)?;
                }
            }
        }
        let mut sorted = Vec::from_slice(self.alloc, parts.as_slice())?;
        sorted.sort_unstable();
        Ok(sorted)
    }

    /// Returns the negation of a formula.
    pub fn negation(&mut self, f: u32) -> Attempt<u32> {
        for part in &self.parts(f, Followed::All)? {
            if self.negations.get(*part) != NONE {
                continue;
            }
            let mut operands = Vec::new(self.alloc);
            for operand in self.operands(*part) {
                operands.push(self.negations.get(*operand))?;
            }
            let negation = self.make(self.operator(*part).dual(), &operands)?;
            self.negations.set(*part, negation)?;
        }
        Ok(self.negations.get(f))
    }
}

impl Facts {
    /// The facts of a constant.
    const NONE: Facts = Facts {
        propositions: 0,
        sigma: 0,
        pi: 0,
        is_suspendable: false,
    };
}
