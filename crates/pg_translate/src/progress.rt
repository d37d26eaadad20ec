//! Progression: what is asked of the rest of a word, up to propositional equivalence (Bacchus and Kabanza, Artificial Intelligence 116,
//! 2000; Esparza, Kretinsky and Sickert, Journal of the ACM 67, 2020).

use crate::bdd::{ALWAYS, Bdd, NEVER};
use crate::fault::Attempt;
use crate::numbers::{NONE, NumberMap, at, count};
use crate::pool::{Followed, FormulaPool, Operator, TRUE};
use std::alloc::Global;

/// The most steps that are made with diagrams.
const STEPS: u64 = 1 << 24;

/// What is asked, as diagrams. The variables below the number of propositions are those of the letter; each other variable is an atom, a
/// formula that is asked of the rest of the word.
#[derive(Drop)]
pub struct Progress {
    pub bdd: Bdd,
    pub propositions: u32,
    /// The formula of each atom.
    atoms: Vec<u32>,
    /// Whether the negation of an atom is the negated atom.
    shares: bool,
    /// For each formula, its diagram where it is asked of the rest; `expansions` has its diagram where it is asked of a letter and the rest
    /// after it.
    asked: NumberMap,
    expansions: NumberMap,
    /// For each variable, what it asks of the next letter, and in `flat` what of it is waited for. `stepped` and `flattened` have the same
    /// for diagrams.
    next: NumberMap,
    stepped: NumberMap,
    flat: NumberMap,
    flattened: NumberMap,
    /// For each formula, what is left of it if everything that may last for ever does.
    lasting: NumberMap,
}

impl Progress {
    pub fn new(alloc: Global, propositions: u32, shares: bool) -> Attempt<Progress> {
        Ok(Progress {
            bdd: Bdd::new(alloc, STEPS)?,
            propositions,
            atoms: Vec::new(alloc),
            shares,
            asked: NumberMap::new(alloc),
            expansions: NumberMap::new(alloc),
            next: NumberMap::new(alloc),
            stepped: NumberMap::new(alloc),
            flat: NumberMap::new(alloc),
            flattened: NumberMap::new(alloc),
            lasting: NumberMap::new(alloc),
        })
    }

    /// Returns the formula of an atom.
    pub fn formula(&self, variable: u32) -> u32 {
        at(&self.atoms, variable.wrapping_sub(self.propositions))
    }

    /// Returns what is left of a diagram after a letter.
    pub fn left(&self, f: u32, letter: u32) -> u32 {
        self.bdd.walk(f, self.propositions, letter)
    }

    /// Notes that an atom stays as it is.
    pub fn fix(&mut self, variable: u32) -> Attempt<()> {
        let same = self.bdd.variable(variable)?;
        self.next.set(variable, same)
    }

    /// Returns the atom of a formula as a diagram.
    pub fn atom(&mut self, pool: &mut FormulaPool, f: u32) -> Attempt<u32> {
        let known = self.asked.get(f);
        if known != NONE {
            return Ok(known);
        }
        let variable = self.propositions.saturating_add(count(self.atoms.len()));
        self.atoms.push(f)?;
        let diagram = self.bdd.variable(variable)?;
        self.asked.set(f, diagram)?;
        if self.shares {
            let negation = pool.negation(f)?;
            if self.asked.get(negation) == NONE {
                let negated = self.bdd.not(diagram)?;
                self.asked.set(negation, negated)?;
            }
        }
        Ok(diagram)
    }

    /// Returns the conjunction or disjunction of diagrams.
    pub fn joined(&mut self, operator: Operator, notes: &[u32]) -> Attempt<u32> {
        let mut all = if operator == Operator::All {
            ALWAYS
        } else {
            NEVER
        };
        for diagram in notes {
            all = if operator == Operator::All {
                self.bdd.and(all, *diagram)?
            } else {
                self.bdd.or(all, *diagram)?
            };
        }
        Ok(all)
    }

    /// Returns the diagram of a formula that is asked of the rest.
    pub fn ask(&mut self, pool: &mut FormulaPool, f: u32) -> Attempt<u32> {
        for part in &pool.parts(f, Followed::Junctions)? {
            if self.asked.get(*part) != NONE {
                continue;
            }
            let operator = pool.operator(*part);
            let diagram = match operator {
                Operator::False => NEVER,
                Operator::True => ALWAYS,
                Operator::All | Operator::Any => {
                    let operands = noted(pool, *part, &self.asked)?;
                    self.joined(operator, &operands)?
                }
                Operator::Literal(p, false) => self.ask_not(pool, p)?,
                _ => self.atom(pool, *part)?,
            };
            self.asked.set(*part, diagram)?;
        }
        Ok(self.asked.get(f))
    }

    /// Returns the diagram of the negation of a proposition that is asked of the rest.
    fn ask_not(&mut self, pool: &mut FormulaPool, p: u32) -> Attempt<u32> {
        let f = pool.add(Operator::Literal(p, true), &[])?;
        let positive = self.atom(pool, f)?;
        self.bdd.not(positive)
    }

    /// Returns the diagram of what a formula asks of a letter and of the rest after it.
    fn expansion(&mut self, pool: &mut FormulaPool, f: u32) -> Attempt<u32> {
        for part in &pool.parts(f, Followed::Now)? {
            if self.expansions.get(*part) == NONE {
                let diagram = self.expanded(pool, *part)?;
                self.expansions.set(*part, diagram)?;
            }
        }
        Ok(self.expansions.get(f))
    }

    /// Returns the diagram of what a formula asks of a letter and of the rest after it, once the diagrams of its operands are known.
    fn expanded(&mut self, pool: &mut FormulaPool, f: u32) -> Attempt<u32> {
        let operator = pool.operator(f);
        let operands = noted(pool, f, &self.expansions)?;
        match (operator, operands.as_slice()) {
            (Operator::True, _) => Ok(ALWAYS),
            (Operator::Literal(p, value), _) => self.literal(p, value),
            (Operator::All | Operator::Any, parts) => self.joined(operator, parts),
            (Operator::Next, _) => {
                let later = pool.operands(f).first().copied().unwrap_or(TRUE);
                self.ask(pool, later)
            }
            (Operator::Until, [left, right]) => {
                let later = self.atom(pool, f)?;
                self.until(*left, *right, later)
            }
            (Operator::Release, [left, right]) => {
                let later = self.atom(pool, f)?;
                self.release(*left, *right, later)
            }
            _ => Ok(NEVER),
        }
    }

    /// Returns the diagram of a proposition of the letter, or of its negation.
    fn literal(&mut self, p: u32, value: bool) -> Attempt<u32> {
        let diagram = self.bdd.variable(p)?;
        if value {
            Ok(diagram)
        } else {
            self.bdd.not(diagram)
        }
    }

    /// Returns the diagram of a formula with U, which is asked again by `later`.
    fn until(&mut self, left: u32, right: u32, later: u32) -> Attempt<u32> {
        let wait = self.bdd.and(left, later)?;
        self.bdd.or(right, wait)
    }

    /// Returns the diagram of a formula with R, which is asked again by `later`.
    fn release(&mut self, left: u32, right: u32, later: u32) -> Attempt<u32> {
        let free = self.bdd.or(left, later)?;
        self.bdd.and(right, free)
    }

    /// Returns what a diagram asks of the next letter and of the rest after it.
    pub fn step(&mut self, pool: &mut FormulaPool, f: u32) -> Attempt<u32> {
        for variable in &self.bdd.support(f, NONE)? {
            if self.next.get(*variable) == NONE {
                let atom = self.formula(*variable);
                let diagram = self.expansion(pool, atom)?;
                self.next.set(*variable, diagram)?;
            }
        }
        self.bdd.replaced(f, &self.next, &mut self.stepped)
    }

    /// Returns what of a diagram is left to wait for, if everything that may last for ever does.
    pub fn waits(&mut self, pool: &mut FormulaPool, f: u32) -> Attempt<u32> {
        for variable in &self.bdd.support(f, NONE)? {
            if self.flat.get(*variable) == NONE {
                let awaited = self.awaited(pool, self.formula(*variable))?;
                let diagram = self.ask(pool, awaited)?;
                self.flat.set(*variable, diagram)?;
            }
        }
        self.bdd.replaced(f, &self.flat, &mut self.flattened)
    }

    /// Returns what is left of a formula, if everything that may last for ever does.
    fn awaited(&mut self, pool: &mut FormulaPool, f: u32) -> Attempt<u32> {
        for part in &pool.parts(f, Followed::JunctionsAndNext)? {
            let operator = pool.operator(*part);
            let awaited = match operator {
                Operator::Release => TRUE,
                Operator::All | Operator::Any | Operator::Next => {
                    let operands = noted(pool, *part, &self.lasting)?;
                    pool.make(operator, &operands)?
                }
                _ => *part,
            };
            self.lasting.set(*part, awaited)?;
        }
        Ok(self.lasting.get(f))
    }
}

/// Returns the notes for the operands of a formula.
fn noted(pool: &FormulaPool, f: u32, notes: &NumberMap) -> Attempt<Vec<u32>> {
    let mut operands = Vec::new(pool.alloc);
    for operand in pool.operands(f) {
        operands.push(notes.get(*operand))?;
    }
    Ok(operands)
}
