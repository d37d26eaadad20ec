//! Binary decision diagrams, reduced and shared (Bryant, IEEE Transactions on Computers 35, 1986).

use crate::fault::Attempt;
use crate::numbers::{NONE, NumberMap, at, count, has_bit, spend};
use indexmap::IndexSet;
use std::alloc::Global;

/// The diagrams of false and true.
pub const NEVER: u32 = 0;

pub const ALWAYS: u32 = 1;

/// A choice by a variable: `low` is the diagram where it is false, and `high` the diagram where it is true.
#[derive(Clone, Copy, PartialEq, Eq, Hash)]
struct Branch {
    variable: u32,
    low: u32,
    high: u32,
}

/// The diagram of `test` and `then`, or not `test` and `other`.
#[derive(Clone, Copy, PartialEq, Eq, Hash)]
struct IfThenElse {
    test: u32,
    then: u32,
    other: u32,
}

/// A task on the way to the diagram of a choice.
#[derive(Clone, Copy)]
enum DiagramTask {
    Look(IfThenElse),
    /// Joins the last two diagrams by this variable.
    Join(u32, IfThenElse),
}

/// Diagrams. A branch leads to smaller numbers; the constants have no variable.
#[derive(Drop)]
pub struct Bdd {
    alloc: Global,
    branches: IndexSet<Branch>,
    /// The choices that were made; `made` has the diagram of each.
    choices: IndexSet<IfThenElse>,
    made: Vec<u32>,
    steps: u64,
}

impl Bdd {
    /// Returns the diagrams false and true, with a budget of `steps` steps.
    pub fn new(alloc: Global, steps: u64) -> Attempt<Bdd> {
        let mut bdd = Bdd {
            alloc,
            branches: IndexSet::new(alloc),
            choices: IndexSet::new(alloc),
            made: Vec::new(alloc),
            steps,
        };
        for constant in [NEVER, ALWAYS] {
            let _ = bdd.branches.insert_full(Branch {
                variable: NONE,
                low: constant,
                high: constant,
            })?;
        }
        Ok(bdd)
    }

    fn branch(&self, f: u32) -> Branch {
        match self.branches.get_index(f as usize) {
            Some(branch) => *branch,
            None => Branch {
                variable: NONE,
                low: NEVER,
                high: NEVER,
            },
        }
    }

    /// Returns the variable of the first choice of a diagram, or `NONE` for a constant.
    pub fn top(&self, f: u32) -> u32 {
        self.branch(f).variable
    }

    /// Returns the halves of a diagram where a variable is false, and where it is true. The variable isn't after the diagram's first one.
    fn cut(&self, f: u32, variable: u32) -> (u32, u32) {
        let branch = self.branch(f);
        if branch.variable == variable {
            (branch.low, branch.high)
        } else {
            (f, f)
        }
    }

    fn join(&mut self, variable: u32, low: u32, high: u32) -> Attempt<u32> {
        if low == high {
            return Ok(low);
        }
        let (number, _) = self.branches.insert_full(Branch {
            variable,
            low,
            high,
        })?;
        Ok(count(number))
    }

    pub fn variable(&mut self, variable: u32) -> Attempt<u32> {
        self.join(variable, NEVER, ALWAYS)
    }

    /// Returns the diagram of a choice, if it is obvious or known.
    fn known(&self, choice: IfThenElse) -> Option<u32> {
        match (choice.test, choice.then, choice.other) {
            (ALWAYS, then, _) => Some(then),
            (NEVER, _, other) => Some(other),
            (test, ALWAYS, NEVER) => Some(test),
            (_, then, other) if then == other => Some(then),
            _ => match self.choices.get_index_of(&choice) {
                Some(number) => Some(at(&self.made, count(number))),
                None => None,
            },
        }
    }

    /// Returns the diagram of `test` and `then`, or not `test` and `other`.
    pub fn choose(&mut self, test: u32, then: u32, other: u32) -> Attempt<u32> {
        let mut tasks = Vec::new(self.alloc);
        let mut done = Vec::new(self.alloc);
        tasks.push(DiagramTask::Look(IfThenElse { test, then, other }))?;
        for _ in 0..u64::MAX {
            let Some(task) = tasks.pop() else {
                break;
            };
            self.carry_out(task, &mut tasks, &mut done)?;
        }
        Ok(done.pop().unwrap_or(NEVER))
    }

    /// Carries out a task: appends its diagram to those that are done, or its parts to the tasks.
    fn carry_out(
        &mut self,
        task: DiagramTask,
        tasks: &mut Vec<DiagramTask>,
        done: &mut Vec<u32>,
    ) -> Attempt<()> {
        match task {
            DiagramTask::Look(choice) => match self.known(choice) {
                Some(known) => done.push(known)?,
                None => self.part(choice, tasks)?,
            },
            DiagramTask::Join(variable, choice) => {
                let high = done.pop().unwrap_or(NEVER);
                let low = done.pop().unwrap_or(NEVER);
                let joined = self.join(variable, low, high)?;
                self.note(choice, joined)?;
                done.push(joined)?;
            }
        }
        Ok(())
    }

    /// Notes the diagram of a choice.
    fn note(&mut self, choice: IfThenElse, made: u32) -> Attempt<()> {
        let _ = self.choices.insert_full(choice)?;
        self.made.push(made)?;
        Ok(())
    }
}

impl Bdd {
    /// Splits a choice by its least variable, and pushes the tasks that this gives. Takes one step.
    fn part(&mut self, choice: IfThenElse, tasks: &mut Vec<DiagramTask>) -> Attempt<()> {
        spend(&mut self.steps, 1)?;
        let IfThenElse { test, then, other } = choice;
        let variable = self.top(test).min(self.top(then)).min(self.top(other));
        let (test_low, test_high) = self.cut(test, variable);
        let (then_low, then_high) = self.cut(then, variable);
        let (other_low, other_high) = self.cut(other, variable);
        tasks.push(DiagramTask::Join(variable, choice))?;
        tasks.push(DiagramTask::Look(IfThenElse {
            test: test_high,
            then: then_high,
            other: other_high,
        }))?;
        tasks.push(DiagramTask::Look(IfThenElse {
            test: test_low,
            then: then_low,
            other: other_low,
        }))?;
        Ok(())
    }
}

impl Bdd {
    pub fn and(&mut self, f: u32, g: u32) -> Attempt<u32> {
        self.choose(f, g, NEVER)
    }

    pub fn or(&mut self, f: u32, g: u32) -> Attempt<u32> {
        self.choose(f, ALWAYS, g)
    }

    pub fn not(&mut self, f: u32) -> Attempt<u32> {
        self.choose(f, NEVER, ALWAYS)
    }

    /// Returns the halves of a diagram where its first variable is false, and where it is true.
    pub fn halves(&self, f: u32) -> (u32, u32) {
        let branch = self.branch(f);
        (branch.low, branch.high)
    }

    /// Returns the diagrams with a variable below `end` that are reached from a diagram, smaller numbers first. Noted diagrams, and those
    /// that are reached only through them, are left out.
    fn below(&mut self, f: u32, end: u32, noted: &NumberMap) -> Attempt<Vec<u32>> {
        let mut met = IndexSet::new(self.alloc);
        let _ = met.insert_full(f)?;
        let mut found = Vec::new(self.alloc);
        for place in 0..u32::MAX {
            let Some(g) = met.get_index(place as usize).copied() else {
                break;
            };
            if self.top(g) < end && noted.get(g) == NONE {
                spend(&mut self.steps, 1)?;
                found.push(g)?;
                let (low, high) = self.halves(g);
                let _ = met.insert_full(low)?;
                let _ = met.insert_full(high)?;
            }
        }
        found.sort_unstable();
        Ok(found)
    }

    /// Returns the variables of a diagram that are below `end`, in ascending order.
    pub fn support(&mut self, f: u32, end: u32) -> Attempt<Vec<u32>> {
        let mut support = Vec::new(self.alloc);
        for g in &self.below(f, end, &NumberMap::new(self.alloc))? {
            support.push(self.top(*g))?;
        }
        support.sort_unstable();
        support.dedup();
        Ok(support)
    }

    /// Returns a diagram with each variable replaced by the diagram that `by` has for it, if there is one. Notes the results in `noted`.
    pub fn replaced(&mut self, f: u32, by: &NumberMap, noted: &mut NumberMap) -> Attempt<u32> {
        for g in &self.below(f, NONE, noted)? {
            let variable = self.top(*g);
            let mut test = by.get(variable);
            if test == NONE {
                test = self.variable(variable)?;
            }
            let (low, high) = self.halves(*g);
            let low = self.noted_or_same(low, noted);
            let high = self.noted_or_same(high, noted);
            let replaced = self.choose(test, high, low)?;
            noted.set(*g, replaced)?;
        }
        Ok(self.noted_or_same(f, noted))
    }

    /// Returns the note for a diagram; a constant stands for itself.
    fn noted_or_same(&self, f: u32, noted: &NumberMap) -> u32 {
        if self.top(f) == NONE { f } else { noted.get(f) }
    }

    /// Returns what is left of a diagram when the variables below `end` have the values of the bits of a letter.
    pub fn walk(&self, f: u32, end: u32, letter: u32) -> u32 {
        let mut f = f;
        for _ in 0..end {
            let branch = self.branch(f);
            if branch.variable >= end {
                break;
            }
            f = if has_bit(letter, branch.variable) {
                branch.high
            } else {
                branch.low
            };
        }
        f
    }
}
