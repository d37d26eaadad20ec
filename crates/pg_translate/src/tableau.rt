//! The tableau of a formula: sets of formulas. A word satisfies a set if choices lead it from set to set and no Until is put off for ever.

use crate::fault::{Attempt, TranslateFault};
use crate::numbers::{NONE, NumberMap, at, count};
use crate::pool::{FALSE, Followed, FormulaPool, Operator, TRUE};
use pg_search_components::NumberedLists;
use std::alloc::Global;

/// The formulas that are asked from the next step on, and the Untils that are put off, as bits.
#[derive(Clone, Copy, PartialEq, Eq)]
pub struct ChoiceBits {
    pub asks: u64,
    pub puts: u64,
}

impl ChoiceBits {
    pub const FREE: ChoiceBits = ChoiceBits { asks: 0, puts: 0 };

    fn with(self, other: ChoiceBits) -> ChoiceBits {
        ChoiceBits {
            asks: self.asks | other.asks,
            puts: self.puts | other.puts,
        }
    }

    /// Whether this choice asks for no more, and puts off no more, than another one.
    fn is_within(self, other: ChoiceBits) -> bool {
        self.asks & !other.asks == 0 && self.puts & !other.puts == 0
    }
}

/// Leaves out each choice that asks for at least as much as another one.
fn pruned(alloc: Global, choices: &[ChoiceBits]) -> Attempt<Vec<ChoiceBits>> {
    let mut kept: Vec<ChoiceBits> = Vec::new(alloc);
    for choice in choices {
        if !kept.iter().any(|other| other.is_within(*choice)) {
            kept.retain(|other| !choice.is_within(*other));
            kept.push(*choice)?;
        }
    }
    Ok(kept)
}

/// Returns the choices that combine one of each list.
fn together(alloc: Global, one: &[ChoiceBits], two: &[ChoiceBits]) -> Attempt<Vec<ChoiceBits>> {
    let mut all = Vec::new(alloc);
    for choice in one {
        for other in two {
            all.push(choice.with(*other))?;
        }
    }
    pruned(alloc, &all)
}

/// Returns the choices of both lists.
fn either(alloc: Global, one: &[ChoiceBits], two: &[ChoiceBits]) -> Attempt<Vec<ChoiceBits>> {
    let mut all = Vec::from_slice(alloc, one)?;
    all.extend_from_slice(two)?;
    pruned(alloc, &all)
}

/// The tableau. Each formula that is asked has a place among the bits.
#[derive(Drop)]
pub struct Tableau<'a> {
    pool: &'a FormulaPool,
    formulas: Vec<u32>,
    places: NumberMap,
    /// The places with letters whose choices are known; `choices` has these.
    known: NumberedLists<u32>,
    choices: Vec<Vec<ChoiceBits>>,
}

impl<'a> Tableau<'a> {
    pub fn new(pool: &'a FormulaPool) -> Tableau<'a> {
        Tableau {
            pool,
            formulas: Vec::new(pool.alloc),
            places: NumberMap::new(pool.alloc),
            known: NumberedLists::new(pool.alloc),
            choices: Vec::new(pool.alloc),
        }
    }

    pub fn alloc(&self) -> Global {
        self.pool.alloc
    }

    /// Returns the bit of a formula that is asked. Fails with `TooManyStates` if it is new and 64 others have one.
    fn bit(&mut self, f: u32) -> Attempt<u64> {
        if self.places.get(f) == NONE {
            if self.formulas.len() >= 64 {
                return Err(TranslateFault::TooManyStates);
            }
            self.places.set(f, count(self.formulas.len()))?;
            self.formulas.push(f)?;
        }
        Ok(1u64.wrapping_shl(self.places.get(f)))
    }

    /// Returns a formula as the set of the formulas that are asked, or `None` if it is false.
    pub fn asked(&mut self, f: u32) -> Attempt<Option<u64>> {
        match f {
            FALSE => return Ok(None),
            TRUE => return Ok(Some(0)),
            _ => {}
        }
        if self.pool.operator(f) != Operator::All {
            return Ok(Some(self.bit(f)?));
        }
        let mut set = 0;
        for part in self.pool.operands(f) {
            set |= self.bit(*part)?;
        }
        Ok(Some(set))
    }

    /// Returns the choices of a set at a letter.
    pub fn choices(&mut self, set: u64, letter: u32) -> Attempt<Vec<ChoiceBits>> {
        let mut all = vec![in self.pool.alloc; ChoiceBits::FREE; 1]?;
        for place in 0..count(self.formulas.len()) {
            if set.wrapping_shr(place) & 1 == 1 {
                let number = self.choices_of_place(place, letter)?;
                if let Some(choices) = self.choices.get(number as usize) {
                    all = together(self.pool.alloc, &all, choices)?;
                }
            }
        }
        Ok(all)
    }

    /// Returns the number of the list of a formula's choices at a letter.
    fn choices_of_place(&mut self, place: u32, letter: u32) -> Attempt<u32> {
        let f = at(&self.formulas, place);
        let number = self
            .known
            .number(&[place, letter & self.pool.facts(f).propositions])?;
        if number as usize >= self.choices.len() {
            let choices = self.expanded(f, letter)?;
            self.choices.push(choices)?;
        }
        Ok(number)
    }

    /// Returns the choices of a formula, from those of its parts.
    fn expanded(&mut self, f: u32, letter: u32) -> Attempt<Vec<ChoiceBits>> {
        let mut places = NumberMap::new(self.pool.alloc);
        let mut found: Vec<Vec<ChoiceBits>> = Vec::new(self.pool.alloc);
        for part in &self.pool.parts(f, Followed::Now)? {
            let choices = self.expanded_part(*part, letter, &places, &found)?;
            places.set(*part, count(found.len()))?;
            found.push(choices)?;
        }
        Ok(found.pop().unwrap_or(Vec::new(self.pool.alloc)))
    }

    fn expanded_part(
        &mut self,
        f: u32,
        letter: u32,
        places: &NumberMap,
        found: &[Vec<ChoiceBits>],
    ) -> Attempt<Vec<ChoiceBits>> {
        let alloc = self.pool.alloc;
        let parts = PartChoices { places, found };
        match (self.pool.operator(f), self.pool.operands(f)) {
            (Operator::True, _) => one_choice(alloc, ChoiceBits::FREE),
            (Operator::Literal(p, value), _) => {
                if (letter.wrapping_shr(p) & 1 == 1) == value {
                    one_choice(alloc, ChoiceBits::FREE)
                } else {
                    Ok(Vec::new(alloc))
                }
            }
            (Operator::All, operands) => parts.all(alloc, operands),
            (Operator::Any, operands) => parts.any(alloc, operands),
            (Operator::Next, [g]) => self.expanded_next(*g),
            (Operator::Until, [g, h]) => {
                let here = self.bit(f)?;
                parts.until(alloc, *g, *h, here)
            }
            (Operator::Release, [g, h]) => {
                let here = self.bit(f)?;
                parts.release(alloc, *g, *h, here)
            }
            _ => Ok(Vec::new(alloc)),
        }
    }

    /// Returns the choice to ask for a formula from the next step on, or none if the formula is false.
    fn expanded_next(&mut self, g: u32) -> Attempt<Vec<ChoiceBits>> {
        match self.asked(g)? {
            Some(asks) => one_choice(self.pool.alloc, ChoiceBits { asks, puts: 0 }),
            None => Ok(Vec::new(self.pool.alloc)),
        }
    }
}

/// Returns a list of one choice.
fn one_choice(alloc: Global, choice: ChoiceBits) -> Attempt<Vec<ChoiceBits>> {
    Ok(Vec::from_slice(alloc, &[choice])?)
}

/// The choices of the parts of a formula; `places` has the place of each part's list.
#[derive(Clone, Copy)]
struct PartChoices<'a> {
    places: &'a NumberMap,
    found: &'a [Vec<ChoiceBits>],
}

impl PartChoices<'_> {
    fn of(&self, g: u32) -> &[ChoiceBits] {
        match self.found.get(self.places.get(g) as usize) {
            Some(choices) => choices.as_slice(),
            None => &[],
        }
    }

    /// Returns the choices of a conjunction.
    fn all(&self, alloc: Global, operands: &[u32]) -> Attempt<Vec<ChoiceBits>> {
        let mut all = one_choice(alloc, ChoiceBits::FREE)?;
        for part in operands {
            all = together(alloc, &all, self.of(*part))?;
        }
        Ok(all)
    }

    /// Returns the choices of a disjunction.
    fn any(&self, alloc: Global, operands: &[u32]) -> Attempt<Vec<ChoiceBits>> {
        let mut all = Vec::new(alloc);
        for part in operands {
            all = either(alloc, &all, self.of(*part))?;
        }
        Ok(all)
    }

    /// Returns the choices of `g U h`, whose bit is `here`.
    fn until(&self, alloc: Global, g: u32, h: u32, here: u64) -> Attempt<Vec<ChoiceBits>> {
        let later = [ChoiceBits {
            asks: here,
            puts: here,
        }];
        let wait = together(alloc, self.of(g), &later)?;
        either(alloc, self.of(h), &wait)
    }

    /// Returns the choices of `g R h`, whose bit is `here`.
    fn release(&self, alloc: Global, g: u32, h: u32, here: u64) -> Attempt<Vec<ChoiceBits>> {
        let later = [ChoiceBits {
            asks: here,
            puts: 0,
        }];
        let free = either(alloc, self.of(g), &later)?;
        together(alloc, self.of(h), &free)
    }
}
