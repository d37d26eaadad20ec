//! The tableau of a formula: sets of formulas that are asked for, and the choices that lead from one set to another.

use crate::bits::{Bits, LetterCube};
use crate::budget::{Limits, SearchResult};
use crate::choices::{Choices, CubeChoice, both, either, over, pruned, signals_of};
use crate::formulas::Formulas;
use crate::numbers::{NONE, NodeSpan, count, item};
use indexmap::IndexSet;
use pg_ltl::NormalNode;
use std::alloc::Global;

/// The position of a formula or the number of a set, and what is known of the signals on which its choices depend.
#[derive(Clone, Copy, PartialEq, Eq, Hash)]
struct AskedFormulas {
    number: u32,
    known: LetterCube,
}

/// A choice of a set: the number of the set that is asked for then, that of the set of Untils that are put off, and what signals have to
/// be that aren't known.
#[derive(Clone, Copy)]
pub struct Move {
    pub set: u32,
    pub puts: u32,
    pub sample: LetterCube,
}

/// The sets that were reached so far, and their moves.
#[derive(Drop)]
pub struct CubeTableau {
    alloc: Global,
    pub formulas: Formulas,
    /// Sets of formulas, none of which is implied by others of its set. The first set asks for the whole formula.
    pub sets: IndexSet<Bits>,
    /// The signals on which the choices of each set depend.
    signals: Vec<Bits>,
    /// Sets of Untils that are put off.
    pub puts: IndexSet<Bits>,
    /// The formulas whose choices are known; `choices` has these.
    formulas_known: IndexSet<AskedFormulas>,
    choices: Vec<Choices>,
    /// The sets whose moves are known; `spans` says where these are.
    sets_known: IndexSet<AskedFormulas>,
    spans: Vec<NodeSpan>,
    moves: Vec<Move>,
}

impl CubeTableau {
    /// Makes a tableau that has only the set which asks for the whole formula.
    pub fn new(alloc: Global, formulas: Formulas) -> SearchResult<CubeTableau> {
        let start = formulas.bits(formulas.root());
        let mut tableau = CubeTableau {
            alloc,
            formulas,
            sets: IndexSet::new(alloc),
            signals: Vec::new(alloc),
            puts: IndexSet::new(alloc),
            formulas_known: IndexSet::new(alloc),
            choices: Vec::new(alloc),
            sets_known: IndexSet::new(alloc),
            spans: Vec::new(alloc),
            moves: Vec::new(alloc),
        };
        let _ = tableau.set(start)?;
        Ok(tableau)
    }

    /// Returns the number of a set without the formulas that others of it imply.
    fn set(&mut self, asks: Bits) -> SearchResult<u32> {
        let set = self.formulas.least(asks);
        let (number, is_new) = self.sets.insert_full(set)?;
        if is_new {
            self.signals.push(self.formulas.signals(set))?;
        }
        Ok(count(number))
    }

    /// Returns the formulas of a set.
    pub fn asks(&self, set: u32) -> Bits {
        match self.sets.get_index(set as usize) {
            Some(asks) => *asks,
            None => Bits::EMPTY,
        }
    }

    /// Returns the Untils of a set of those that are put off.
    pub fn put_off(&self, puts: u32) -> Bits {
        match self.puts.get_index(puts as usize) {
            Some(untils) => *untils,
            None => Bits::EMPTY,
        }
    }

    /// Returns the move at a place.
    #[inline(always)]
    pub fn step(&self, place: u32) -> Move {
        let other = Move {
            set: 0,
            puts: 0,
            sample: LetterCube::FREE,
        };
        item(&self.moves, place, other)
    }

    /// Returns where the moves of a set are, where this is known of the signals.
    pub fn moves_of(
        &mut self,
        set: u32,
        known: LetterCube,
        limits: &mut Limits,
    ) -> SearchResult<NodeSpan> {
        let known = known.over(item(&self.signals, set, Bits::EMPTY));
        let (number, is_new) = self
            .sets_known
            .insert_full(AskedFormulas { number: set, known })?;
        if is_new {
            let asks = self.asks(set);
            let choices = self.choices_of_set(asks, known, limits)?;
            let span = self.add(&choices)?;
            self.spans.push(span)?;
        }
        Ok(item(&self.spans, count(number), NodeSpan::EMPTY))
    }

    /// Appends the moves that choices make, and returns where they are.
    fn add(&mut self, choices: &[CubeChoice]) -> SearchResult<NodeSpan> {
        let from = count(self.moves.len());
        for choice in choices {
            let set = self.set(choice.asks)?;
            let (puts, _) = self.puts.insert_full(choice.puts)?;
            self.moves.push(Move {
                set,
                puts: count(puts),
                sample: choice.sample,
            })?;
        }
        let to = count(self.moves.len());
        Ok(NodeSpan { from, to })
    }

    /// Returns the choices of a set, from those of its formulas' conjuncts. A signal doesn't matter any more after the last formula that depends on it.
    fn choices_of_set(
        &mut self,
        asks: Bits,
        known: LetterCube,
        limits: &mut Limits,
    ) -> SearchResult<Choices> {
        let (always, positions) = self.formulas.taken_apart(self.alloc, asks)?;
        let mut parts = self.parts(&positions, known, limits)?;
        let start = CubeChoice::asking(always, Bits::EMPTY);
        let mut all = vec![in self.alloc; start; 1]?;
        for _ in 0..positions.len() {
            let Some((_, number)) = parts.pop() else {
                break;
            };
            let later = self.signals_of_parts(&parts);
            let matter = later.or(signals_of(&all));
            let choices = over(self.alloc, self.known_choices(number), matter, limits)?;
            let joined = both(self.alloc, &all, &choices, limits)?;
            all = over(self.alloc, &joined, later, limits)?;
        }
        Ok(all)
    }

    /// Returns for each formula how many choices it has, and their number. Those with the fewest come last.
    fn parts(
        &mut self,
        positions: &[usize],
        known: LetterCube,
        limits: &mut Limits,
    ) -> SearchResult<Vec<(usize, u32)>> {
        let mut parts = Vec::with_capacity(self.alloc, positions.len())?;
        for position in positions {
            let number = self.choices_of(*position, known, limits)?;
            let many = self.known_choices(number).len();
            parts.push((many, number))?;
            if many == 0 {
                break;
            }
        }
        parts.sort_unstable();
        parts.reverse();
        Ok(parts)
    }

    /// Returns the signals that the choices of some formulas have.
    fn signals_of_parts(&self, parts: &[(usize, u32)]) -> Bits {
        let mut signals = Bits::EMPTY;
        for (_, number) in parts {
            signals = signals.or(signals_of(self.known_choices(*number)));
        }
        signals
    }

    /// Returns the choices with a number.
    fn known_choices(&self, number: u32) -> &[CubeChoice] {
        match self.choices.get(number as usize) {
            Some(choices) => choices.as_slice(),
            None => &[],
        }
    }

    /// Returns the number of the choices of the formula at a position.
    fn choices_of(
        &mut self,
        position: usize,
        known: LetterCube,
        limits: &mut Limits,
    ) -> SearchResult<u32> {
        let known = known.over(self.formulas.now(position));
        let number = count(position);
        let (found, is_new) = self
            .formulas_known
            .insert_full(AskedFormulas { number, known })?;
        if is_new {
            let choices = self.expand(position, known, limits)?;
            self.choices.push(choices)?;
        }
        Ok(count(found))
    }

    /// Returns the choices of the formula at a position.
    fn expand(
        &self,
        position: usize,
        known: LetterCube,
        limits: &mut Limits,
    ) -> SearchResult<Choices> {
        limits.spend(1)?;
        let alloc = self.alloc;
        let here = self.formulas.bits(position);
        match self.formulas.node_below(position) {
            NormalNode::Top => Ok(vec![in alloc; CubeChoice::FREE; 1]?),
            NormalNode::Bottom => Ok(Vec::new(alloc)),
            NormalNode::Literal(p, value) => self.literal(self.formulas.literal(p, value), known),
            NormalNode::Next(a) => {
                let later = CubeChoice::asking(self.formulas.bits(a), Bits::EMPTY);
                Ok(vec![in alloc; later; 1]?)
            }
            NormalNode::Both(a, b) => {
                let one = self.expand(a, known, limits)?;
                if one.is_empty() {
                    return Ok(one);
                }
                both(alloc, &one, &self.expand(b, known, limits)?, limits)
            }
            NormalNode::Either(a, b) => {
                let one = self.expand(a, known, limits)?;
                either(alloc, &one, &self.expand(b, known, limits)?, limits)
            }
            NormalNode::Until(a, b) => {
                let now = self.expand(b, known, limits)?;
                let later = [CubeChoice::asking(here, here)];
                let later = both(alloc, &later, &self.expand(a, known, limits)?, limits)?;
                either(alloc, &now, &later, limits)
            }
            NormalNode::Release(a, b) => {
                let now = self.expand(b, known, limits)?;
                let later = [CubeChoice::asking(here, Bits::EMPTY)];
                let ways = either(alloc, &self.expand(a, known, limits)?, &later, limits)?;
                both(alloc, &now, &ways, limits)
            }
        }
    }

    /// Returns the choices of a literal that says this.
    fn literal(&self, says: LetterCube, known: LetterCube) -> SearchResult<Choices> {
        let mut choices = Vec::new(self.alloc);
        if says.agrees(known) {
            let sample = if says.is_within(known) {
                LetterCube::FREE
            } else {
                says
            };
            let cube = if self.formulas.is_pure(says) {
                LetterCube::FREE
            } else {
                sample
            };
            choices.push(CubeChoice {
                cube,
                sample,
                ..CubeChoice::FREE
            })?;
        }
        Ok(choices)
    }
}
