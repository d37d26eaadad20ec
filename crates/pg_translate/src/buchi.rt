//! A Buchi automaton of a formula: the tableau with a counter of Untils.

use crate::components::ComponentRanks;
use crate::fault::{Attempt, TranslateFault};
use crate::numbers::{MOST_EDGES, between, count, is_marked, item, power, put, spread};
use crate::pool::FormulaPool;
use crate::tableau::{ChoiceBits, Tableau};
use indexmap::IndexSet;
use pg_search_components::{NumberedLists, TargetRows};
use std::alloc::Global;

/// Where an edge leads, and whether it accepts.
#[derive(Clone, Copy)]
struct BuchiEdge {
    target: u32,
    accepts: bool,
}

/// Lists of edges, one for each state and letter.
#[derive(Drop)]
struct Arcs {
    arcs: Vec<BuchiEdge>,
    /// Where the list of each state and letter ends.
    ends: Vec<u32>,
    letters: u32,
}

impl Arcs {
    fn states(&self) -> u32 {
        count(self.ends.len()) / self.letters.max(1)
    }

    /// Returns the edges of a state at a letter.
    fn of(&self, state: u32, letter: u32) -> &[BuchiEdge] {
        let place = state.saturating_mul(self.letters).saturating_add(letter);
        let begin = if place == 0 {
            0
        } else {
            item(&self.ends, place - 1, 0)
        };
        between(&self.arcs, begin, item(&self.ends, place, 0))
    }

    /// Returns all edges of a state.
    fn of_state(&self, state: u32) -> &[BuchiEdge] {
        let place = state.saturating_mul(self.letters);
        let begin = if place == 0 {
            0
        } else {
            item(&self.ends, place - 1, 0)
        };
        let last = place.saturating_add(self.letters).saturating_sub(1);
        between(&self.arcs, begin, item(&self.ends, last, 0))
    }
}

/// The automaton, with the targets of edges as bits.
#[derive(Drop)]
pub struct Buchi {
    pub letters: u32,
    /// How many 32-bit words hold a set of states.
    pub words: u32,
    /// For each state and letter, the set of all targets, and then the set of the targets of edges that accept.
    images: Vec<u32>,
}

impl Buchi {
    /// Returns the targets of a state at a letter: all, or only those of edges that accept.
    pub fn image(&self, state: u32, letter: u32, accepting: bool) -> &[u32] {
        let place = state.saturating_mul(self.letters).saturating_add(letter);
        let place = place.saturating_mul(2).saturating_add(accepting as u32);
        let from = place.saturating_mul(self.words);
        between(&self.images, from, from.saturating_add(self.words))
    }
}

/// The sets of a tableau: for each set and letter its choices, which are the number of the next set and the Untils that are put off.
#[derive(Drop)]
struct Sets {
    letters: u32,
    choices: Vec<ChoiceBits>,
    ends: Vec<u32>,
}

/// Returns the sets that are reached in the tableau of a formula over the propositions of a mask, and their choices.
fn sets_of(pool: &FormulaPool, f: u32, mask: u32) -> Attempt<Sets> {
    let mut tableau = Tableau::new(pool);
    let first = tableau.asked(f)?.unwrap_or(0);
    let mut found = Sets {
        letters: power(mask.count_ones()),
        choices: Vec::new(pool.alloc),
        ends: Vec::new(pool.alloc),
    };
    found.explore(&mut tableau, first, mask)?;
    Ok(found)
}

impl Sets {
    /// Finds the choices of a set and of each set that they lead to.
    fn explore(&mut self, tableau: &mut Tableau, first: u64, mask: u32) -> Attempt<()> {
        let mut sets = IndexSet::new(tableau.alloc());
        let _ = sets.insert_full(first)?;
        for place in 0..u32::MAX {
            let Some(set) = sets.get_index(place as usize).copied() else {
                break;
            };
            for local in 0..self.letters {
                let choices = tableau.choices(set, spread(local, mask))?;
                self.add(&choices, &mut sets)?;
            }
            if self.choices.len().max(self.ends.len()) > MOST_EDGES {
                return Err(TranslateFault::TooManyStates);
            }
        }
        Ok(())
    }

    /// Appends the choices of a set at a letter.
    fn add(&mut self, choices: &[ChoiceBits], sets: &mut IndexSet<u64>) -> Attempt<()> {
        for choice in choices {
            let (number, _) = sets.insert_full(choice.asks)?;
            self.choices.push(ChoiceBits {
                asks: number as u64,
                puts: choice.puts,
            })?;
        }
        self.ends.push(count(self.choices.len()))?;
        Ok(())
    }
}

impl Sets {
    /// Returns the choices of a set at a letter.
    fn of(&self, set: u32, letter: u32) -> &[ChoiceBits] {
        let place = set.saturating_mul(self.letters).saturating_add(letter);
        let begin = if place == 0 {
            0
        } else {
            item(&self.ends, place - 1, 0)
        };
        between(&self.choices, begin, item(&self.ends, place, 0))
    }

    /// Returns the Untils that are put off by some choice.
    fn puts(&self) -> u64 {
        let mut puts = 0;
        for choice in &self.choices {
            puts |= choice.puts;
        }
        puts
    }
}

/// Returns the next level of a counter, which passes the Untils that aren't put off; 64 after the last one.
fn next_level(level: u32, all: u64, puts: u64) -> u32 {
    let mut next = level;
    for _ in 0..64 {
        if next >= 64 || (all & puts).wrapping_shr(next) & 1 == 1 {
            break;
        }
        next = next.saturating_add(1);
    }
    next
}

impl Arcs {
    /// Appends the edges of a set with a level of the counter. An edge accepts if the counter comes to its end on it.
    fn add(
        &mut self,
        sets: &Sets,
        state: [u32; 2],
        all: u64,
        states: &mut NumberedLists<u32>,
    ) -> Attempt<()> {
        let [set, level] = state;
        for letter in 0..sets.letters {
            for choice in sets.of(set, letter) {
                let next = next_level(level, all, choice.puts);
                let accepts = next >= 64;
                let next = if accepts { 0 } else { next };
                let target = states.number(&[count(choice.asks as usize), next])?;
                self.arcs.push(BuchiEdge { target, accepts })?;
            }
            self.ends.push(count(self.arcs.len()))?;
        }
        Ok(())
    }
}

/// Returns the edges of states that are sets with a level of the counter.
fn counted(alloc: Global, sets: &Sets) -> Attempt<Arcs> {
    let all = sets.puts();
    let mut states = NumberedLists::new(alloc);
    states.number(&[0, 0])?;
    let mut found = Arcs {
        arcs: Vec::new(alloc),
        ends: Vec::new(alloc),
        letters: sets.letters,
    };
    for number in 0..u32::MAX {
        let [set, level] = *states.list(number) else {
            break;
        };
        found.add(sets, [set, level], all, &mut states)?;
        if found.arcs.len().max(found.ends.len()) > MOST_EDGES {
            return Err(TranslateFault::TooManyStates);
        }
    }
    Ok(found)
}

/// Finds the components of the edges.
fn ranks_of(alloc: Global, arcs: &Arcs) -> Attempt<ComponentRanks> {
    let mut rows = TargetRows::with_capacity(alloc, arcs.states() as usize)?;
    for state in 0..arcs.states() {
        for arc in arcs.of_state(state) {
            rows.push(arc.target)?;
        }
        rows.end()?;
    }
    ComponentRanks::new(alloc, &rows, arcs.states())
}

/// Returns for each component whether a word is accepted from it.
fn live_components(alloc: Global, arcs: &Arcs, ranks: &ComponentRanks) -> Attempt<Vec<bool>> {
    let mut is_live = vec![in alloc; false; ranks.many as usize]?;
    for state in &ranks.order(alloc)? {
        let rank = ranks.of(*state);
        for arc in arcs.of_state(*state) {
            let target = ranks.of(arc.target);
            if is_marked(&is_live, target) || arc.accepts && target == rank {
                put(&mut is_live, rank, true);
            }
        }
    }
    Ok(is_live)
}

/// Returns for each state whether a word is accepted from it.
fn live(alloc: Global, arcs: &Arcs) -> Attempt<Vec<bool>> {
    let ranks = ranks_of(alloc, arcs)?;
    let is_live = live_components(alloc, arcs, &ranks)?;
    let mut live = Vec::new(alloc);
    for state in 0..arcs.states() {
        live.push(is_marked(&is_live, ranks.of(state)))?;
    }
    Ok(live)
}

/// Returns the automaton of a formula over the propositions of a mask. Edges to states from which nothing is accepted are left out.
pub fn buchi_of(pool: &FormulaPool, f: u32, mask: u32) -> Attempt<Buchi> {
    let sets = sets_of(pool, f, mask)?;
    let arcs = counted(pool.alloc, &sets)?;
    let live = live(pool.alloc, &arcs)?;
    let mut buchi = without_edges(pool.alloc, &arcs)?;
    for state in 0..arcs.states() {
        for letter in 0..arcs.letters {
            let place = state.saturating_mul(arcs.letters).saturating_add(letter);
            buchi.add(place, arcs.of(state, letter), &live);
        }
    }
    Ok(buchi)
}

/// Returns the automaton with room for the edges, and none of them. Fails with `TooManyStates` if there are too many states.
fn without_edges(alloc: Global, arcs: &Arcs) -> Attempt<Buchi> {
    let words = arcs.states().div_ceil(32);
    let size = (arcs.ends.len() as u64)
        .saturating_mul(2)
        .saturating_mul(words as u64);
    if size > MOST_EDGES as u64 {
        return Err(TranslateFault::TooManyStates);
    }
    Ok(Buchi {
        letters: arcs.letters,
        words,
        images: vec![in alloc; 0u32; size as usize]?,
    })
}

impl Buchi {
    /// Adds the edges of a state at a letter, which lead to states from which something is accepted.
    fn add(&mut self, place: u32, arcs: &[BuchiEdge], live: &[bool]) {
        let from = place.saturating_mul(2).saturating_mul(self.words);
        for arc in arcs {
            if is_marked(live, arc.target) {
                add_bit(&mut self.images, from, arc.target);
                if arc.accepts {
                    add_bit(
                        &mut self.images,
                        from.saturating_add(self.words),
                        arc.target,
                    );
                }
            }
        }
    }
}

/// Adds a number to the set that begins at a place.
fn add_bit(words: &mut [u32], from: u32, number: u32) {
    let place = from.saturating_add(number / 32);
    let word = item(words, place, 0) | power(number % 32);
    put(words, place, word);
}
