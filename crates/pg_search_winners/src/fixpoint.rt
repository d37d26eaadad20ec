//! Fixpoint iteration with justifications (Ruben Lapauw, Maurice Bruynooghe and Marc Denecker, Improving Parity Game Solvers with
//! Justifications, 2020), on a part of the graph.
//!
//! Each vertex has a value: who wins it as things stand, which at first is the player of its priority. The next vertex looked at is
//! always the one of least priority that isn't justified. Its owner wins it if the owner wins a successor, which then justifies
//! that; otherwise the opponent wins it, and all successors justify that. When its value changes, whatever it justified begins
//! again. In the end all vertices are justified.

use crate::graph::Graph;
use crate::table::{FIRST, RegionTable, WAITING};
use pg_search_components::{NONE, at, put};
use std::alloc::{AllocError, Global};

/// A set of places: a bit for each place, and a bit for each word of these that isn't zero.
#[derive(Drop)]
struct Places {
    words: Vec<u32>,
    groups: Vec<u32>,
}

impl Places {
    /// Makes room for `many` places, and forgets the earlier ones.
    fn clear(&mut self, many: usize) -> Result<(), AllocError> {
        self.words.clear();
        self.groups.clear();
        for _ in 0..=many / 32 {
            self.words.push(0)?;
        }
        for _ in 0..=many / 1024 {
            self.groups.push(0)?;
        }
        Ok(())
    }

    fn put(&mut self, place: u32) {
        let word = place / 32;
        let group = word / 32;
        let words = at(&self.words, word) | 1 << (place % 32);
        let groups = at(&self.groups, group) | 1 << (word % 32);
        put(&mut self.words, word, words);
        put(&mut self.groups, group, groups);
    }

    /// Takes the first place out and returns it, or returns `NONE` if there is none.
    fn take(&mut self) -> u32 {
        let mut group = 0u32;
        for groups in &self.groups {
            if *groups != 0 {
                break;
            }
            group = group.saturating_add(1);
        }
        if group as usize >= self.groups.len() {
            return NONE;
        }
        let groups = at(&self.groups, group);
        let word = group
            .saturating_mul(32)
            .saturating_add(groups.trailing_zeros());
        let words = at(&self.words, word);
        let rest = words & words.wrapping_sub(1);
        put(&mut self.words, word, rest);
        if rest == 0 {
            put(&mut self.groups, group, groups & groups.wrapping_sub(1));
        }
        word.saturating_mul(32)
            .saturating_add(words.trailing_zeros())
    }
}

/// Added to a value that is justified.
const JUSTIFIED: u32 = 2;

#[derive(Drop)]
pub(crate) struct Fixpoint {
    /// The place of each vertex in the part, and the places of the vertices that aren't justified.
    places: Vec<u32>,
    open: Places,
    /// Who wins each vertex as things stand.
    values: Vec<u32>,
    /// The successor that justifies the value of each vertex, or `NONE` where all successors do.
    choices: Vec<u32>,
    /// The vertices that changed or begin again.
    changed: Vec<u32>,
}

impl Fixpoint {
    pub fn new(alloc: Global, vertices: u32) -> Result<Fixpoint, AllocError> {
        Ok(Fixpoint {
            places: vec![in alloc; NONE; vertices as usize]?,
            open: Places {
                words: Vec::new(alloc),
                groups: Vec::new(alloc),
            },
            values: vec![in alloc; 0; vertices as usize]?,
            choices: vec![in alloc; NONE; vertices as usize]?,
            changed: Vec::new(alloc),
        })
    }

    /// Begins with a part, whose vertices are given by rising priority.
    pub fn begin(&mut self, graph: &Graph, part: &[u32]) -> Result<(), AllocError> {
        self.open.clear(part.len())?;
        let mut place = 0u32;
        for v in part {
            put(&mut self.places, *v, place);
            put(&mut self.values, *v, graph.priority(*v) % 2);
            self.open.put(place);
            place = place.saturating_add(1);
        }
        Ok(())
    }

    /// Continues with the part until all is justified, and then puts each vertex into its winner's region. Returns false if that
    /// takes more than `looks` looks.
    pub fn run(
        &mut self,
        graph: &Graph,
        table: &mut RegionTable,
        part: &[u32],
        looks: u64,
    ) -> Result<bool, AllocError> {
        let most = table.looks.saturating_add(looks);
        for _ in 0..u64::MAX {
            if table.looks > most {
                break;
            }
            let place = self.open.take();
            if place == NONE {
                self.show(table, part);
                return Ok(true);
            }
            self.justify(graph, table, at(part, place))?;
        }
        Ok(false)
    }

    /// Puts each vertex into its winner's region, and sets what is chosen there.
    fn show(&self, table: &mut RegionTable, part: &[u32]) {
        for v in part {
            table.mark(*v, FIRST.saturating_add(at(&self.values, *v) % 2));
            put(&mut table.choices, *v, at(&self.choices, *v));
        }
    }

    /// Justifies the value of a vertex, or changes it.
    fn justify(
        &mut self,
        graph: &Graph,
        table: &mut RegionTable,
        v: u32,
    ) -> Result<(), AllocError> {
        let owner = graph.owner(v);
        let row = graph.successors(v);
        table.look(row.len().saturating_add(1));
        let mut choice = NONE;
        for w in row {
            if at(&self.values, *w) % 2 == owner && table.region(*w) >= WAITING {
                choice = *w;
                break;
            }
        }
        let winner = if choice == NONE { owner ^ 1 } else { owner };
        let before = at(&self.values, v);
        put(&mut self.choices, v, choice);
        put(&mut self.values, v, winner | JUSTIFIED);
        if before == winner {
            return Ok(());
        }
        self.changed.clear();
        self.changed.push(v)?;
        self.begin_again(graph, table, (winner ^ 1) | JUSTIFIED)
    }

    /// Lets each vertex begin again that has the given value and is justified by a vertex that changed.
    fn begin_again(
        &mut self,
        graph: &Graph,
        table: &mut RegionTable,
        value: u32,
    ) -> Result<(), AllocError> {
        for next in 0..usize::MAX {
            let Some(target) = self.changed.get(next).copied() else {
                break;
            };
            let predecessors = graph.predecessors(target);
            table.look(predecessors.len());
            for v in predecessors {
                let choice = at(&self.choices, *v);
                if at(&self.values, *v) != value || (choice != target && choice != NONE) {
                    continue;
                }
                if table.region(*v) >= WAITING {
                    put(&mut self.values, *v, graph.priority(*v) % 2);
                    self.open.put(at(&self.places, *v));
                    self.changed.push(*v)?;
                }
            }
        }
        Ok(())
    }
}
