//! What one player wins, as seen by that player, for whom the least map is sought: this player is called the winner.

use crate::rows::{Rows, ZEROS};
use pg_search_components::{NONE, at, count};
use pg_search_winners::Graph;
use std::alloc::{AllocError, Global};

/// What is known of a vertex.
#[derive(Clone, Copy)]
pub struct State {
    pub row: u32,
    /// Four times the priority, plus 2 if the vertex waits, plus 1 if the winner owns it.
    key: u32,
    /// At a vertex of the winner, the successor that serves it or that a strategy chooses. Elsewhere one that holds the row, or
    /// `NONE`.
    pub to: u32,
}

const WAITS: u32 = 2;

const MINE: u32 = 1;

impl State {
    /// The state past the last vertex.
    const NOWHERE: State = State {
        row: ZEROS,
        key: 0,
        to: NONE,
    };

    #[inline(always)]
    pub fn priority(&self) -> u32 {
        self.key / 4
    }

    #[inline(always)]
    pub fn is_mine(&self) -> bool {
        self.key & MINE != 0
    }
}

/// The map of one player, on a graph of the vertices that it wins. For Odd, priorities are raised by one, so that the winner's are
/// even for both players.
#[derive(Drop)]
pub struct Side<'a> {
    pub graph: &'a Graph,
    pub rows: Rows,
    states: Vec<State>,
    /// Even is 0, Odd is 1.
    pub player: u32,
    /// The number of vertices and edges that were looked at, and the most that may be.
    pub looks: u64,
    most: u64,
    /// What `look_ahead` saw last, which nothing reads.
    seen: u32,
}

impl<'a> Side<'a> {
    /// Begins with zeros everywhere, and with these choices at the player's vertices. It is late after `most` looks.
    pub fn new(
        alloc: Global,
        graph: &'a Graph,
        player: u32,
        choices: &[u32],
        most: u64,
    ) -> Result<Side<'a>, AllocError> {
        let mut states = Vec::with_capacity(alloc, graph.len() as usize)?;
        for v in 0..graph.len() {
            let is_mine = graph.owner(v) == player;
            let priority = graph.priority(v).saturating_add(player);
            states.push(State {
                row: ZEROS,
                key: priority.saturating_mul(4) | is_mine as u32,
                to: if is_mine { at(choices, v) } else { NONE },
            })?;
        }
        Ok(Side {
            graph,
            rows: Rows::new(alloc)?,
            states,
            player,
            looks: 0,
            most,
            seen: 0,
        })
    }

    /// Returns the number of vertices.
    pub fn len(&self) -> u32 {
        count(self.states.len())
    }

    #[inline(always)]
    pub fn state(&self, v: u32) -> State {
        if (v as usize) < self.states.len() {
            self.states[v as usize]
        } else {
            State::NOWHERE
        }
    }

    #[inline(always)]
    pub fn row(&self, v: u32) -> u32 {
        self.state(v).row
    }

    #[inline(always)]
    pub fn set_row(&mut self, v: u32, row: u32) {
        if (v as usize) < self.states.len() {
            self.states[v as usize].row = row;
        }
    }

    #[inline(always)]
    pub fn set_to(&mut self, v: u32, to: u32) {
        if (v as usize) < self.states.len() {
            self.states[v as usize].to = to;
        }
    }

    /// Lets a vertex wait, and lists it, if it doesn't wait yet.
    #[inline(always)]
    pub fn wake(&mut self, v: u32, waiting: &mut Vec<u32>) -> Result<(), AllocError> {
        if (v as usize) < self.states.len() && self.states[v as usize].key & WAITS == 0 {
            self.states[v as usize].key |= WAITS;
            waiting.push(v)?;
        }
        Ok(())
    }

    /// Notes that a vertex no longer waits.
    #[inline(always)]
    pub fn waits_no_more(&mut self, v: u32) {
        if (v as usize) < self.states.len() {
            self.states[v as usize].key &= !WAITS;
        }
    }

    /// Returns the successors of a vertex, and counts a look at each.
    #[inline(always)]
    pub fn successors(&mut self, v: u32) -> &'a [u32] {
        let graph = self.graph;
        let successors = graph.successors(v);
        self.looks = self.looks.wrapping_add(successors.len() as u64);
        successors
    }

    /// Returns the predecessors of a vertex, and counts a look at each of them and at the vertex.
    #[inline(always)]
    pub fn predecessors(&mut self, v: u32) -> &'a [u32] {
        let graph = self.graph;
        let predecessors = graph.predecessors(v);
        self.looks = self
            .looks
            .wrapping_add(1)
            .wrapping_add(predecessors.len() as u64);
        predecessors
    }

    /// Reads what is needed soon when the predecessors of the vertices in a list are looked at, so that nothing has to wait for it
    /// then.
    #[inline(always)]
    pub fn look_ahead(&mut self, list: &[u32], place: usize) {
        let graph = self.graph;
        let mut seen = 0;
        if let Some(w) = list.get(place.wrapping_add(12)) {
            seen ^= count(graph.predecessors(*w).len());
        }
        if let Some(w) = list.get(place.wrapping_add(8)) {
            seen ^= graph.predecessors(*w).first().copied().unwrap_or(0);
        }
        if let Some(w) = list.get(place.wrapping_add(4)) {
            for v in graph.predecessors(*w).iter().take(4) {
                seen ^= self.row(*v);
            }
        }
        self.seen ^= seen;
    }

    /// Whether there were more looks than there may be.
    pub fn is_late(&self) -> bool {
        self.looks > self.most
    }

    /// Forgets all rows: each vertex has zeros again.
    pub fn clear(&mut self, alloc: Global) -> Result<(), AllocError> {
        self.rows = Rows::new(alloc)?;
        for v in 0..self.len() {
            self.set_row(v, ZEROS);
        }
        Ok(())
    }

    /// Sets what the winner chooses.
    pub fn choose(&mut self, choices: &[u32]) {
        for v in 0..self.len() {
            if self.state(v).is_mine() {
                self.set_to(v, at(choices, v));
            }
        }
    }

    /// Whether the winner has at most one way to stay among what it wins, at each of its vertices.
    pub fn has_no_choice(&self) -> bool {
        (0..self.len()).all(|v| !self.state(v).is_mine() || self.graph.successors(v).len() <= 1)
    }
}
