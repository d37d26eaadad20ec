//! The part of a game that a player wins, as a game of its own: other vertices and edges decide nothing of the player's measures.
//!
//! If the opponent gets to its own priorities from few vertices, the game has only these. All others have zeros, since the player can stay
//! among them; one of them stands for all.

use pg_arena::Player;
use pg_search_components::{NONE, at, count, put};
use pg_search_winners::{Graph, Winners};
use std::alloc::{AllocError, Global};

/// Vertices are few if they are found by looks at no more than one in this many vertices and edges.
const FEW: u64 = 16;

/// The number of the vertex that stands for those with zeros.
const GROUND: u32 = 0;

/// The vertices that a player wins, numbered in the order that shows it, so that edges mostly lead to numbers nearby.
#[derive(Drop)]
pub(crate) struct WonRegion {
    /// Even is 0, Odd is 1.
    pub player: u32,
    /// The number of each vertex of the whole game that the player wins, and `NONE` for all others.
    pub numbers: Vec<u32>,
    /// The vertex of each number.
    pub vertices: Vec<u32>,
    pub graph: Graph,
    /// What the player chooses at each vertex of its own.
    pub choices: Vec<u32>,
}

impl WonRegion {
    pub fn of(
        alloc: Global,
        whole: &Graph,
        winners: &Winners,
        player: Player,
    ) -> Result<WonRegion, AllocError> {
        let won = match player {
            Player::Even => &winners.of_even,
            Player::Odd => &winners.of_odd,
        };
        let mut numbering = Numbering::new(alloc, whole, winners, player)?;
        let is_few = numbering.number_rising(won)?;
        if !is_few {
            numbering.number_all(won)?;
        }
        let Numbering {
            player,
            numbers,
            vertices,
            ..
        } = numbering;
        let mut choices = Vec::with_capacity(alloc, vertices.len())?;
        for v in &vertices {
            choices.push(at(&numbers, at(&winners.choice, *v)))?;
        }
        if is_few {
            put(&mut choices, GROUND, GROUND);
        }
        let graph = whole.part(alloc, &vertices, &numbers)?;
        Ok(WonRegion {
            player,
            numbers,
            vertices,
            graph,
            choices,
        })
    }
}

/// The numbers of the vertices that a player wins, as they are given out.
#[derive(Drop)]
struct Numbering<'a> {
    whole: &'a Graph,
    player: u32,
    numbers: Vec<u32>,
    vertices: Vec<u32>,
    looks: u64,
}

impl<'a> Numbering<'a> {
    /// Gives each vertex that the player wins the number of the one that stands for all; no vertex has a number of its own yet.
    fn new(
        alloc: Global,
        whole: &'a Graph,
        winners: &Winners,
        player: Player,
    ) -> Result<Numbering<'a>, AllocError> {
        let mut numbers = Vec::with_capacity(alloc, winners.winner.len())?;
        for winner in &winners.winner {
            numbers.push(if *winner == player { GROUND } else { NONE })?;
        }
        Ok(Numbering {
            whole,
            player: match player {
                Player::Even => 0,
                Player::Odd => 1,
            },
            numbers,
            vertices: vec![in alloc; NONE; 1]?,
            looks: 0,
        })
    }

    /// Numbers all vertices that the player won.
    fn number_all(&mut self, won: &[u32]) -> Result<(), AllocError> {
        for (number, v) in won.iter().enumerate() {
            put(&mut self.numbers, *v, count(number));
        }
        self.vertices.clear();
        self.vertices.extend_from_slice(won)
    }

    /// Numbers the vertices from which the opponent gets to one of its own priorities. Returns false if they aren't few, or are all.
    fn number_rising(&mut self, won: &[u32]) -> Result<bool, AllocError> {
        for v in won {
            if self.whole.priority(*v) % 2 != self.player {
                self.number(*v)?;
            }
            if self.is_late() {
                return Ok(false);
            }
        }
        for place in 1..usize::MAX {
            let Some(w) = self.vertices.get(place).copied() else {
                break;
            };
            self.number_predecessors(w)?;
            if self.is_late() {
                return Ok(false);
            }
        }
        let ground = won.iter().copied().find(|v| self.is_ground(*v));
        if let Some(v) = ground {
            put(&mut self.vertices, GROUND, v);
        }
        Ok(ground.is_some())
    }

    fn is_late(&self) -> bool {
        let size = u64::from(self.whole.len()).saturating_add(u64::from(self.whole.edges()));
        self.looks > size / FEW
    }

    /// Whether the player won a vertex that has no number of its own.
    #[inline(always)]
    fn is_ground(&self, v: u32) -> bool {
        at(&self.numbers, v) == GROUND
    }

    fn number(&mut self, v: u32) -> Result<(), AllocError> {
        put(&mut self.numbers, v, count(self.vertices.len()));
        self.vertices.push(v)?;
        self.looks = self.looks.saturating_add(1);
        Ok(())
    }

    /// Numbers the predecessors of a vertex from which the opponent gets to it.
    fn number_predecessors(&mut self, w: u32) -> Result<(), AllocError> {
        let whole = self.whole;
        for v in whole.predecessors(w) {
            self.looks = self.looks.saturating_add(1);
            if !self.is_ground(*v) {
                continue;
            }
            let row = whole.successors(*v);
            self.looks = self.looks.saturating_add(row.len() as u64);
            if whole.owner(*v) != self.player || !row.iter().any(|u| self.is_ground(*u)) {
                self.number(*v)?;
            }
        }
        Ok(())
    }
}
