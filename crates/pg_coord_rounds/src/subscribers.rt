//! The workers that need to know a vertex's measure.

use pg_arena::{Game, Vertex};
use pg_coord_partition::Cut;
use std::alloc::{AllocError, Global};

/// For each vertex the workers that subscribe to it: those that have a vertex whose successor it is. Workers whose numbers
/// are equal modulo 16 are treated as one.
#[derive(Drop)]
pub struct Subscribers {
    masks: Vec<u16>,
}

/// Returns the bit of a worker.
fn bit(worker: u32) -> u16 {
    1 << (worker % 16)
}

impl Subscribers {
    ghost use Rattle.std.specs.Prelude.{◌≡◌, length};

    /// Finds the subscribers of each vertex in a game with this cut.
    pub fn of(alloc: Global, game: &Game, cut: &Cut) -> Result<Subscribers, AllocError>
        requires { length cut.now.numbers ≡ length game.now }
    {
        let mut masks = vec![in alloc; 0; game.len()]?;
        for number in 0..game.len() {
            let v = Vertex(number as u32);
            let bit = bit(cut.worker_of(v));
            for w in game.successors(v) {
                if let Some(mask) = masks.get_mut(w.0 as usize) {
                    *mask |= bit;
                }
            }
        }
        Ok(Subscribers { masks })
    }

    /// Whether a worker subscribes to a vertex.
    pub fn include(&self, worker: u32, v: Vertex) -> bool {
        match self.masks.get(v.0 as usize) {
            Some(mask) => mask & bit(worker) != 0,
            None => false,
        }
    }
}
