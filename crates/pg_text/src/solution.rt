//! Solutions.

ghost use Rattle.std.specs.Prelude.{◌≡◌, ◌<◌, length, replicate, slice_set, IfOk};
ghost use Rattle.pg_arena.specs.Games.{IsGame};
ghost use Rattle.pg_text.specs.declared.answer.Answer.{Answer};
ghost use Rattle.pg_text.specs.Solutions.{unanswered, winner, choice};

use crate::answer::Answer;
use pg_arena::{Game, Player, Vertex};
use std::alloc::{AllocError, Global};
use std::marker::Model;

/// For each vertex of a game the winner, and optionally a successor that the winner chooses. Contracts see a solution
/// as the list of its answers, in the order of the vertex numbers.
#[derive(Drop)]
pub struct Solution {
    answers: Vec<Answer>,
}

impl Model for Solution {
    ghost use Rattle.std.specs.Prelude.{List};
    ghost use Rattle.pg_text.specs.declared.answer.Answer.{Answer};

    ghost Value = { List Answer };

    ghost view = { λ s. s.answers.items };
}

impl Solution {
    ghost use Rattle.pg_text.specs.declared.answer.Answer.{Answer};

    /// Returns a solution in which Even wins every vertex, without choices. Fails only if memory runs out.
    pub fn new(alloc: Global, game: &Game) -> Result<Solution, AllocError>
        ensures { IfOk result (λ s. s ≡ replicate (length game.now) unanswered) }
    {
        let unanswered = Answer {
            winner: Player::Even,
            choice: None,
        };
        let answers = vec![in alloc; unanswered; game.len()]?;
        Ok(Solution { answers })
    }

    /// Returns the number of vertices.
    pub fn len(&self) -> usize
        ensures { result ≡ length self.now }
    {
        self.answers.len()
    }

    /// Sets the winner and the choice at a vertex.
    pub fn set(&mut self, v: Vertex, winner: Player, choice: Option<Vertex>)
        requires { v < length self.old }
        ensures { self.new ≡ slice_set self.old v (record { winner = winner; choice = choice }) }
    {
        self.answers[v.0 as usize] = Answer { winner, choice };
    }

    /// Returns the winner of a vertex.
    pub fn winner(&self, v: Vertex) -> Player
        requires { v < length self.now }
        ensures { result ≡ winner self.now v }
    {
        self.answers[v.0 as usize].winner
    }

    /// Returns the successor that the winner chooses at a vertex, if there is a choice.
    pub fn choice(&self, v: Vertex) -> Option<Vertex>
        requires { v < length self.now }
        ensures { result ≡ choice self.now v }
    {
        self.answers[v.0 as usize].choice
    }
}
