//! Builds games line by line.

ghost use Rattle.std.specs.Prelude.{◌≡◌, ◌++◌, ◌∷◌, [], IsTrue, OnOk, OnErr, IfOk, IfErr, MatchResult, List, option_copied};
ghost use Rattle.std.specs.List.Sorted.{IsStrictlyIncreasing};
ghost use Rattle.pg_arena.specs.declared.fault.ArenaFault.TheVariants.{OutOfMemory};
ghost use Rattle.pg_arena.specs.Games.{GameVertex, HasPrioritiesUpTo};
ghost use Rattle.pg_arena.specs.Lines.{Line, line_with, counted, add_fault, Answers, IsGameOf, FinishFails};
ghost use Rattle.pg_list_lemmas.specs.Rising.{rising};

use crate::fault::ArenaFault;
use crate::game::Game;
use crate::limits::MAX_PRIORITY;
use crate::lines::GivenLines;
use crate::player::Player;
use std::alloc::{AllocError, Global};
use std::marker::Model;

/// A builder that takes the lines of a game one after another; a line describes one vertex. Contracts see the list of
/// the lines that it took.
#[derive(Drop)]
pub struct GameBuilder {
    lines: GivenLines,
    buffer: Vec<u32>,
}

impl Model for GameBuilder {
    ghost use Rattle.std.specs.Prelude.{List};
    ghost use Rattle.pg_arena.specs.Lines.{Line};

    ghost Value = { List Line };

    ghost view = { λ b. b.lines };
}

impl GameBuilder {
    /// Returns a builder without lines.
    pub fn new(alloc: Global) -> GameBuilder
        ensures { result ≡ [] }
    {
        GameBuilder {
            lines: GivenLines::new(alloc),
            buffer: Vec::new(alloc),
        }
    }

    /// Adds a line: a vertex by its identifier, with its successors by theirs, in any order. A repeated successor
    /// counts once.
    ///
    /// It fails with the first of these that applies: `PriorityTooLarge` for a priority over 65,535; `NoSuccessor`;
    /// `DuplicateVertex` if an earlier line has the identifier; `TooManyVertices` after 1,048,576 lines; `TooManyEdges`
    /// if there would be more than 8,388,608 edges. `OutOfMemory` can come at any point. After a fault the builder is
    /// as it was.
    #[inline(always)]
    pub fn add(
        &mut self,
        identifier: u32,
        priority: u32,
        owner: Player,
        successors: &[u32],
        name: Option<&[u8]>,
    ) -> Result<(), ArenaFault>
        ensures answer { Answers result (add_fault self.old (counted (line_with identifier priority owner successors.now name.entry))) }
        ensures ok { OnOk result (self.new ≡ self.old ++ counted (line_with identifier priority owner successors.now name.entry) ∷ []) }
        ensures err { OnErr result (self.new ≡ self.old) }
    {
        if rise(successors) {
            return self
                .lines
                .add(identifier, priority, owner, successors, name);
        }
        put_each_once(&mut self.buffer, successors)?;
        self.lines
            .add(identifier, priority, owner, &self.buffer, name)
    }

    /// Makes the game of the lines, which may have come in any order.
    ///
    /// It fails with `NoVertex` if there is no line; then with `UnknownSuccessor` if no line defines some successor: it
    /// names the least identifier whose line has such a successor, and the least of these successors. Otherwise it
    /// fails only with `OutOfMemory`, which may come before `UnknownSuccessor`.
    pub fn finish(self) -> Result<Game, ArenaFault>
        ensures game { IfOk result (λ game. IsGameOf self game) }
        ensures only { (game : List GameVertex) → IsGameOf self game
            → MatchResult result (λ g. g ≡ game) (λ e. e ≡ OutOfMemory) }
        ensures priorities { IfOk result (HasPrioritiesUpTo MAX_PRIORITY) }
        ensures fault { IfErr result (λ fault. FinishFails self fault) }
    {
        let GameBuilder { lines, buffer: _ } = self;
        lines.finish()
    }
}

/// Whether each number is below the next.
fn rise(numbers: &[u32]) -> bool
    ensures { IsTrue result → IsStrictlyIncreasing numbers.now }
{
    numbers.is_sorted_by(|a, b| a < b)
}

/// Replaces the list with the numbers, each once, the least first.
fn put_each_once(list: &mut Vec<u32>, numbers: &[u32]) -> Result<(), AllocError>
    ensures { OnOk result (list.new.items ≡ rising numbers.now) }
{
    list.clear();
    list.extend_from_slice(numbers)?;
    list.sort_unstable();
    list.dedup();
    Ok(())
}
