//! Adds vertices to a part.

ghost use Rattle.std.specs.Prelude.{◌≡◌, ◌↔◌, ◌<◌, ◌≤◌, length, map, All, AllPairs, IfOk, IsTrue};
ghost use Rattle.pg_wire.specs.Lines.{head_of, line_with};
ghost use Rattle.pg_wire.specs.Well.{IsVertexLine};
ghost use Rattle.pg_coord_partition.specs.Frames.{told_line, player};
ghost use Rattle.pg_worker.specs.Workers.{with_lines, HasBound, FitsGame};
ghost use Rattle.pg_worker.specs.Mirrors.Insides.{IsNext};

use pg_arena::{Player, Vertex};
use pg_map_lift::{Lifter, Part, PartLine};
use pg_measure::Bounds;
use pg_wire::{LineHead, VertexLine};
use std::alloc::{AllocError, Global};
use std::collections::VecDeque;

/// Returns the player with this number: Even for 0, Odd otherwise.
fn player(number: u8) -> Player
    ensures { result ≡ player number }
{
    if number == 0 {
        Player::Even
    } else {
        Player::Odd
    }
}

/// Makes the line of a vertex from its head and its successors.
pub(crate) fn new_line(
    alloc: Global,
    head: LineHead,
    successors: &[u32],
) -> Result<PartLine, AllocError>
    ensures { IfOk result (λ l. l ≡ told_line (line_with head successors.now)) }
{
    PartLine::new(alloc, head.priority, player(head.owner), successors)
}

/// Returns the head of a line.
fn head_of(line: &VertexLine) -> LineHead
    ensures { result ≡ head_of line.now }
{
    LineHead {
        vertex: line.vertex,
        priority: line.priority,
        owner: line.owner,
    }
}

/// Makes the part's lines from lines of a frame.
pub(crate) fn new_lines(
    alloc: Global,
    lines: &[VertexLine],
) -> Result<VecDeque<PartLine>, AllocError>
    ensures { IfOk result (λ ls. ls.items ≡ map told_line lines.now) }
{
    let mut held = VecDeque::new(alloc);
    for line in lines {
        let line = new_line(alloc, head_of(line), line.successors.as_slice())?;
        held.push_back(line)?;
    }
    Ok(held)
}

/// Adds vertices, which rise from `next` on, given by the lines of the frame and by the part's lines that were made from
/// them.
pub(crate) fn add_lines(
    lifter: &mut Lifter<Part>,
    next: &mut u64,
    lines: &[VertexLine],
    mut held: VecDeque<PartLine>,
)
    requires size { length lifter.old.lines ≡ length lifter.old.map.measures }
    requires next { IsNext lifter.old.lines next.old }
    requires above { All (λ l. next.old ≤ l.vertex) lines.now }
    requires below { All (λ l. l.vertex < length lifter.old.lines) lines.now }
    requires within { All (λ l. All (λ w. w < length lifter.old.lines) l.successors) lines.now }
    requires lines { All IsVertexLine lines.now }
    requires rising { AllPairs (λ l m. l.vertex < m.vertex) lines.now }
    requires held { held.items ≡ map told_line lines.now }
    ensures next { IsNext lifter.new.lines next.new }
    ensures lines { lifter.new.lines ≡ with_lines lifter.old.lines lines.now }
    ensures map { lifter.new.map ≡ lifter.old.map }
{
    for line in lines {
        let Some(new) = held.pop_front() else {
            return;
        };
        lifter.add(Vertex(line.vertex), new);
        *next = u64::from(line.vertex) + 1;
    }
}

/// Returns the number of edges that the lines have.
pub(crate) fn count_edges(lines: &[VertexLine]) -> usize {
    let mut count = 0usize;
    for line in lines {
        count = count.saturating_add(line.successors.as_slice().len());
    }
    count
}

/// Whether all the vertices are at least `next`.
pub(crate) fn are_from(next: u64, lines: &[VertexLine]) -> bool
    ensures { IsTrue result ↔ All (λ l. next ≤ l.vertex) lines.now }
{
    lines.iter().all(|line| next <= u64::from(line.vertex))
}

/// Whether an odd priority has a bound.
fn has_bound(bounds: &Bounds, priority: u32) -> bool
    ensures { IsTrue result ↔ HasBound bounds.now priority }
{
    if priority % 2 == 0 {
        return true;
    }
    let count = bounds.width_from(priority);
    count > 0 && bounds.pairs()[count - 1].0 == priority
}

/// Whether the vertex and its successors are below the count, and an odd priority has a bound.
pub(crate) fn fits_line(bounds: &Bounds, count: u32, head: LineHead, successors: &[u32]) -> bool
    ensures { IsTrue result ↔ FitsGame bounds.now count (line_with head successors.now) }
{
    head.vertex < count && successors.iter().all(|w| *w < count) && has_bound(bounds, head.priority)
}

/// Whether a line fits the game, as `fits_line` decides.
fn fits_game(bounds: &Bounds, count: u32, line: &VertexLine) -> bool
    ensures { IsTrue result ↔ FitsGame bounds.now count line.now }
{
    fits_line(bounds, count, head_of(line), line.successors.as_slice())
}

/// Whether all the lines fit the game.
pub(crate) fn fit_game(bounds: &Bounds, count: u32, lines: &[VertexLine]) -> bool
    ensures { IsTrue result ↔ All (FitsGame bounds.now count) lines.now }
{
    lines.iter().all(|line| fits_game(bounds, count, line))
}
