//! Solves games over links.

ghost use Rattle.std.specs.Prelude.{IsTrue, ◌≡◌, ◌↔◌, ◌+◌, ◌<◌, ◌≤◌, ◌^◌, ℕ, List, Some, true, false, length, IfOk, IfSome, IfNone, OnOk, All, Err};
ghost use Rattle.pg_measure.specs.Games.{IsBoundsOf};
ghost use Rattle.pg_map.specs.Lines.{game_line};
ghost use Rattle.pg_map.specs.Maps.{zero_map, IsMap, IsClosed, IsNeverAbove, IsLeastProgressMeasure};
ghost use Rattle.pg_map.specs.Weights.{map_weight};
ghost use Rattle.pg_coord_rounds.specs.Solving.{IsMismatch, most_rounds};
ghost use Rattle.pg_coord_rounds.specs.Replies.{Reply, TellReplies, IsLeastOverReplies, received};
ghost use Rattle.pg_coord_rounds.specs.Mirrors.LinkStates.{AllInStep};
ghost use Rattle.pg_coord_rounds.specs.Mirrors.Telling.{AllTell};
ghost use Rattle.pg_coord_rounds.specs.Mirrors.Rounds.{Ends, IsSolvedFrom};
ghost use Rattle.pg_coord_rounds.specs.declared.fault.CoordFault.TheVariants.{CutMismatch};

use crate::coordinator_map::CoordinatorMap;
use crate::fault::CoordFault;
use crate::link_state::{LinkState, UNSET};
use crate::round::{make_round, prepare_all, set_up_all};
use crate::task::Task;
use pg_arena::Game;
use pg_coord_partition::{Cut, Link};
use pg_map::MeasureMap;
use pg_measure::Bounds;
use std::alloc::{AllocError, Global};

/// The map that `solve` found, and the numbers of rounds that it made, of restarts of links, and of links that it gave up.
/// The counts stop at 18,446,744,073,709,551,615. No clause says anything about the last two.
#[derive(Drop)]
pub struct Solved {
    pub map: MeasureMap,
    pub rounds: u64,
    pub restarts: u64,
    pub abandoned: u64,
}

/// Returns the number of restarts of the links.
fn restarts(states: &[LinkState]) -> u64 {
    let mut count = 0u64;
    for state in states {
        count = count.saturating_add(u64::from(state.restarts));
    }
    count
}

/// Returns the number of links that were given up.
fn abandoned(states: &[LinkState]) -> u64 {
    let mut count = 0u64;
    for state in states {
        if !state.in_use {
            count = count.saturating_add(1);
        }
    }
    count
}

/// Whether to give up after `rounds` rounds in which measures rose: if these are more than `most_rounds`, or no link is in
/// use. `u64::MAX` is no limit, and then the answer is false.
fn are_given_up(rounds: u64, most_rounds: u64, states: &[LinkState]) -> bool
    ensures { IsTrue result → most_rounds + 1 < 2 ^ 64 }
{
    most_rounds < u64::MAX && (rounds > most_rounds || states.iter().all(|state| !state.in_use))
}

/// Makes rounds until nothing rises in one, and returns their number, or None if they are given up. The row has a place for
/// each bound.
fn make_rounds<L: Link>(
    task: &Task<'_>,
    links: &mut [L],
    states: &mut [LinkState],
    coordinator: &mut CoordinatorMap,
    buffer: &mut Vec<u8>,
    row: &mut [u32],
    most_rounds: u64,
) -> Result<Option<u64>, AllocError>
    requires states { length states.old ≡ length links.old }
    requires few { length links.old < 2 ^ 32 }
    requires bounds { coordinator.old.map.bounds ≡ task.now.bounds }
    requires map { IsMap coordinator.old.map.bounds (length task.now.game) coordinator.old.map.measures }
    requires row { length row.old ≡ length task.now.bounds }
    requires rose { coordinator.old.rose ≡ true }
    ensures honest { All L.is_honest links.old → All L.is_honest links.new }
    ensures ends { IfOk result (Ends task.now.game
        (All L.is_honest links.old × AllInStep L.is_under task.now coordinator.old.map states.old links.old)
        (λ replies. AllTell L.told task.now states.old links.old (λ k. received 3 (replies k)))
        (length links.old) most_rounds coordinator.old.map coordinator.new.map) }
{
    let mut rounds = 0u64;
    'rounds: while coordinator.rose {
        if are_given_up(rounds, most_rounds, states) {
            return Ok(None);
        }
        make_round(task, links, states, coordinator, buffer, row)?;
        rounds = rounds.saturating_add(1);
    }
    Ok(Some(rounds))
}

/// Solves a task over links, starting from a map: sets the links up, and makes rounds over them. Returns None if the rounds
/// are given up.
fn work<L: Link>(
    task: &Task<'_>,
    links: &mut [L],
    from: MeasureMap,
    most_rounds: u64,
) -> Result<Option<Solved>, AllocError>
    requires few { length links.old < 2 ^ 32 }
    requires bounds { from.bounds ≡ task.now.bounds }
    requires size { length from.measures ≡ length task.now.game }
    ensures honest { All L.is_honest links.old → All L.is_honest links.new }
    ensures solved { IfOk result (λ o. IfSome o (IsSolvedFrom task.now.game (All L.is_honest links.old)
        (TellReplies L.told task.now.bounds task.now.cut links.old) (length links.old) from)) }
    ensures limited { IfOk result (λ o. IfNone o (most_rounds + 1 < 2 ^ 64)) }
{
    let alloc = task.alloc();
    let mut coordinator = CoordinatorMap::new(alloc, from)?;
    let mut places = vec![in alloc; UNSET; links.len()]?;
    let states = places.as_mut_slice();
    let mut row = vec![in alloc; 0; task.width() as usize]?;
    let mut buffer = Vec::new(alloc);
    prepare_all(links);
    set_up_all(task, links, states, &mut buffer)?;
    let made = make_rounds(
        task,
        links,
        states,
        &mut coordinator,
        &mut buffer,
        row.as_mut_slice(),
        most_rounds,
    )?;
    let Some(rounds) = made else {
        return Ok(None);
    };
    Ok(Some(Solved {
        map: coordinator.map,
        rounds,
        restarts: restarts(states),
        abandoned: abandoned(states),
    }))
}

/// Whether the cut is over the game's vertices and has as many workers as there are links.
fn fits(cut: &Cut, game: &Game, links: usize) -> bool
    ensures mismatch { result ≡ false ↔ IsMismatch (length game.now) links cut.now }
    ensures few { IsTrue result → links < 2 ^ 32 }
{
    cut.vertices() == game.len() && cut.workers() as usize == links
}

/// Makes the map with zeros for the game. It fails with `CutMismatch` if and only if the cut doesn't fit, and otherwise
/// only if memory runs out.
fn zero_of(alloc: Global, game: &Game, cut: &Cut, links: usize) -> Result<MeasureMap, CoordFault>
    ensures bounds { IfOk result (λ m. IsBoundsOf game.now m.bounds) }
    ensures zeros { IfOk result (λ m. m.measures ≡ zero_map m.bounds (length game.now)) }
    ensures few { OnOk result (links < 2 ^ 32) }
    ensures mismatch { result ≡ Err CutMismatch ↔ IsMismatch (length game.now) links cut.now }
{
    if !fits(cut, game, links) {
        return Err(CoordFault::CutMismatch);
    }
    let bounds = Bounds::of(alloc, game)?;
    Ok(MeasureMap::zero(alloc, game.len() as u32, &bounds)?)
}

/// Solves a game over links: worker k + 1 of the cut is behind link k, and makes at most `budget` lifts in a turn.
///
/// In a round the coordinator sends values and a Go over each link in use, and then reads the replies and joins their
/// values. If no value rose, it lifts each vertex that can be lifted itself, from 0 up. If none can be, the map is the
/// answer. The map is closed whatever the links answer. Over honest links it is the least progress measure. Over links
/// that tell their replies it is the least closed map that is at least every value in the replies that the coordinator
/// took: in each round one reply of each link, as long as the link had one left and had failed at most three times.
///
/// If a link fails, the coordinator restarts it and sets it up again, at most three times. Then it gives the link up,
/// and lifts that part here.
///
/// Faults: `CutMismatch` if and only if the cut doesn't have the game's vertices or its number of workers isn't the number
/// of links, and then the links stay as they were; `OutOfMemory` if memory runs out, here or in a link. Honest links stay
/// honest in every case.
pub fn solve<L: Link>(
    alloc: Global,
    game: &Game,
    links: &mut [L],
    cut: &Cut,
    budget: u32,
) -> Result<Solved, CoordFault>
    ensures bounds { IfOk result (λ s. IsBoundsOf game.now s.map.bounds) }
    ensures map { IfOk result (λ s. IsMap s.map.bounds (length game.now) s.map.measures) }
    ensures closed { IfOk result (λ s. IsClosed s.map.bounds (game_line game.now) s.map.measures) }
    ensures rounds { IfOk result (λ s. (1 ≤ s.rounds)
        × (s.rounds + map_weight s.map.bounds s.map.measures ≤ most_rounds (length game.now) s.map.bounds)) }
    ensures least { IfOk result (λ s. All L.is_honest links.old
        → IsLeastProgressMeasure s.map.bounds (length game.now) (game_line game.now) s.map.measures) }
    ensures told { IfOk result (λ s. (replies : ℕ → List Reply) → TellReplies L.told s.map.bounds cut.now links.old replies
        → IsLeastOverReplies (game_line game.now) s.rounds (length links.old) replies s.map) }
    ensures honest { All L.is_honest links.old → All L.is_honest links.new }
    ensures mismatch { result ≡ Err CutMismatch ↔ IsMismatch (length game.now) (length links.old) cut.now }
    ensures same { result ≡ Err CutMismatch → links.new ≡ links.old }
{
    match solve_within(alloc, game, links, cut, budget, u64::MAX)? {
        Some(solved) => Ok(solved),
        None => unreachable!(),
    }
}

/// Solves a game as `solve` does, but gives up after more than `limit` rounds in which measures rose, and when no link is
/// in use. Then it returns None, and you may use the links again. With `u64::MAX` it never gives up, even if no link is in
/// use.
///
/// Faults: as for `solve`.
pub fn solve_within<L: Link>(
    alloc: Global,
    game: &Game,
    links: &mut [L],
    cut: &Cut,
    budget: u32,
    limit: u64,
) -> Result<Option<Solved>, CoordFault>
    ensures bounds { IfOk result (λ o. IfSome o (λ s. IsBoundsOf game.now s.map.bounds)) }
    ensures map { IfOk result (λ o. IfSome o (λ s. IsMap s.map.bounds (length game.now) s.map.measures)) }
    ensures closed { IfOk result (λ o. IfSome o (λ s. IsClosed s.map.bounds (game_line game.now) s.map.measures)) }
    ensures rounds { IfOk result (λ o. IfSome o (λ s. (1 ≤ s.rounds)
        × (s.rounds + map_weight s.map.bounds s.map.measures ≤ most_rounds (length game.now) s.map.bounds))) }
    ensures least { IfOk result (λ o. IfSome o (λ s. All L.is_honest links.old
        → IsLeastProgressMeasure s.map.bounds (length game.now) (game_line game.now) s.map.measures)) }
    ensures told { IfOk result (λ o. IfSome o (λ s. (replies : ℕ → List Reply) → TellReplies L.told s.map.bounds cut.now links.old replies
        → IsLeastOverReplies (game_line game.now) s.rounds (length links.old) replies s.map)) }
    ensures limited { IfOk result (λ o. IfNone o (limit + 1 < 2 ^ 64)) }
    ensures honest { All L.is_honest links.old → All L.is_honest links.new }
    ensures mismatch { result ≡ Err CutMismatch ↔ IsMismatch (length game.now) (length links.old) cut.now }
    ensures same { result ≡ Err CutMismatch → links.new ≡ links.old }
{
    let zero = zero_of(alloc, game, cut, links.len())?;
    let task = Task::new(alloc, game, cut, zero.bounds(), budget)?;
    Ok(work(&task, links, zero, limit)?)
}
