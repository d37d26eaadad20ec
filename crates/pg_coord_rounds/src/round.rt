//! Rounds over the links.

ghost use Rattle.std.specs.Prelude.{◌≡◌, ◌+◌, ◌<◌, ◌≤◌, ◌^◌, ℕ, List, Some, true, false, length, take, drop, All, OnOk};
ghost use Rattle.pg_map.specs.Lines.{game_line};
ghost use Rattle.pg_map.specs.Maps.{MapValue, MapAtMost, IsClosed};
ghost use Rattle.pg_map.specs.Weights.{map_weight};
ghost use Rattle.pg_coord_partition.specs.Frames.{Joins};
ghost use Rattle.pg_coord_rounds.specs.Mirrors.Rounds.{IsFoundFrom};
ghost use Rattle.pg_coord_rounds.specs.Replies.{Reply, AreReplies, TellReplies, spelled_replies, measures_of, received};
ghost use Rattle.pg_coord_rounds.specs.Mirrors.Tasks.{IsClosedMap};
ghost use Rattle.pg_coord_rounds.specs.Mirrors.CoordinatorMaps.{Moves};
ghost use Rattle.pg_coord_rounds.specs.Mirrors.LinkStates.{IsInStep, AllInStep};
ghost use Rattle.pg_coord_rounds.specs.Mirrors.Telling.{TellsDense, Tells, IsMended, IsQueried, AllTell, AllQueried, JoinsEach, IsRoundOver};

use crate::coordinator_map::CoordinatorMap;
use crate::link_state::{LinkState, MOST_RESTARTS};
use crate::pass::end_round;
use crate::set_up::set_up;
use crate::task::Task;
use crate::turn::{query, receive_reply};
use pg_coord_partition::{Link, LinkFault};
use pg_wire::ValueKind;
use std::alloc::AllocError;

/// Restarts a link and sets it up again.
fn start_again<L: Link>(
    task: &Task<'_>,
    link: &mut L,
    worker: u32,
    kind: &mut ValueKind,
    buffer: &mut Vec<u8>,
) -> Result<(), LinkFault>
    ensures honest { L.is_honest link.old → L.is_honest link.new }
    ensures under { OnOk result (L.is_honest link.old → (h : MapValue) → IsClosedMap task.now h → L.is_under link.new h) }
    ensures told { (left : List (List ℕ)) → L.told link.old ≡ Some left
        → TellsDense left (L.told link.new) kind.new result }
{
    match link.restart() {
        Ok(()) => set_up(task, link, worker, kind, buffer),
        Err(fault) => Err(fault),
    }
}

/// Restarts a link that failed and sets it up again, until that succeeds or it was restarted three times. Then it is
/// abandoned.
fn mend<L: Link>(
    task: &Task<'_>,
    link: &mut L,
    worker: u32,
    state: &mut LinkState,
    buffer: &mut Vec<u8>,
) -> Result<(), AllocError>
    ensures honest { L.is_honest link.old → L.is_honest link.new }
    ensures in_step { OnOk result (L.is_honest link.old → (map : MapValue) → IsInStep L.is_under task.now map state.new link.new) }
    ensures told { (left : List (List ℕ)) → L.told link.old ≡ Some left → state.old.kind ≡ ValueKind.Dense
        → OnOk result ((L.told link.new ≡ Some left) × (state.new.kind ≡ ValueKind.Dense) × IsMended state.old.restarts state.new) }
{
    state.in_use = false;
    state.queried = false;
    state.behind = true;
    while state.restarts < MOST_RESTARTS {
        state.restarts += 1;
        match start_again(task, link, worker, &mut state.kind, buffer) {
            Ok(()) => {
                state.in_use = true;
                return Ok(());
            }
            Err(LinkFault::OutOfMemory) => return Err(AllocError),
            Err(LinkFault::Failed) => {}
        }
    }
    Ok(())
}

/// Sets a link up for the first time.
fn set_up_one<L: Link>(
    task: &Task<'_>,
    link: &mut L,
    worker: u32,
    state: &mut LinkState,
    buffer: &mut Vec<u8>,
) -> Result<(), AllocError>
    requires { state.old.restarts ≡ 0 }
    ensures honest { L.is_honest link.old → L.is_honest link.new }
    ensures in_step { OnOk result (L.is_honest link.old → (map : MapValue) → IsInStep L.is_under task.now map state.new link.new) }
    ensures told { (replies : List Reply) → L.told link.old ≡ Some (spelled_replies replies)
        → AreReplies task.now.bounds task.now.cut worker replies
        → OnOk result (Tells task.now worker (received 3 replies) state.new (L.told link.new)) }
{
    match set_up(task, link, worker, &mut state.kind, buffer) {
        Ok(()) => {
            state.in_use = true;
            Ok(())
        }
        Err(LinkFault::OutOfMemory) => Err(AllocError),
        Err(LinkFault::Failed) => mend(task, link, worker, state, buffer),
    }
}

/// Queries a link, if it is in use.
fn query_one<L: Link>(
    task: &Task<'_>,
    link: &mut L,
    worker: u32,
    state: &mut LinkState,
    coordinator: &CoordinatorMap,
    buffer: &mut Vec<u8>,
) -> Result<(), AllocError>
    requires bounds { coordinator.now.map.bounds ≡ task.now.bounds }
    requires size { length coordinator.now.map.measures ≡ length task.now.game }
    ensures honest { L.is_honest link.old → L.is_honest link.new }
    ensures in_step { OnOk result (L.is_honest link.old → IsInStep L.is_under task.now coordinator.now.map state.old link.old
        → IsInStep L.is_under task.now coordinator.now.map state.new link.new) }
    ensures told { (replies : List Reply) → Tells task.now worker replies state.old (L.told link.old)
        → OnOk result (Tells task.now worker replies state.new (L.told link.new) × IsQueried state.new) }
{
    state.queried = false;
    if !state.in_use {
        return Ok(());
    }
    match query(task, link, worker, state, coordinator, buffer) {
        Ok(()) => {
            state.queried = true;
            state.behind = false;
            Ok(())
        }
        Err(LinkFault::OutOfMemory) => Err(AllocError),
        Err(LinkFault::Failed) => mend(task, link, worker, state, buffer),
    }
}

/// Receives the reply of a link, if the link was queried, and joins its values with the map. The row has a place for each
/// bound.
fn receive_one<L: Link>(
    task: &Task<'_>,
    link: &mut L,
    worker: u32,
    state: &mut LinkState,
    coordinator: &mut CoordinatorMap,
    buffer: &mut Vec<u8>,
    row: &mut [u32],
) -> Result<(), AllocError>
    requires bounds { coordinator.old.map.bounds ≡ task.now.bounds }
    requires size { length coordinator.old.map.measures ≡ length task.now.game }
    requires row { length row.old ≡ length task.now.bounds }
    ensures honest { L.is_honest link.old → L.is_honest link.new }
    ensures moves { Moves coordinator.old coordinator.new }
    ensures in_step { OnOk result (L.is_honest link.old → IsInStep L.is_under task.now coordinator.old.map state.old link.old
        → IsInStep L.is_under task.now coordinator.new.map state.new link.new) }
    ensures least { L.is_honest link.old → IsInStep L.is_under task.now coordinator.old.map state.old link.old
        → (h : MapValue) → IsClosedMap task.now h → MapAtMost coordinator.old.map.measures h.measures
        → MapAtMost coordinator.new.map.measures h.measures }
    ensures told { (replies : List Reply) → Tells task.now worker replies state.old (L.told link.old) → IsQueried state.old
        → OnOk result (Tells task.now worker (drop 1 replies) state.new (L.told link.new)
        × Joins coordinator.old.map.measures (measures_of (take 1 replies)) coordinator.new.map.measures) }
{
    if !state.in_use || !state.queried {
        return Ok(());
    }
    match receive_reply(task, link, worker, state.kind, coordinator, buffer, row) {
        Ok(()) => Ok(()),
        Err(LinkFault::OutOfMemory) => Err(AllocError),
        Err(LinkFault::Failed) => mend(task, link, worker, state, buffer),
    }
}

/// Prepares each link.
pub fn prepare_all<L: Link>(links: &mut [L])
    ensures { links.new ≡ links.old }
{
    for i in 0..links.len() {
        links[i].prepare();
    }
}

/// Sets each link up. Worker k + 1 is behind link k.
pub fn set_up_all<L: Link>(
    task: &Task<'_>,
    links: &mut [L],
    states: &mut [LinkState],
    buffer: &mut Vec<u8>,
) -> Result<(), AllocError>
    requires states { length states.old ≡ length links.old }
    requires few { length links.old < 2 ^ 32 }
    requires unset { All (λ s. s.restarts ≡ 0) states.old }
    ensures honest { All L.is_honest links.old → All L.is_honest links.new }
    ensures in_step { OnOk result (All L.is_honest links.old → (map : MapValue)
        → AllInStep L.is_under task.now map states.new links.new) }
    ensures told { OnOk result ((replies : ℕ → List Reply) → TellReplies L.told task.now.bounds task.now.cut links.old replies
        → AllTell L.told task.now states.new links.new (λ k. received 3 (replies k))) }
{
    for i in 0..links.len() {
        set_up_one(task, &mut links[i], i as u32 + 1, &mut states[i], buffer)?;
    }
    Ok(())
}

/// Queries each link in use.
fn query_all<L: Link>(
    task: &Task<'_>,
    links: &mut [L],
    states: &mut [LinkState],
    coordinator: &CoordinatorMap,
    buffer: &mut Vec<u8>,
) -> Result<(), AllocError>
    requires states { length states.old ≡ length links.old }
    requires few { length links.old < 2 ^ 32 }
    requires bounds { coordinator.now.map.bounds ≡ task.now.bounds }
    requires size { length coordinator.now.map.measures ≡ length task.now.game }
    ensures honest { All L.is_honest links.old → All L.is_honest links.new }
    ensures in_step { OnOk result (All L.is_honest links.old → AllInStep L.is_under task.now coordinator.now.map states.old links.old
        → AllInStep L.is_under task.now coordinator.now.map states.new links.new) }
    ensures told { OnOk result ((replies : ℕ → List Reply) → AllTell L.told task.now states.old links.old replies
        → AllTell L.told task.now states.new links.new replies × AllQueried states.new links.new) }
{
    for i in 0..links.len() {
        query_one(
            task,
            &mut links[i],
            i as u32 + 1,
            &mut states[i],
            coordinator,
            buffer,
        )?;
    }
    Ok(())
}

/// Receives the reply of each link that was queried. The row has a place for each bound.
fn receive_all<L: Link>(
    task: &Task<'_>,
    links: &mut [L],
    states: &mut [LinkState],
    coordinator: &mut CoordinatorMap,
    buffer: &mut Vec<u8>,
    row: &mut [u32],
) -> Result<(), AllocError>
    requires states { length states.old ≡ length links.old }
    requires few { length links.old < 2 ^ 32 }
    requires bounds { coordinator.old.map.bounds ≡ task.now.bounds }
    requires size { length coordinator.old.map.measures ≡ length task.now.game }
    requires row { length row.old ≡ length task.now.bounds }
    ensures honest { All L.is_honest links.old → All L.is_honest links.new }
    ensures moves { Moves coordinator.old coordinator.new }
    ensures in_step { OnOk result (All L.is_honest links.old → AllInStep L.is_under task.now coordinator.old.map states.old links.old
        → AllInStep L.is_under task.now coordinator.new.map states.new links.new) }
    ensures least { OnOk result (All L.is_honest links.old → AllInStep L.is_under task.now coordinator.old.map states.old links.old
        → (h : MapValue) → IsClosedMap task.now h → MapAtMost coordinator.old.map.measures h.measures
        → MapAtMost coordinator.new.map.measures h.measures) }
    ensures told { OnOk result ((replies : ℕ → List Reply) → AllTell L.told task.now states.old links.old replies
        → AllQueried states.old links.old → AllTell L.told task.now states.new links.new (λ k. drop 1 (replies k))
        × JoinsEach coordinator.old.map.measures (length links.old) (λ k. measures_of (take 1 (replies k))) coordinator.new.map.measures) }
{
    for i in 0..links.len() {
        receive_one(
            task,
            &mut links[i],
            i as u32 + 1,
            &mut states[i],
            coordinator,
            buffer,
            row,
        )?;
    }
    Ok(())
}

/// Makes a round over the links. The row has a place for each bound. If nothing rises in the round, the map is closed.
pub fn make_round<L: Link>(
    task: &Task<'_>,
    links: &mut [L],
    states: &mut [LinkState],
    coordinator: &mut CoordinatorMap,
    buffer: &mut Vec<u8>,
    row: &mut [u32],
) -> Result<(), AllocError>
    requires states { length states.old ≡ length links.old }
    requires few { length links.old < 2 ^ 32 }
    requires bounds { coordinator.old.map.bounds ≡ task.now.bounds }
    requires size { length coordinator.old.map.measures ≡ length task.now.game }
    requires row { length row.old ≡ length task.now.bounds }
    ensures honest { All L.is_honest links.old → All L.is_honest links.new }
    ensures found { OnOk result (IsFoundFrom (All L.is_honest links.old × AllInStep L.is_under task.now coordinator.old.map states.old links.old)
        task.now.game coordinator.old.map coordinator.new.map) }
    ensures falls { OnOk result (coordinator.new.rose ≡ true → map_weight coordinator.new.map.bounds coordinator.new.map.measures
        < map_weight coordinator.old.map.bounds coordinator.old.map.measures) }
    ensures stays { OnOk result (coordinator.new.rose ≡ false → coordinator.new.map ≡ coordinator.old.map) }
    ensures closed { OnOk result (coordinator.new.rose ≡ false
        → IsClosed coordinator.new.map.bounds (game_line task.now.game) coordinator.new.map.measures) }
    ensures in_step { OnOk result (All L.is_honest links.old → AllInStep L.is_under task.now coordinator.old.map states.old links.old
        → AllInStep L.is_under task.now coordinator.new.map states.new links.new) }
    ensures told { OnOk result ((replies : ℕ → List Reply) → AllTell L.told task.now states.old links.old replies
        → AllTell L.told task.now states.new links.new (λ k. drop 1 (replies k)) × IsRoundOver task.now coordinator.old.map.measures
        (length links.old) (λ k. measures_of (take 1 (replies k))) coordinator.new.map.measures) }
{
    query_all(task, links, states, coordinator, buffer)?;
    coordinator.begin();
    receive_all(task, links, states, coordinator, buffer, row)?;
    end_round(task, coordinator);
    // called for the facts about the map in its contract
    let _vertices = coordinator.map.len();
    Ok(())
}
