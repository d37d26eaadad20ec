//! A turn of one link: it is queried, and its reply is received.

ghost use Rattle.std.specs.Prelude.{◌≡◌, ◌≢◌, ◌<◌, ◌∷◌, ◌++◌, ℕ, List, [], length, All, true, false};
ghost use Rattle.std.specs.Prelude.{Some, Ok, IfOk, IfErr, OnOk};
ghost use Rattle.pg_map.specs.Maps.{MapValue, MapAtMost};
ghost use Rattle.pg_wire.specs.declared.frame.Values.{Values};
ghost use Rattle.pg_wire.specs.declared.frame.Report.{Report};
ghost use Rattle.pg_wire.specs.declared.frame.Frame.TheVariants as frames;
ghost use Rattle.pg_wire.specs.declared.kind.ValueKind.TheVariants.{Dense};
ghost use Rattle.pg_wire.specs.Bytes.{Spells};
ghost use Rattle.pg_wire.specs.Measured.{told_values};
ghost use Rattle.pg_coord_partition.specs.Frames.{Joins};
ghost use Rattle.pg_coord_rounds.specs.PartMeasures.{AreOfPart};
ghost use Rattle.pg_coord_rounds.specs.Replies.{Reply, FailsLink, IsReply, spelled_reply};
ghost use Rattle.pg_coord_rounds.specs.Mirrors.CoordinatorMaps.{Receives};
ghost use Rattle.pg_coord_rounds.specs.Mirrors.Telling.{TellsAfter, AnswersAfter, FailsAfter, ReceivesReply};

use crate::coordinator_map::CoordinatorMap;
use crate::joining::join_frame;
use crate::link_state::LinkState;
use crate::sending::send_frame;
use crate::task::Task;
use crate::values::{Recipient, send_values};
use pg_arena::Vertex;
use pg_coord_partition::{Link, LinkFault};
use pg_map::{MeasureMap, View};
use pg_wire::{Frame, Go, ValueKind, ValuesReader, WireFault, decode};
use std::alloc::{AllocError, Global};

/// The greatest number of frames in a reply.
const MOST_FRAMES: u32 = 65_536;

/// The number of lifts in a short turn.
const SHORT_TURN: u32 = 256;

/// The number of risen vertices per worker from which the next turns are short.
const MANY: usize = 224;

/// Whether a measure is a list of zeros.
fn is_zero(measure: View) -> bool {
    match measure {
        View::Top => false,
        View::List(list) => list.iter().all(|&n| n == 0),
    }
}

/// Returns the vertices whose measures are above zero.
fn above_zero(alloc: Global, map: &MeasureMap) -> Result<Vec<Vertex>, AllocError>
    ensures { IfOk result (λ vs. All (λ v. v < length map.now.measures) vs.items) }
{
    let mut vertices = Vec::new(alloc);
    for number in 0..map.len() {
        let v = Vertex(number);
        if !is_zero(map.get(v)) {
            vertices.push(v)?;
        }
    }
    Ok(vertices)
}

/// Returns the number of lifts that a worker may make at a Go: the budget, but at most a short turn at first and after a
/// round in which many vertices rose. In such a round most lifts raised a vertex of their own, and much of the work that a
/// long turn based on them would have to be done again.
fn lifts(task: &Task<'_>, coordinator: &CoordinatorMap) -> u32 {
    let workers = task.cut().workers() as usize;
    if coordinator.has_begun && coordinator.risen.as_slice().len() / MANY < workers {
        task.budget()
    } else {
        task.budget().min(SHORT_TURN)
    }
}

/// Sends values, and then lets the worker lift. The values are those that rose or, if the worker was set up anew, all that
/// are above zero.
pub fn query<L: Link>(
    task: &Task<'_>,
    link: &mut L,
    worker: u32,
    state: &LinkState,
    coordinator: &CoordinatorMap,
    buffer: &mut Vec<u8>,
) -> Result<(), LinkFault>
    requires bounds { coordinator.now.map.bounds ≡ task.now.bounds }
    requires size { length coordinator.now.map.measures ≡ length task.now.game }
    ensures honest { L.is_honest link.old → L.is_honest link.new }
    ensures under { OnOk result (L.is_honest link.old → (h : MapValue) → MapAtMost coordinator.now.map.measures h.measures
        → L.is_under link.old h → L.is_under link.new h) }
    ensures told { (left : List (List ℕ)) → L.told link.old ≡ Some left → TellsAfter left (L.told link.new) result }
{
    let mut to = Recipient {
        worker,
        kind: state.kind,
        own: coordinator.by_lifts,
    };
    if state.behind {
        to.own = true;
        let vertices = above_zero(task.alloc(), &coordinator.map)?;
        send_values(to, task, link, &coordinator.map, &vertices, buffer)?;
    } else {
        send_values(
            to,
            task,
            link,
            &coordinator.map,
            coordinator.risen.as_slice(),
            buffer,
        )?;
    }
    let go = Go {
        budget: lifts(task, coordinator),
    };
    send_frame(link, &Frame::Go(go), buffer)
}

/// Checks that a reply ends with this frame: a report that isn't a refusal. Any other frame is a failure of its link.
fn end(frame: &Frame) -> Result<(), LinkFault>
    ensures ends { (r : Report) → frame.now ≡ frames.Report r → r.status ≢ 2 → result ≡ Ok tt }
    ensures fails { IfErr result (λ e. e ≡ LinkFault.Failed) }
    ensures report { OnOk result ((r : Report) × (frame.now ≡ frames.Report r) × (r.status ≢ 2)) }
{
    match frame {
        Frame::Report(report) if report.status != 2 => Ok(()),
        _ => Err(LinkFault::Failed),
    }
}

/// Reads one frame of a reply and joins its measures with the map. The row has a place for each bound. Returns true if the
/// reply ends with this frame.
fn receive_and_join<L: Link>(
    task: &Task<'_>,
    link: &mut L,
    worker: u32,
    kind: ValueKind,
    coordinator: &mut CoordinatorMap,
    buffer: &mut Vec<u8>,
    row: &mut [u32],
) -> Result<bool, LinkFault>
    requires size { length coordinator.old.map.measures ≡ length task.now.game }
    requires row { length row.old ≡ length coordinator.old.map.bounds }
    ensures received { Receives L.is_honest L.is_under link.old link.new coordinator.old coordinator.new }
    ensures values { (v : Values) (next : List ℕ) (left : List (List ℕ)) → L.told link.old ≡ Some (next ∷ left)
        → Spells (frames.Values v) next → kind ≡ Dense
        → AreOfPart Dense coordinator.old.map.bounds task.now.cut worker Dense v.width (told_values v.values)
        → AnswersAfter false left (L.told link.new) result
        × OnOk result (Joins coordinator.old.map.measures (told_values v.values) coordinator.new.map.measures) }
    ensures report { (r : Report) (next : List ℕ) (left : List (List ℕ)) → L.told link.old ≡ Some (next ∷ left)
        → Spells (frames.Report r) next → r.status ≢ 2
        → AnswersAfter true left (L.told link.new) result × (coordinator.new ≡ coordinator.old) }
    ensures failing { (next : List ℕ) (left : List (List ℕ)) → L.told link.old ≡ Some (next ∷ left)
        → FailsLink coordinator.old.map.bounds task.now.cut worker next → kind ≡ Dense
        → FailsAfter left (L.told link.new) result × (coordinator.new ≡ coordinator.old) }
    ensures ended { L.told link.old ≡ Some [] → FailsAfter [] (L.told link.new) result × (coordinator.new ≡ coordinator.old) }
{
    link.receive(buffer)?;
    if let Some(values) = ValuesReader::open(buffer) {
        let joined = join_frame(coordinator, task.cut(), worker, kind, values, row);
        return if joined {
            Ok(false)
        } else {
            Err(LinkFault::Failed)
        };
    }
    match decode(task.alloc(), buffer) {
        Ok(frame) => {
            end(&frame)?;
            Ok(true)
        }
        Err(WireFault::OutOfMemory) => Err(LinkFault::OutOfMemory),
        Err(_) => Err(LinkFault::Failed),
    }
}

/// Reads a reply to its end and joins its values with the map. The row has a place for each bound. If a frame is a failure
/// of the link, or the reply has too many frames, the frames before stay joined.
pub fn receive_reply<L: Link>(
    task: &Task<'_>,
    link: &mut L,
    worker: u32,
    kind: ValueKind,
    coordinator: &mut CoordinatorMap,
    buffer: &mut Vec<u8>,
    row: &mut [u32],
) -> Result<(), LinkFault>
    requires bounds { coordinator.old.map.bounds ≡ task.now.bounds }
    requires size { length coordinator.old.map.measures ≡ length task.now.game }
    requires row { length row.old ≡ length task.now.bounds }
    ensures received { Receives L.is_honest L.is_under link.old link.new coordinator.old coordinator.new }
    ensures reply { (r : Reply) (left : List (List ℕ)) → L.told link.old ≡ Some (spelled_reply r ++ left)
        → IsReply task.now.bounds task.now.cut worker r left → kind ≡ Dense
        → ReceivesReply r left coordinator.old.map.measures coordinator.new.map.measures (L.told link.new) result }
{
    'frames: for _ in 0..MOST_FRAMES {
        match receive_and_join(task, link, worker, kind, coordinator, buffer, row) {
            Ok(true) => return Ok(()),
            Ok(false) => {}
            Err(fault) => return Err(fault),
        }
    }
    Err(LinkFault::Failed)
}
