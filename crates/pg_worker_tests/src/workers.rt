//! A worker for vertex 0, which climbs by single lifts from `0,1` over `1,0` and `1,1` to top.

use crate::texts::{LINES, SETUP, bytes_of};
use pg_arena::Vertex;
use pg_map::{Update, View};
use pg_measure::Measure;
use pg_wire::{Frame, WireFault, decode};
use pg_worker::{Worker, WorkerFault};
use std::alloc::Global;
use std::test::Fail;

/// Returns the worker that a frame sets up.
fn set_up(alloc: Global, frame: &Frame) -> Result<Worker, Fail> {
    if !frame.is_well() {
        return Err("the frame is well".into());
    }
    match frame {
        Frame::Setup(setup) => Ok(Worker::new(alloc, setup)?),
        _ => Err("the frame is a set-up".into()),
    }
}

/// Adds the vertices of a frame.
fn add_frame(worker: &mut Worker, frame: &Frame) -> Result<(), WorkerFault> {
    match frame {
        Frame::Vertices(vertices) if frame.is_well() => {
            worker.add_vertices(vertices.lines.as_slice())
        }
        _ => Err(WorkerFault::Wire(WireFault::BadKind)),
    }
}

/// Returns the frame that the text spells.
fn frame_of(alloc: Global, text: &str) -> Result<Frame, Fail> {
    Ok(decode(alloc, &bytes_of(alloc, text)?)?)
}

/// Adds the line of vertex 0.
fn add_line(alloc: Global, worker: &mut Worker) -> Result<(), Fail> {
    let lines = frame_of(alloc, LINES)?;
    Ok(add_frame(worker, &lines)?)
}

/// Whether the update raises vertex 0 to this measure.
fn raises(update: &Update, to: View) -> bool {
    update.vertex == Vertex(0) && update.measure.view() == to
}

/// Whether these are the measures of the two vertices.
fn are(worker: &Worker, first: View, second: View) -> bool {
    worker.len() == 2 && worker.get(Vertex(0)) == first && worker.get(Vertex(1)) == second
}

/// Whether vertex 0 climbs to `1,1` by one lift in each call that lifts.
fn climbs(worker: &mut Worker) -> Result<bool, WorkerFault> {
    let update = worker.lift(Vertex(0))?;
    let lifted = worker.lift_some(1)?;
    let is_quiet = worker.lift_turn(1);
    Ok(
        matches!(&update, Some(update) if raises(update, View::List(&[0, 1])))
            && matches!(lifted.updates.as_slice(), [update] if raises(update, View::List(&[1, 0])))
            && !lifted.quiet
            && !is_quiet
            && worker.lifted() == [Vertex(0)].as_slice()
            && are(worker, View::List(&[1, 1]), View::List(&[0, 0])),
    )
}

/// Whether the worker takes top for vertex 1, and the same update raises nothing again; and vertex 0 ends at top.
fn ends_at_top(alloc: Global, worker: &mut Worker) -> Result<bool, WorkerFault> {
    let update = Update {
        vertex: Vertex(1),
        measure: Measure::top(alloc, worker.bounds())?,
    };
    let rises = worker.take(&update)?;
    let rises_again = worker.take_value(1, View::Top)?;
    let is_quiet = worker.lift_turn(9);
    Ok(rises && !rises_again && is_quiet && are(worker, View::Top, View::Top))
}

/// Whether the worker, once it has the line of vertex 0, lifts and takes values as it should.
fn lifts_and_takes(alloc: Global, worker: &mut Worker) -> Result<bool, Fail> {
    add_line(alloc, worker)?;
    let is_part = worker.holds(Vertex(0)) && !worker.holds(Vertex(1));
    Ok(is_part && climbs(worker)? && ends_at_top(alloc, worker)? && worker.kept().is_empty())
}

#[test]
fn a_worker_lifts_its_part_and_takes_values(rt: HostRuntime) -> Result<(), Fail> {
    let setup = frame_of(rt.alloc(), SETUP)?;
    let mut worker = set_up(rt.alloc(), &setup)?;
    assert!(rt; lifts_and_takes(rt.alloc(), &mut worker)?);
    Ok(())
}
