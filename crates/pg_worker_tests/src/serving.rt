//! Sessions and serving, on bytes that were worked out by hand. `tests/serving.py` shows what a worker program replies over
//! a connection, and what it refuses.

use crate::texts::{LINES, SETUP, bytes_of};
use pg_wire::{WireFault, decode};
use pg_worker::{Served, Session, WorkerFault, serve};
use std::alloc::Global;
use std::io::{self, ErrorKind, Write};
use std::test::Fail;

const GO: &str = "00000005 04 00000001";

const HALT: &str = "00000001 06";

/// The sparse frame of `0,1` for vertex 0 and top for vertex 1.
const SPARSE: &str =
    "0000001f 07 00000002 00000002 00000000 00 00000001 00000001 00000001 00000001 01";

/// The replies to a set-up, and to a turn of one lift with these values: vertex 0 rises to `1,0`, and there is more to
/// lift.
const REPLY: &str = "00000003 05 01 00 \
     0000001a 07 00000002 00000001 00000000 00 00000001 00000000 00000001 \
     00000003 05 00 00";

/// Whether the session takes the set-up, as a frame.
fn is_set_up(alloc: Global, session: &mut Session, out: &mut Vec<u8>) -> Result<bool, Fail> {
    let setup = decode(alloc, &bytes_of(alloc, SETUP)?)?;
    Ok(setup.is_well() && session.frame(&setup, out) == Ok(false))
}

/// Whether the session takes these rows, which have no reply.
fn takes_rows(alloc: Global, session: &mut Session, rows: &str) -> Result<bool, Fail> {
    Ok(session.rows_from(&bytes_of(alloc, rows)?) == Ok(true))
}

/// Returns the session's answer to this frame, or None if the frame is refused or `rows_from` doesn't leave it alone.
fn takes(
    alloc: Global,
    session: &mut Session,
    frame: &str,
    out: &mut Vec<u8>,
) -> Result<Option<bool>, Fail> {
    let bytes = bytes_of(alloc, frame)?;
    if session.rows_from(&bytes) != Ok(false) {
        return Ok(None);
    }
    Ok(session.frame_from(&bytes, out).ok())
}

/// Whether the session takes these frames and rows, one after another.
fn takes_each(alloc: Global, session: &mut Session, out: &mut Vec<u8>) -> Result<bool, Fail> {
    Ok(
        is_set_up(alloc, session, out)?
            && takes_rows(alloc, session, LINES)?
            && takes_rows(alloc, session, SPARSE)?
            && takes(alloc, session, GO, out)? == Some(false)
            && takes(alloc, session, HALT, out)? == Some(true),
    )
}

/// Whether a new session takes them. Appends its replies.
fn replies(alloc: Global, out: &mut Vec<u8>) -> Result<bool, Fail> {
    let mut session = Session::new(alloc);
    takes_each(alloc, &mut session, out)
}

#[test]
fn takes_frames_and_rows(rt: HostRuntime) -> Result<(), Fail> {
    let reply = bytes_of(rt.alloc(), REPLY)?;
    let mut out = Vec::new(rt.alloc());
    assert!(rt; replies(rt.alloc(), &mut out)?);
    assert_eq!(rt; out.as_slice(), reply.as_slice());
    Ok(())
}

/// Takes one byte at a time, and fails at one write and at each later one.
#[derive(Drop)]
struct FullReplies {
    before: usize,
}

impl Write for FullReplies {
    fn write(&mut self, buf: &[u8]) -> io::Result<usize> {
        if self.before == 0 {
            return Err(io::Error::from(ErrorKind::Other));
        }
        self.before -= 1;
        Ok(buf.len().min(1))
    }

    fn flush(&mut self) -> io::Result<()> {
        Ok(())
    }
}

/// Returns how serving these bytes ends if writes fail once `before` bytes were written.
fn end_of_serving(alloc: Global, input: &[u8], before: usize) -> Result<Served, WorkerFault> {
    let mut input = input;
    serve(alloc, &mut input, &mut FullReplies { before })
}

/// The reply to these frames has 44 bytes: a report, the values of a lift and a report.
#[test]
fn a_failed_write_ends_serving(rt: HostRuntime) -> Result<(), Fail> {
    let mut input = Vec::new(rt.alloc());
    for part in [SETUP, LINES, GO, HALT] {
        input.extend_from_slice(&bytes_of(rt.alloc(), part)?)?;
    }
    for before in 0..44 {
        assert!(rt;
            end_of_serving(rt.alloc(), &input, before) == Err(WorkerFault::Wire(WireFault::Write))
        );
    }
    assert!(rt; end_of_serving(rt.alloc(), &input, 44) == Ok(Served::Halted(4)));
    Ok(())
}
