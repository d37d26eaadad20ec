//! Connections to programs.

ghost use Rattle.std.specs.Prelude.{OnOk};
ghost use Rattle.pg_coord_links.specs.Sockets.{IsFramedByLength};

use crate::deadline::DeadlineStream;
use pg_wire::{WireFault, read_frame_bytes};
use std::alloc::Global;
use std::io::{self, BufReader, ErrorKind, Read, Write};
use std::net::OpenStream;
use std::time::{Clock, Instant};

/// The number of bytes that may be read ahead, and that may wait to be sent.
const ROOM: usize = 65_536;

/// The seconds within which the first reply of a program must arrive.
const FIRST: u64 = 10;

/// The seconds within which each further reply must arrive as a whole, and within which a frame must be taken.
const REPLY: u64 = 60;

/// Whether the bytes are a frame of vertices or of values, after which another frame must come before there is a reply.
fn is_followed(frame: &[u8]) -> bool {
    matches!(frame.get(4), Some(2 | 3 | 7))
}

/// A connection to a program. It reads input ahead. Frames to send wait for the frame that is answered, so that small ones
/// go together in one write.
#[derive(Drop)]
pub struct Connection<C: Clock, S: Read + OpenStream> {
    stream: BufReader<DeadlineStream<C, S>>,
    /// The bytes that wait to be sent.
    waiting: Vec<u8>,
    /// Whether the first frame of a reply was asked for, so that the time for the whole reply runs.
    is_listening: bool,
    has_replied: bool,
}

impl<C: Clock + Drop, S: Read + Write + OpenStream + Drop> Connection<C, S> {
    /// Makes a connection over a stream that blocks. It waits for nothing after `end`, if there is one.
    pub fn new(
        alloc: Global,
        clock: C,
        stream: S,
        end: Option<Instant>,
    ) -> io::Result<Connection<C, S>> {
        stream.set_nodelay(true)?;
        let limited = DeadlineStream::new(clock, stream, end)?;
        Ok(Connection {
            stream: BufReader::with_capacity(alloc, ROOM, limited)?,
            waiting: Vec::new(alloc),
            is_listening: false,
            has_replied: false,
        })
    }

    /// Writes the bytes that wait, which must be taken within 60 seconds.
    fn flush(&mut self) -> io::Result<()> {
        if self.waiting.is_empty() {
            return Ok(());
        }
        let stream = self.stream.get_mut();
        stream.start(REPLY)?;
        stream.write_all(self.waiting.as_slice())?;
        self.waiting.clear();
        Ok(())
    }

    /// Sends a frame. A small frame of vertices or of values waits for the next frame.
    pub fn send(&mut self, frame: &[u8]) -> io::Result<()> {
        self.is_listening = false;
        if frame.len() >= ROOM {
            self.flush()?;
            let stream = self.stream.get_mut();
            stream.start(REPLY)?;
            return stream.write_all(frame);
        }
        self.waiting.extend_from_slice(frame)?;
        if is_followed(frame) && self.waiting.len() < ROOM {
            return Ok(());
        }
        self.flush()
    }

    /// Receives the next frame of a reply. The whole reply must arrive within 60 seconds, and the first reply of the
    /// program within 10.
    pub fn receive(&mut self, frame: &mut Vec<u8>) -> io::Result<()>
        ensures { OnOk result (IsFramedByLength frame.new.items) }
    {
        if !self.is_listening {
            self.flush()?;
            let seconds = if self.has_replied { REPLY } else { FIRST };
            self.stream.get_mut().start(seconds)?;
            self.is_listening = true;
        }
        let read = read_frame_bytes(&mut self.stream, frame);
        self.has_replied = true;
        match read {
            Ok(true) => Ok(()),
            Err(WireFault::TooLong) => Ok(()),
            Err(WireFault::OutOfMemory) => Err(io::Error::from(ErrorKind::OutOfMemory)),
            _ => Err(io::Error::from(ErrorKind::UnexpectedEof)),
        }
    }
}
