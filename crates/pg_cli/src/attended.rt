//! The input of a worker program, for as long as there is somebody to answer.

use pg_coord::is_orphaned;
use std::alloc::Global;
use std::fs::Files;
use std::io::{self, BufReader, Read};
use std::net::OpenStream;
use std::time::{Clock, Duration};

/// The most bytes that are read ahead.
const ROOM: usize = 65_536;

/// The seconds between two checks of the other end.
const LOOK: u64 = 1;

/// The bytes of a connection to a port of 127.0.0.1. They end when nobody holds the other end any more, even before bytes that already
/// came.
#[derive(Drop)]
pub(crate) struct Attended<'a, R, S: Read> {
    rt: &'a R,
    alloc: Global,
    input: BufReader<S>,
    port: u16,
    /// When the other end was last checked, by the monotonic clock.
    looked: Duration,
}

impl<'a, R: Files + Clock, S: Read + OpenStream> Attended<'a, R, S> {
    /// Returns a reader of the bytes that come over this connection to the port.
    pub fn new(rt: &'a R, alloc: Global, stream: S, port: u16) -> io::Result<Attended<'a, R, S>>
    where
        S: Drop,
    {
        Ok(Attended {
            rt,
            alloc,
            input: BufReader::with_capacity(alloc, ROOM, stream)?,
            port,
            looked: rt.monotonic().unwrap_or(Duration::ZERO),
        })
    }

    /// Whether nobody holds the other end any more, as far as the system says.
    fn is_left(&self) -> bool {
        match self.input.get_ref().local_addr() {
            Ok(own) => is_orphaned(self.rt, self.alloc, self.port, own.port()).unwrap_or(false),
            Err(_) => false,
        }
    }

    /// Whether it is time for another check of the other end. If it is, counts the check as made.
    fn is_due(&mut self) -> bool {
        let now = self.rt.monotonic().unwrap_or(Duration::ZERO);
        if now.saturating_sub(self.looked) < Duration::from_secs(LOOK) {
            return false;
        }
        self.looked = now;
        true
    }
}

impl<R: Files + Clock, S: Read + OpenStream> Read for Attended<'_, R, S> {
    fn read(&mut self, buf: &mut [u8]) -> io::Result<usize> {
        if self.is_due() && self.is_left() {
            return Ok(0);
        }
        self.input.read(buf)
    }
}
