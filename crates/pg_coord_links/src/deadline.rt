//! Streams on which no read or write waits without end.

use std::io::{self, ErrorKind, Read, Write};
use std::net::OpenStream;
use std::time::{Clock, Duration, Instant};

/// A span of time. It ends `limit` after the time `since`, and no later than at `end`, if there is one.
#[derive(Clone, Copy)]
pub struct TimeSpan {
    since: Instant,
    limit: Duration,
    end: Option<Instant>,
}

impl TimeSpan {
    /// Starts a span of this number of seconds from now on, but no longer than to `end`, if there is one.
    pub fn start<C: Clock>(clock: &C, seconds: u64, end: Option<Instant>) -> io::Result<TimeSpan> {
        Ok(TimeSpan {
            since: Instant::now(clock)?,
            limit: Duration::from_secs(seconds),
            end,
        })
    }

    /// Returns the time that is left of the span. It fails if the clock can't be read, and with `TimedOut` if no time is
    /// left.
    pub fn left<C: Clock>(&self, clock: &C) -> io::Result<Duration> {
        let now = Instant::now(clock)?;
        let of_limit = self.limit.saturating_sub(now.duration_since(self.since));
        let left = match self.end {
            Some(end) => of_limit.min(end.duration_since(now)),
            None => of_limit,
        };
        if left.is_zero() {
            return Err(io::Error::from(ErrorKind::TimedOut));
        }
        Ok(left)
    }
}

/// A stream with a span of time: a read or a write that isn't done at the end of the span fails.
#[derive(Drop)]
pub struct DeadlineStream<C, S> {
    clock: C,
    stream: S,
    span: TimeSpan,
}

impl<C: Clock, S> DeadlineStream<C, S> {
    /// Makes a stream from one that blocks. Its time is over until `start` is called. No time that it is given goes beyond
    /// `end`, if there is one.
    pub fn new(clock: C, stream: S, end: Option<Instant>) -> io::Result<DeadlineStream<C, S>>
    where
        C: Drop,
        S: Drop,
    {
        Ok(DeadlineStream {
            span: TimeSpan::start(&clock, 0, end)?,
            clock,
            stream,
        })
    }

    /// Gives the reads and the writes from now on this number of seconds.
    pub fn start(&mut self, seconds: u64) -> io::Result<()> {
        self.span = TimeSpan::start(&self.clock, seconds, self.span.end)?;
        Ok(())
    }
}

impl<C: Clock, S: Read + OpenStream> Read for DeadlineStream<C, S> {
    fn read(&mut self, buf: &mut [u8]) -> io::Result<usize> {
        let left = self.span.left(&self.clock)?;
        self.stream.set_read_timeout(Some(left))?;
        self.stream.read(buf)
    }
}

impl<C: Clock, S: Write + OpenStream> Write for DeadlineStream<C, S> {
    fn write(&mut self, buf: &[u8]) -> io::Result<usize> {
        let left = self.span.left(&self.clock)?;
        self.stream.set_write_timeout(Some(left))?;
        self.stream.write(buf)
    }

    fn flush(&mut self) -> io::Result<()> {
        Ok(())
    }
}
