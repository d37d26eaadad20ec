//! Links to programs that are started on this host, over sockets of 127.0.0.1.

ghost use Rattle.std.specs.Prelude.{◌≡◌, true, false, Err, IsOk, IfOk, OnOk, OnErr};
ghost use Rattle.pg_coord_links.specs.Counting.{count_after};
ghost use Rattle.pg_coord_links.specs.Sockets.{idle_link, IsFramedByLength};

use crate::connection::Connection;
use crate::starting::{Reach, Starting, is_want_of_memory, listen_anywhere};
use pg_coord_partition::{Link, LinkFault};
use std::alloc::Global;
use std::io::{self, ErrorKind};
use std::marker::Model;
use std::process::{Child, OpenProcess};
use std::time::{Duration, Instant};

/// A link to a worker program, `PATH worker --port P`, which connects to port P of 127.0.0.1. `prepare` or the first
/// send starts it.
///
/// The contract assumes nothing about the program's answers: the link is not honest, and it doesn't tell its replies. No
/// call waits for ever for a program that runs. The program has 10 seconds to connect and 10 for its first reply, and 60
/// seconds for each further reply and for taking a frame. If it neither connects in time nor ends, no other one is started.
/// There is no limit on how long the system takes to start it. If you drop a link without `close`, the program goes on
/// running.
#[derive(Drop)]
pub struct SocketLink<R: Reach> {
    rt: R,
    path: String,
    /// The listener that the next program must connect to; closed once it has.
    listener: Option<R::Listener>,
    /// The next program, if it was started and no call has waited for it yet.
    starting: Option<Starting<R>>,
    program: Option<Child<R::Started>>,
    connection: Option<Connection<R, R::Stream>>,
    failures: u64,
    /// Whether a program neither connected in time nor ended.
    is_given_up: bool,
    /// The time in all that hasn't begun yet, if there is a limit.
    time: Option<Duration>,
    /// The end of the time in all, once it has begun.
    end: Option<Instant>,
}

impl<R: Reach> Model for SocketLink<R> {
    ghost use Rattle.std.specs.Prelude.{is_some};
    ghost use Rattle.pg_coord_links.specs.Sockets.{SocketValue};

    ghost Value = { SocketValue };

    ghost view = { λ l. record {
      has_program = is_some l.program;
      is_connected = is_some l.connection;
      failures = l.failures;
    } };
}

/// Returns the fault of a link when the system reports an error or memory runs out.
fn fault_of(error: &io::Error) -> LinkFault {
    if is_want_of_memory(error) {
        LinkFault::OutOfMemory
    } else {
        LinkFault::Failed
    }
}

/// Whether a program neither connected in time nor ended.
fn is_timed_out<S>(accepted: &io::Result<S>) -> bool {
    match accepted {
        Ok(_) => false,
        Err(e) => e.kind() == ErrorKind::TimedOut,
    }
}

/// Kills a program, and waits for it.
fn kill<P: OpenProcess>(program: &mut Child<P>) {
    if program.kill().is_ok() {
        let _ended = program.wait();
    }
}

impl<R: Reach> SocketLink<R> {
    /// Makes a link that has started no program yet. It listens on 127.0.0.1, at a port that the system picks.
    ///
    /// Faults: `Failed` if it can't listen, which no count includes; `OutOfMemory` if memory runs out.
    pub fn listen(rt: R, alloc: Global, path: &str) -> Result<SocketLink<R>, LinkFault>
        ensures { IfOk result (λ link. link ≡ idle_link) }
    {
        let path = String::from_str(alloc, path)?;
        match listen_anywhere(&rt) {
            Ok(listener) => Ok(SocketLink {
                rt,
                path,
                listener: Some(listener),
                starting: None,
                program: None,
                connection: None,
                failures: 0,
                is_given_up: false,
                time: None,
                end: None,
            }),
            Err(e) => Err(fault_of(&e)),
        }
    }

    /// Limits the link to this number of seconds in all, from when it first starts a program. After that it starts no
    /// program, waits for nothing and sends nothing that waits: calls fail at once with `Failed`.
    pub fn limit(&mut self, seconds: u64)
        ensures { self.new ≡ self.old }
    {
        self.time = Some(Duration::from_secs(seconds));
    }

    /// Whether the link has a program, running or ended.
    pub fn has_program(&self) -> bool
        ensures { result ≡ self.now.has_program }
    {
        self.program.is_some()
    }

    /// Returns the listener that no program has connected to yet, or a new one.
    fn take_listener(&mut self) -> io::Result<R::Listener>
        ensures { self.new ≡ self.old }
    {
        match self.listener.take() {
            Some(listener) => Ok(listener),
            None => listen_anywhere(&self.rt),
        }
    }

    /// Takes the stream to the program that was just started.
    fn connect(&mut self, accepted: io::Result<R::Stream>) -> io::Result<()>
        ensures ok { OnOk result (self.new ≡ record self.old { is_connected = true }) }
        ensures program { self.new.has_program ≡ self.old.has_program }
        ensures failures { self.new.failures ≡ self.old.failures }
    {
        let alloc = *self.path.allocator();
        let clock = self.rt.clone()?;
        self.connection = Some(Connection::new(alloc, clock, accepted?, self.end)?);
        Ok(())
    }

    /// Starts a program, without waiting for its connection.
    fn launch(&mut self) -> io::Result<Starting<R>>
        ensures { self.new ≡ self.old }
    {
        if self.is_given_up {
            return Err(io::Error::from(ErrorKind::TimedOut));
        }
        if let Some(time) = self.time {
            self.end = Instant::now(&self.rt)?.checked_add(time);
            self.time = None;
        }
        let listener = self.take_listener()?;
        let alloc = *self.path.allocator();
        Starting::new(&self.rt, alloc, self.path.as_str(), listener, self.end)
    }

    /// Starts the program, if that hasn't been done yet, and waits for its connection.
    fn start(&mut self) -> io::Result<()>
        ensures ok { OnOk result (self.new ≡ record self.old { has_program = true; is_connected = true }) }
        ensures failures { self.new.failures ≡ self.old.failures }
    {
        let mut starting = match self.starting.take() {
            Some(starting) => starting,
            None => self.launch()?,
        };
        let accepted = starting.accept(&self.rt, *self.path.allocator());
        self.is_given_up = is_timed_out(&accepted);
        self.program = Some(starting.program);
        self.connect(accepted)
    }

    /// Kills the program if it runs, and waits for it to end. The connection stays.
    pub fn kill(&mut self)
        ensures { self.new ≡ self.old }
    {
        if let Some(program) = &mut self.program {
            kill(program);
        }
        if let Some(starting) = &mut self.starting {
            kill(&mut starting.program);
        }
    }

    /// Closes the connection, kills the program and waits for it.
    fn stop(&mut self)
        ensures { self.new ≡ record self.old { has_program = false; is_connected = false } }
    {
        self.connection = None;
        self.kill();
        self.program = None;
        self.starting = None;
    }

    /// Closes the connection, kills the program and waits for it.
    pub fn close(mut self) {
        self.stop();
    }

    /// Counts a failure, after which there is no connection.
    fn fail(&mut self) -> Result<(), LinkFault>
        ensures failed { result ≡ Err LinkFault.Failed }
        ensures closed { self.new ≡ record self.old {
          is_connected = false;
          failures = count_after result self.old.failures;
        } }
    {
        self.connection = None;
        self.failures = self.failures.saturating_add(1);
        Err(LinkFault::Failed)
    }

    /// Returns the answer of a call that ended with this result. After an error there is no connection.
    fn conclude(&mut self, ended: io::Result<()>) -> Result<(), LinkFault>
        ensures failures { self.new.failures ≡ count_after result self.old.failures }
        ensures program { self.new.has_program ≡ self.old.has_program }
        ensures ok { OnOk result (OnOk ended (self.new ≡ self.old)) }
        ensures ended { OnOk result (IsOk ended) }
        ensures err { OnErr result (self.new.is_connected ≡ false) }
    {
        match ended {
            Ok(()) => Ok(()),
            Err(e) if is_want_of_memory(&e) => {
                self.connection = None;
                Err(LinkFault::OutOfMemory)
            }
            Err(_) => self.fail(),
        }
    }
}

impl<R: Reach> Link for SocketLink<R> {
    ghost use Rattle.std.specs.Prelude.{⊤, None};

    ghost failures = { λ l. l.failures };

    ghost is_honest = { λ _. ⊥ };

    ghost is_under = { λ _ _. ⊥ };

    ghost is_anew = { λ _. ⊤ };

    ghost told = { λ _. None };

    /// Starts the program, if there is none, and doesn't wait for it, so that the programs of several links start side by
    /// side. If it can't be started, the first send reports that.
    fn prepare(&mut self) {
        if self.program.is_none() && self.starting.is_none() {
            self.starting = self.launch().ok();
        }
    }

    /// Sends a frame. If there is no program, it starts one first. It is `Failed` if the program can't be started, doesn't
    /// connect or doesn't take the frame, and if there is a program without a connection.
    fn send(&mut self, frame: &[u8]) -> Result<(), LinkFault>
        ensures failures { self.new.failures ≡ count_after result self.old.failures }
        ensures ok { OnOk result ((self.new.has_program ≡ true) × (self.new.is_connected ≡ true)) }
        ensures err { OnErr result (self.new.is_connected ≡ false) }
        ensures closed { self.old.has_program ≡ true → self.old.is_connected ≡ false → result ≡ Err LinkFault.Failed }
    {
        if self.program.is_none() {
            let started = self.start();
            self.conclude(started)?;
        }
        let Some(connection) = &mut self.connection else {
            return self.fail();
        };
        let sent = connection.send(frame);
        self.conclude(sent)
    }

    /// Receives four bytes and as many as they say, or these four alone if no frame has such a length. It is `Failed` if
    /// there is no connection, if the input ends or can't be read, and if the reply takes too long.
    fn receive(&mut self, frame: &mut Vec<u8>) -> Result<(), LinkFault>
        ensures failures { self.new.failures ≡ count_after result self.old.failures }
        ensures program { self.new.has_program ≡ self.old.has_program }
        ensures ok { OnOk result (self.new ≡ self.old) }
        ensures err { OnErr result (self.new.is_connected ≡ false) }
        ensures framed { OnOk result (IsFramedByLength frame.new.items) }
        ensures closed { self.old.is_connected ≡ false → result ≡ Err LinkFault.Failed }
    {
        let Some(connection) = &mut self.connection else {
            return self.fail();
        };
        let received = connection.receive(frame);
        self.conclude(received)
    }

    /// Closes the connection, kills the program and waits for it, if there is one; then starts it anew. It is `Failed` if
    /// the program can't be started or doesn't connect.
    fn restart(&mut self) -> Result<(), LinkFault>
        ensures failures { self.new.failures ≡ count_after result self.old.failures }
        ensures ok { OnOk result ((self.new.has_program ≡ true) × (self.new.is_connected ≡ true)) }
        ensures err { OnErr result (self.new.is_connected ≡ false) }
    {
        self.stop();
        let again = self.start();
        self.conclude(again)
    }
}
