//! Starts programs that connect to this one.

use crate::deadline::TimeSpan;
use crate::owner::is_of_program;
use std::alloc::Global;
use std::fs::{self, Files};
use std::io::{self, ErrorKind};
use std::net::{IpAddr, Ipv4Addr, Net, OpenListener, SocketAddr, TcpListener};
use std::os::unix::fs::MetadataExt;
use std::process::{Child, Command, Processes, Stdio};
use std::thread;
use std::time::{Clock, Duration, Instant};

/// The services of the system that links need: they start programs, connect to them, read the tables in which the system
/// keeps connections, and give the time.
pub trait Reach: Net + Processes + Files + Clock + Clone + Drop {}

impl<R: Net + Processes + Files + Clock + Clone + Drop> Reach for R {}

/// The seconds within which a program must connect.
const CONNECT: u64 = 10;

/// The milliseconds between two looks for a connection.
const LOOK: u64 = 1;

/// The bit of a file's mode with which the file is started as its owner.
const SET_USER: u32 = 0o4000;

/// Whether the error says that memory was refused to this program, and not that a call of the system failed.
pub fn is_want_of_memory(error: &io::Error) -> bool {
    error.kind() == ErrorKind::OutOfMemory && error.raw_os_error().is_none()
}

/// Listens on 127.0.0.1, at a port that the system picks.
pub fn listen_anywhere<R: Reach>(rt: &R) -> io::Result<R::Listener> {
    let listener = TcpListener::bind(rt, (Ipv4Addr::LOCALHOST, 0u16))?;
    listener.set_nonblocking(true)?;
    Ok(listener)
}

/// Makes the command `PATH worker --port P`.
fn worker_command(alloc: Global, path: &str, port: u16) -> io::Result<Command> {
    let port = port.to_string(alloc)?;
    let mut command = Command::new(alloc, path)?;
    command.args(["worker", "--port", port.as_str()])?;
    Ok(command)
}

/// Starts `PATH worker --port P`. It gets no input, and its output is dropped.
fn spawn<R: Reach>(rt: &R, alloc: Global, path: &str, port: u16) -> io::Result<Child<R::Started>> {
    let mut command = worker_command(alloc, path, port)?;
    command
        .stdin(Stdio::null())
        .stdout(Stdio::null())
        .stderr(Stdio::null());
    command.spawn(rt)
}

/// Whether a connection from this address to the port must be dropped because another program made it, as far as the tables
/// of the system say. It fails if memory runs out or the table of sockets can't be read.
fn is_foreign<R: Reach>(
    rt: &R,
    alloc: Global,
    program: u32,
    from: SocketAddr,
    port: u16,
) -> io::Result<bool> {
    if from.ip() != IpAddr::V4(Ipv4Addr::LOCALHOST) {
        return Ok(true);
    }
    let is_own = is_of_program(rt, alloc, program, from.port(), port)?;
    Ok(!is_own)
}

/// Whether the file has the bit with which it is started as its owner. A path without a slash is searched for, and isn't
/// looked at.
fn is_started_as_its_owner<R: Reach>(rt: &R, path: &str) -> bool {
    match fs::metadata(rt, path) {
        Ok(file) => path.contains('/') && file.mode() & SET_USER != 0,
        Err(_) => false,
    }
}

/// A program that was started, and the port that it must connect to in its time.
#[derive(Drop)]
pub struct Starting<R: Reach> {
    pub program: Child<R::Started>,
    listener: R::Listener,
    time: TimeSpan,
}

impl<R: Reach> Starting<R> {
    /// Starts `PATH worker --port P`, which has 10 seconds to connect, but no longer than to `end`, if there is one. It
    /// refuses a file that is started as its owner, with `PermissionDenied`, since such a program couldn't be killed.
    pub fn new(
        rt: &R,
        alloc: Global,
        path: &str,
        listener: R::Listener,
        end: Option<Instant>,
    ) -> io::Result<Starting<R>> {
        if is_started_as_its_owner(rt, path) {
            return Err(io::Error::from(ErrorKind::PermissionDenied));
        }
        let time = TimeSpan::start(rt, CONNECT, end)?;
        time.left(rt)?;
        let port = listener.local_addr()?.port();
        Ok(Starting {
            program: spawn(rt, alloc, path, port)?,
            listener,
            time,
        })
    }

    /// Waits for the connection of the program, and drops those of others. It fails if the program ends first, if the table
    /// of sockets can't be read, and with `TimedOut` if the program takes too long.
    pub fn accept(&mut self, rt: &R, alloc: Global) -> io::Result<R::Stream> {
        let port = self.listener.local_addr()?.port();
        for _ in 0..u64::MAX {
            match self.listener.accept() {
                Ok((stream, from)) => {
                    if !is_foreign(rt, alloc, self.program.id(), from, port)? {
                        return Ok(stream);
                    }
                }
                Err(e) if e.kind() == ErrorKind::WouldBlock => {
                    if self.program.try_wait()?.is_some() {
                        return Err(io::Error::from(ErrorKind::BrokenPipe));
                    }
                    thread::sleep(rt, Duration::from_millis(LOOK));
                }
                Err(e) => return Err(e),
            }
            self.time.left(rt)?;
        }
        Err(io::Error::from(ErrorKind::TimedOut))
    }
}
