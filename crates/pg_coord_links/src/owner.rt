//! Finds out whose a connection is, from the tables of the system.

use std::alloc::{AllocError, Global};
use std::fs::{self, Files};
use std::io::{self, BufRead, BufReader, ErrorKind};

/// The greatest number of programs that are looked at: the one that was started, and those that it started in turn.
const MOST_PROGRAMS: usize = 64;

/// The number of descriptors of a program that are looked at.
const MOST_DESCRIPTORS: u32 = 1024;

/// The other end in the table of a socket that listens.
const NOBODY: &str = "00000000:0000";

/// A socket, as the table describes it.
#[derive(Clone, Copy)]
struct Socket {
    /// The user whose program made it.
    user: u32,
    /// Its number; 0 if no program holds it any more. The table has such a socket for about a minute, and for as long as
    /// the other end hasn't taken what was sent.
    number: u64,
}

/// Returns the address and the port in a row of the table for a port of 127.0.0.1.
fn end_at(alloc: Global, port: u16) -> Result<String, AllocError> {
    format!(in alloc; "0100007F:{port:04X}")
}

/// Whether a row of the table describes the socket between these two ends.
fn is_between(row: &str, local: &str, remote: &str) -> bool {
    let mut fields = row.split_ascii_whitespace().skip(1);
    fields.next() == Some(local) && fields.next() == Some(remote)
}

/// Returns the socket that a row of the table describes.
fn socket_in(row: &str) -> Option<Socket> {
    let mut fields = row.split_ascii_whitespace().skip(7);
    let user = fields.next()?.parse::<u32>().ok()?;
    let number = fields.nth(1)?.parse::<u64>().ok()?;
    Some(Socket { user, number })
}

/// Returns the socket between these two ends, if there is one.
fn socket_between<R: Files>(
    rt: &R,
    alloc: Global,
    local: &str,
    remote: &str,
) -> io::Result<Option<Socket>> {
    let table = BufReader::new(alloc, fs::open(rt, "/proc/net/tcp")?)?;
    for line in table.lines(alloc) {
        let line = line?;
        if is_between(line.as_str(), local, remote) {
            return Ok(socket_in(line.as_str()));
        }
    }
    Ok(None)
}

/// Returns the socket at the port `from` of 127.0.0.1 that is connected to the port `to` there, if there is one.
fn socket_of<R: Files>(rt: &R, alloc: Global, from: u16, to: u16) -> io::Result<Option<Socket>> {
    let local = end_at(alloc, from)?;
    let remote = end_at(alloc, to)?;
    socket_between(rt, alloc, local.as_str(), remote.as_str())
}

/// Returns the user of this program: the user of its socket that listens at the port of 127.0.0.1. It fails if the table
/// doesn't have this socket or can't be read.
fn own_user<R: Files>(rt: &R, alloc: Global, port: u16) -> io::Result<u32> {
    let local = end_at(alloc, port)?;
    match socket_between(rt, alloc, local.as_str(), NOBODY)? {
        Some(socket) => Ok(socket.user),
        None => Err(io::Error::from(ErrorKind::NotFound)),
    }
}

/// Whether the socket at the port `from` of 127.0.0.1 that is connected to the port `to` there is still in the system's
/// table, and no program holds it. It fails if the table can't be read. No clause says what it returns.
pub fn is_orphaned<R: Files>(rt: &R, alloc: Global, from: u16, to: u16) -> io::Result<bool> {
    let socket = socket_of(rt, alloc, from, to)?;
    Ok(matches!(socket, Some(Socket { number: 0, .. })))
}

/// Whether a program holds the socket with this name, or None if the system doesn't show what the program holds. It fails
/// only if memory runs out.
fn holds<R: Files>(rt: &R, alloc: Global, program: u32, socket: &str) -> io::Result<Option<bool>> {
    for number in 0..MOST_DESCRIPTORS {
        let path = format!(in alloc; "/proc/{program}/fd/{number}")?;
        match rt.read_link(alloc, path.as_str()) {
            Ok(target) => {
                if target.as_str() == socket {
                    return Ok(Some(true));
                }
            }
            Err(e) => match e.kind() {
                ErrorKind::NotFound | ErrorKind::InvalidData => {}
                ErrorKind::OutOfMemory => return Err(e),
                _ => return Ok(None),
            },
        }
    }
    Ok(Some(false))
}

/// Returns the numbers of the programs that a program started and that haven't ended, as the system lists them, or nothing
/// if it doesn't.
fn children_of<R: Files>(rt: &R, alloc: Global, program: u32) -> io::Result<String> {
    let path = format!(in alloc; "/proc/{program}/task/{program}/children")?;
    match fs::open(rt, path.as_str()) {
        Ok(file) => io::read_to_string(alloc, file),
        Err(_) => Ok(String::new(alloc)),
    }
}

/// Appends the numbers among the words.
fn push_numbers(words: &str, numbers: &mut Vec<u32>) -> Result<(), AllocError> {
    for word in words.split_ascii_whitespace() {
        if let Ok(number) = word.parse::<u32>() {
            numbers.push(number)?;
        }
    }
    Ok(())
}

/// Whether the program, or one that it started, holds the socket with this name, or the system doesn't say who holds it.
fn may_be_held<R: Files>(rt: &R, alloc: Global, program: u32, socket: &str) -> io::Result<bool> {
    let mut programs = vec![in alloc; program]?;
    let mut is_unknown = false;
    for place in 0..MOST_PROGRAMS {
        let Some(&next) = programs.get(place) else {
            return Ok(is_unknown);
        };
        match holds(rt, alloc, next, socket)? {
            Some(true) => return Ok(true),
            Some(false) => {}
            None => is_unknown = true,
        }
        let children = children_of(rt, alloc, next)?;
        push_numbers(children.as_str(), &mut programs)?;
    }
    Ok(is_unknown)
}

/// Whether the socket at the port `from` of 127.0.0.1 that is connected to the port `to` there, at which this program
/// listens, is taken for a socket of the program: our user owns it, and the program or one that it started holds it, as far
/// as the system says who holds it. It fails if the table of sockets can't be read.
pub fn is_of_program<R: Files>(
    rt: &R,
    alloc: Global,
    program: u32,
    from: u16,
    to: u16,
) -> io::Result<bool> {
    let user = own_user(rt, alloc, to)?;
    match socket_of(rt, alloc, from, to)? {
        Some(socket) if socket.user == user && socket.number != 0 => {
            let name = format!(in alloc; "socket:[{}]", socket.number)?;
            may_be_held(rt, alloc, program, name.as_str())
        }
        _ => Ok(false),
    }
}
