//! The files, or standard input, that are the input of a command.

ghost use Rattle.std.specs.Prelude.{◌≡◌, ◌≢◌};

use pg_cli::{CliFault, read_input};
use pg_cli_request::{Fault, FileTexts};
use pg_cli_words::STANDARD_INPUT;
use std::alloc::AllocError;
use std::fs::{self, Files, OpenFile};
use std::io;

/// The files of the system, and standard input.
#[derive(Clone, Copy)]
pub(crate) struct Disk<'r, R> {
    pub rt: &'r R,
}

/// Returns why the file with this name has no text, from the fault of reading it: a failed read names the file, and every other fault stays
/// as it is.
fn fault_in(name: &str, fault: CliFault) -> Fault<'_>
    ensures read { fault ≡ CliFault.Read → result ≡ Fault.Read name.entry }
    ensures other { fault ≢ CliFault.Read → result ≡ Fault.Cli fault }
{
    match fault {
        CliFault::Read => Fault::Read(name),
        _ => Fault::Cli(fault),
    }
}

/// Opens a file. Fails if it is a folder.
fn open_file<R: Files>(rt: &R, name: &str) -> io::Result<R::File> {
    let file = fs::open(rt, name)?;
    if file.metadata()?.is_dir() {
        return Err(io::Error::from(io::ErrorKind::IsADirectory));
    }
    Ok(file)
}

impl<R: Files + Input + AllocGlobal> FileTexts for Disk<'_, R> {
    // no contract says what files hold
    ghost holds = { λ _ _ _. Unit {0} };

    fn text<'a>(&self, name: &'a str) -> Result<Vec<u8>, Fault<'a>> {
        let alloc = self.rt.alloc();
        if name == STANDARD_INPUT {
            return Ok(read_input(alloc, &mut self.rt.reader())?);
        }
        match open_file(self.rt, name) {
            Ok(mut file) => match read_input(alloc, &mut file) {
                Ok(text) => Ok(text),
                Err(fault) => Err(fault_in(name, fault)),
            },
            Err(why) if why.kind() == io::ErrorKind::OutOfMemory => Err(Fault::from(AllocError)),
            Err(why) => Err(Fault::Open(name, why)),
        }
    }
}
