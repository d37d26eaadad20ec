//! The program. It reads the words of the command line and the files, and writes the answer or the line of a fault. `pg_cli_request`
//! determines which.
#![tactic(auto)]

mod files;

ghost use Rattle.std.specs.Prelude.{ℕ, List};
ghost use Rattle.pg_cli_words.specs.Words.{AsksFor};

use files::Disk;
use pg_cli_request::{Fault, end, obey, tell, tell_outcome};
use pg_cli_statistics::{CountedTops, Kept, note_on_words};
use pg_cli_words::{Request, part_words, read_words};
use pg_coord::Reach;
use std::alloc::AllocError;
use std::env;
use std::io::{self, BufWriter, Write};
use std::process::ExitCode;

/// The status of a fault of the command line.
const BAD_WORDS: u8 = 2;

/// With `--status`, the status of an answer other than `WINS`, `ACCEPTED`, `REFUTES` and `SAME`.
const OTHER_ANSWER: u8 = 10;

/// The number of bytes of a long answer that are written at once.
const AT_ONCE: usize = 65_536;

/// What the program needs from the system.
trait System: Input + Print + Eprint + AllocGlobal + Reach {}

impl<R: Input + Print + Eprint + AllocGlobal + Reach> System for R {}

/// Does what a request asks for, with the answer on standard output, and returns the exit status.
fn obey_request<'a, R: System, E: Write>(
    rt: &R,
    errors: &mut E,
    request: &'a Request,
    files: &[&'a str],
) -> u8
    requires { (words : List (List ℕ)) × AsksFor words request.now.line }
{
    let Ok(buffered) = BufWriter::with_capacity(rt.alloc(), AT_ONCE, io::writer(rt)) else {
        return tell(errors, &Fault::from(AllocError));
    };
    let mut output = CountedTops::new(buffered);
    let mut kept = Kept::new();
    let ended = obey(
        rt,
        request,
        files,
        &Disk { rt },
        &mut kept,
        &mut output,
        errors,
    );
    let status = end(rt.alloc(), errors, ended, &kept);
    if request.status && status == 0 && !output.is_yes() {
        return OTHER_ANSWER;
    }
    status
}

/// Does what the words ask for, and returns the exit status.
fn obey_words<R: System, E: Write>(rt: &R, errors: &mut E, words: &[String]) -> u8 {
    let Ok(parted) = part_words(rt.alloc(), words) else {
        return tell(errors, &Fault::from(AllocError));
    };
    match read_words(rt, parted.others.as_slice()) {
        Ok(request) => obey_request(rt, errors, &request, parted.files.as_slice()),
        Err(outcome) => {
            let status = tell_outcome(errors, outcome);
            if status == BAD_WORDS {
                note_on_words(rt.alloc(), words, errors);
            }
            status
        }
    }
}

/// Returns the words of the command line. Fails if a word isn't UTF-8, which is a fault of the command line, and if memory runs out.
fn words_of(rt: &HostRuntime) -> io::Result<Vec<String>> {
    Ok(env::args(rt)?.collect(rt.alloc())?)
}

fn main(rt: HostRuntime) -> ExitCode {
    let mut errors = rt.stderr();
    let status = match words_of(&rt) {
        Ok(words) => obey_words(&rt, &mut errors, words.as_slice()),
        Err(error) if error.kind() == io::ErrorKind::OutOfMemory => tell(
            &mut errors,
            &Fault::from(AllocError),
        ),
        Err(_) => {
            let _ = eprintln!(rt; "parsolve: a word of the command line is not UTF-8");
            BAD_WORDS
        }
    };
    ExitCode::from(status)
}
