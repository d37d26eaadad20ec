//! Command lines that ask for no work, and their outcomes.

ghost use Rattle.std.specs.Prelude.{map, IfOk};
ghost use Rattle.pg_cli_words.specs.Words.{AsksFor};

use crate::words::{Request, parse_request};
use clap::Error;
use clap::error::ErrorKind;

/// The outcome of words that ask for no work.
#[derive(Clone, Copy, Debug, PartialEq, Eq)]
pub enum Outcome {
    /// They ask for the help or the version, and it was printed.
    Asked,
    /// They aren't a command line that is accepted, and the reason was printed, if the error stream could be written.
    Refused,
    /// They ask for the help or the version, and standard output couldn't be written.
    Unwritten,
    /// Memory ran out, and nothing was printed.
    OutOfMemory,
}

/// Prints `clap`'s message about the words: a fault of the command line, or the help or version that was asked for. Returns the outcome.
fn tell(rt: &(impl Print + Eprint), error: &Error) -> Outcome {
    if matches!(error.kind(), ErrorKind::OutOfMemory) {
        return Outcome::OutOfMemory;
    }
    let printed = error.print(rt);
    if error.use_stderr() {
        Outcome::Refused
    } else if printed.is_err() {
        Outcome::Unwritten
    } else {
        Outcome::Asked
    }
}

/// Reads a command line as `parse_request` does. If it asks for no work, this prints the fault on the error stream, or the help or the
/// version on standard output, and returns the outcome.
pub fn read_words(
    rt: &(impl Print + Eprint + AllocGlobal),
    words: &[&str],
) -> Result<Request, Outcome>
    ensures { IfOk result (λ request. AsksFor (map (λ word. word.now) words.now) request.line) }
{
    match parse_request(rt.alloc(), words) {
        Ok(request) => Ok(request),
        Err(error) => Err(tell(rt, &error)),
    }
}
