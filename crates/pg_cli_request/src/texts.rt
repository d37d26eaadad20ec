//! Where the texts of files come from.

ghost use Rattle.std.specs.Prelude.{◌≤◌, List, ℕ, length, IfOk, IfErr};
ghost use Rattle.pg_cli_request.specs.Refusals.{IsUnread};

use crate::fault::Fault;
use pg_cli::MOST_BYTES;

/// A source of the texts of files.
pub trait FileTexts {
    /// The file of this name has this text.
    ghost holds: { Self → List ℕ → List ℕ → Type 0 };

    /// Returns the text of the file with this name, or of standard input if the name is `-`. Fails with `Open` or `Read`, which have this
    /// name; with `Cli(Read)` for standard input; with `Cli(InputTooLong)` if there are more than 268,435,456 bytes; and with
    /// `Cli(OutOfMemory)`.
    fn text<'a>(&self, name: &'a str) -> Result<Vec<u8>, Fault<'a>>
        ensures text { IfOk result (λ text. holds self.now name.now text.items) }
        ensures limit { IfOk result (λ text. length text.items ≤ MOST_BYTES) }
        ensures refused { IfErr result (IsUnread (holds self.now) name.now) };
}
