//! Answers, and how they are printed.

ghost use Rattle.std.specs.Prelude.{◌≡◌, ◌≢◌, ℕ, List, IfOk, IfErr, OnOk, OnSome, MatchResult};
ghost use Rattle.std.specs.Io.KnownBytes.{Appends};

use crate::fault::CliFault;
use std::io::Write;

/// The answer that a command worked out from an input: a value whose text isn't written yet.
pub(crate) trait CommandAnswer {
    /// What must hold of an answer that is written.
    ghost is_whole: { Self → Type 0 };

    /// The output is the answer's text.
    ghost shows: { Self → List ℕ → Type 0 };

    /// Writes the answer's text. Returns None if the writer fails.
    fn write<W: Write>(self, writer: &mut W) -> Option<()>
        requires { is_whole self }
        ensures { OnSome result ((output : List ℕ) → shows self output
            → Appends (W.contents writer.old) (W.contents writer.new) output) };
}

/// Writes the text of an answer. If there is a fault instead, returns the fault and writes nothing. Fails with `Write` if the writer fails.
pub(crate) fn print<A: CommandAnswer, W: Write>(
    worked_out: Result<A, CliFault>,
    writer: &mut W,
) -> Result<(), CliFault>
    requires { IfOk worked_out A.is_whole }
    ensures written { OnOk result (MatchResult worked_out (λ answer. (output : List ℕ) → A.shows answer output
        → Appends (W.contents writer.old) (W.contents writer.new) output) (λ _. ⊥)) }
    ensures refused { IfErr result (λ fault. MatchResult worked_out (λ _. fault ≡ CliFault.Write) (λ why. fault ≡ why)) }
    ensures untouched { IfErr result (λ fault. fault ≢ CliFault.Write → writer.new ≡ writer.old) }
{
    match worked_out?.write(writer) {
        Some(()) => Ok(()),
        None => Err(CliFault::Write),
    }
}
