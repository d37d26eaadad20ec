//! The command `means`.

ghost use Rattle.std.specs.Prelude.{◌≡◌, map, IfOk, IfErr};
ghost use Rattle.pg_means_texts.specs.Printing.{verdict_text};
ghost use Rattle.pg_cli_command.specs.Meaning.{IsMeant, RefusesMeans};
ghost use Rattle.pg_cli_command.specs.Mirrors.Parting.{parting_of};
ghost use Rattle.pg_cli_command.specs.Mirrors.Working.{ShowsWhat, Fails};

use crate::fault::CliFault;
use crate::parts::Texts;
use crate::printing::CommandAnswer;
use pg_means_texts::{Compared, compare, write_compared};
use std::alloc::Global;
use std::io::Write;

impl CommandAnswer for Compared {
    ghost is_whole = { λ _. Unit {0} };

    ghost shows = { λ a output. output ≡ verdict_text (map (λ v. v.items) a.names.items) a.verdict };

    fn write<W: Write>(self, writer: &mut W) -> Option<()> {
        write_compared(&self, writer).ok()
    }
}

/// Compares the automaton that the first text spells with the formula that the second text spells.
pub(crate) fn means(alloc: Global, texts: Texts) -> Result<Compared, CliFault>
    ensures whole { IfOk result ⟦<Compared as CommandAnswer>⟧.is_whole }
    ensures answer { IfOk result (ShowsWhat (IsMeant (parting_of texts)) ⟦<Compared as CommandAnswer>⟧.shows) }
    ensures refused { IfErr result (Fails (RefusesMeans (parting_of texts))) }
{
    match texts.both() {
        None => Err(CliFault::NoSeparator),
        Some((first, second)) => Ok(compare(alloc, first, second)?),
    }
}
