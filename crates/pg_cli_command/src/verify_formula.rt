//! The command `verify --ltl`.

ghost use Rattle.std.specs.Prelude.{◌≡◌, IfOk, IfErr};
ghost use Rattle.pg_satisfies_texts.specs.Printing.{verdict_text};
ghost use Rattle.pg_cli_command.specs.Satisfying.{IsJudgedOn, RefusesJudge};
ghost use Rattle.pg_cli_command.specs.Mirrors.Parting.{parting_of};
ghost use Rattle.pg_cli_command.specs.Mirrors.Working.{ShowsWhat, Fails};

use crate::fault::CliFault;
use crate::parts::Texts;
use crate::printing::CommandAnswer;
use pg_satisfies_texts::{SatisfactionVerdict, judge, write_judged};
use std::alloc::Global;
use std::io::Write;

/// The verdict on a formula and a circuit, which plays the environment if `environment` is set, and otherwise the controller.
#[derive(Drop)]
pub(crate) struct FormulaVerified {
    verdict: SatisfactionVerdict,
    environment: bool,
}

impl CommandAnswer for FormulaVerified {
    ghost is_whole = { λ _. Unit {0} };

    ghost shows = { λ a output. output ≡ verdict_text a.environment a.verdict };

    fn write<W: Write>(self, writer: &mut W) -> Option<()> {
        write_judged(&self.verdict, self.environment, writer).ok()
    }
}

/// Returns whether every run of the circuit that the second text spells satisfies the formula of the first text, or its negation if the
/// circuit plays the environment.
pub(crate) fn verify_formula(
    alloc: Global,
    texts: Texts,
    environment: bool,
) -> Result<FormulaVerified, CliFault>
    ensures whole { IfOk result ⟦<FormulaVerified as CommandAnswer>⟧.is_whole }
    ensures answer { IfOk result (ShowsWhat (IsJudgedOn (parting_of texts) environment) ⟦<FormulaVerified as CommandAnswer>⟧.shows) }
    ensures refused { IfErr result (Fails (RefusesJudge (parting_of texts))) }
{
    match texts.both() {
        None => Err(CliFault::NoSeparator),
        Some((first, second)) => {
            let verdict = judge(alloc, first, second, environment)?;
            Ok(FormulaVerified {
                verdict,
                environment,
            })
        }
    }
}
