//! The command `automaton`.

ghost use Rattle.std.specs.Prelude.{◌≡◌, ◌⊎◌, ℕ, List, true, IfOk, IfErr};
ghost use Rattle.pg_means.specs.declared.fault.MeansFault.TheVariants as means;
ghost use Rattle.pg_cli_command.specs.Translating.{IsTranslated, RefusesAutomaton};
ghost use Rattle.pg_cli_command.specs.Mirrors.Working.{ShowsWhat, Fails};

use crate::fault::CliFault;
use crate::printing::CommandAnswer;
use crate::solver::Solver;
use pg_ltl::read_formula;
use pg_means_texts::{FormulaVerdict, MeansFault, compare};
use std::alloc::Global;
use std::io::Write;

/// The text of an automaton that accepts exactly the words that satisfy a formula.
#[derive(Drop)]
pub(crate) struct Translated {
    automaton: Vec<u8>,
}

impl CommandAnswer for Translated {
    ghost is_whole = { λ _. Unit {0} };

    ghost shows = { λ a output. output ≡ a.automaton.items };

    fn write<W: Write>(self, writer: &mut W) -> Option<()> {
        writer.write_all(&self.automaton).ok()
    }
}

/// Whether the automaton that the first text spells is shown to accept exactly the words that satisfy the formula of the second text.
fn is_shown(alloc: Global, automaton: &[u8], formula: &[u8]) -> Result<bool, CliFault>
    ensures shown { IfOk result (λ yes. yes ≡ true → IsTranslated formula.now automaton.now) }
    ensures refused { IfErr result (λ fault. (fault ≡ CliFault.OutOfMemory) ⊎ (fault ≡ CliFault.Means means.TooLarge)) }
{
    match compare(alloc, automaton, formula) {
        Ok(compared) => Ok(matches!(compared.verdict, FormulaVerdict::Same)),
        Err(fault) => match CliFault::from(fault) {
            CliFault::OutOfMemory => Err(CliFault::OutOfMemory),
            CliFault::Means(MeansFault::TooLarge) => Err(CliFault::Means(MeansFault::TooLarge)),
            _ => Ok(false),
        },
    }
}

/// The most propositions that an automaton may have.
const MOST_PROPOSITIONS: usize = 16;

/// Returns an automaton that accepts exactly the words that satisfy the formula that a text spells. The solver proposes it, and it is
/// returned only if it is shown to be right. If it isn't, this fails with `Unshown`, or with `Means` if automaton and formula are too large
/// together.
pub(crate) fn automaton<F: Solver>(
    alloc: Global,
    text: Vec<u8>,
    solver: &F,
) -> Result<Translated, CliFault>
    ensures whole { IfOk result ⟦<Translated as CommandAnswer>⟧.is_whole }
    ensures answer { IfOk result (ShowsWhat (IsTranslated text.items) ⟦<Translated as CommandAnswer>⟧.shows) }
    ensures refused { IfErr result (Fails (RefusesAutomaton text.items)) }
{
    let (names, formula) = read_formula(alloc, &text)?;
    if names.len() > MOST_PROPOSITIONS {
        return Err(CliFault::TooManyPropositions);
    }
    let automaton = solver.translate(alloc, &formula, &names)?;
    let is_right = is_shown(alloc, &automaton, &text)?;
    if is_right {
        return Ok(Translated { automaton });
    }
    Err(CliFault::Unshown)
}
