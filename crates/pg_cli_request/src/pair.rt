//! Commands that are given two texts.

ghost use Rattle.std.specs.Prelude.{◌≡◌};
ghost use Rattle.pg_cli_request.specs.Inputs.{pair_of};

use pg_cli::Command;

/// A command that is given two texts: a game, an automaton or a formula, and what belongs to it.
#[derive(Clone, Copy, Debug, PartialEq, Eq)]
pub enum PairCommand {
    /// A game and a solution of it.
    Check,
    /// A game and a script.
    Replay,
    /// An automaton and a formula.
    Means,
    /// An automaton and a circuit. The circuit's inputs and outputs go by their names, or by their places if `by_place` is set. The circuit
    /// plays the controller, or the environment if `environment` is set.
    Verify { by_place: bool, environment: bool },
    /// A formula and a circuit, which plays the controller, or the environment if `environment` is set.
    VerifyFormula { environment: bool },
}

/// Returns the command as one that is given two texts, or None if it takes one.
pub(crate) fn pair_of(command: Command) -> Option<PairCommand>
    ensures { result ≡ pair_of command }
{
    match command {
        Command::Check => Some(PairCommand::Check),
        Command::Replay => Some(PairCommand::Replay),
        Command::Means => Some(PairCommand::Means),
        Command::Verify {
            by_place,
            environment,
            ..
        } => Some(PairCommand::Verify {
            by_place,
            environment,
        }),
        Command::VerifyFormula { environment } => Some(PairCommand::VerifyFormula { environment }),
        _ => None,
    }
}
