//! The commands.

/// A command, which turns an input into an answer. A command that solves games has the number of workers, at most 16.
#[derive(Clone, Copy, Debug, PartialEq, Eq)]
pub enum Command {
    /// Prints the least progress measure of a game.
    Measure {
        workers: u32,
    },
    /// Prints who wins at each vertex of a game, and how.
    Solve {
        workers: u32,
    },
    /// Prints who wins at each vertex of a game, and any winning strategy.
    SolveAny {
        workers: u32,
    },
    /// Prints whether a solution of a game is sound, and if it isn't, the evidence against it.
    Check,
    /// Prints the world of a game after a script of lifts, deliveries and restarts.
    Replay,
    /// Prints an automaton that accepts exactly the words that satisfy a formula.
    Automaton,
    /// Prints whether an automaton accepts exactly the words that satisfy a formula, and if it doesn't, a word on which they differ.
    Means,
    /// Prints the game of an automaton.
    Game,
    /// Prints whether an automaton has a controller under which each run is accepted, and the circuit of one.
    Synth {
        workers: u32,
    },
    /// Prints what `Synth` prints, but with a small circuit.
    SynthSmall {
        workers: u32,
    },
    /// Prints what `Synth` prints, and if there is no controller, also a circuit that plays the environment and under which no run is
    /// accepted.
    SynthCounter {
        workers: u32,
    },
    /// Prints whether an automaton accepts each run of a circuit, and if it doesn't, the inputs of a run that it doesn't accept. It matches
    /// inputs and outputs to propositions by name, or by their order if `by_place` is set. If `environment` is set, prints whether a
    /// circuit that plays the environment refutes the automaton: whether the automaton accepts no run of it, and otherwise what the
    /// controller does on a run that the automaton accepts.
    Verify {
        workers: u32,
        by_place: bool,
        environment: bool,
    },
    /// Prints whether each run of a circuit satisfies a formula, and if not, the inputs of a run that doesn't. If `environment` is set,
    /// prints whether a circuit that plays the environment refutes the formula: whether each run of it satisfies the negation, and
    /// otherwise what the controller does on a run that satisfies the formula.
    VerifyFormula {
        environment: bool,
    },
}

impl Command {
    ghost use Rattle.std.specs.Prelude.{◌≡◌, ◌≢◌, ◌∷◌, [], false, IfSome, IfNone};
    ghost use Rattle.pg_cli_words.specs.declared.command.Command.{Command};
    ghost use Rattle.pg_cli_words.specs.Commands.{command_name, workers_of};

    /// Returns the commands that have names of their own, in the order of the help. Those that solve games have this number of workers.
    pub fn all(workers: u32) -> [Command; 9]
        ensures { result ≡ Command.Measure workers ∷ Command.Solve workers ∷ Command.Check ∷ Command.Replay
            ∷ Command.Automaton ∷ Command.Means ∷ Command.Game ∷ Command.Synth workers ∷ Command.Verify workers false false ∷ [] }
    {
        [
            Command::Measure { workers },
            Command::Solve { workers },
            Command::Check,
            Command::Replay,
            Command::Automaton,
            Command::Means,
            Command::Game,
            Command::Synth { workers },
            Command::Verify {
                workers,
                by_place: false,
                environment: false,
            },
        ]
    }

    /// Returns the word that names the command.
    pub fn name(self) -> &'static str
        ensures { result.now ≡ command_name self }
    {
        match self {
            Command::Measure { .. } => "measure",
            Command::Solve { .. } | Command::SolveAny { .. } => "solve",
            Command::Check => "check",
            Command::Replay => "replay",
            Command::Automaton => "automaton",
            Command::Means => "means",
            Command::Game => "game",
            Command::Synth { .. } | Command::SynthSmall { .. } | Command::SynthCounter { .. } =>
                "synth",
            Command::Verify { .. } | Command::VerifyFormula { .. } => "verify",
        }
    }

    /// Returns the number of workers that solve for the command, or None if it solves nothing.
    pub fn workers(self) -> Option<u32>
        ensures { result ≡ workers_of self }
    {
        match self {
            Command::Measure { workers }
            | Command::Solve { workers }
            | Command::SolveAny { workers }
            | Command::Synth { workers }
            | Command::SynthSmall { workers }
            | Command::SynthCounter { workers }
            | Command::Verify { workers, .. } => Some(workers),
            Command::Check
            | Command::Replay
            | Command::Automaton
            | Command::Means
            | Command::Game
            | Command::VerifyFormula { .. } => None,
        }
    }

    /// Returns the command with this name, or None if there is no such command. If it solves games, it has this number of workers.
    pub fn named(name: &str, workers: u32) -> Option<Command>
        ensures known { IfSome result (λ command. name.now ≡ command_name command) }
        ensures workers { IfSome result (λ command. IfSome (workers_of command) (λ n. n ≡ workers)) }
        ensures unknown { IfNone result ((command : Command) → name.now ≢ command_name command) }
    {
        for command in Command::all(workers) {
            if command.name() == name {
                return Some(command);
            }
        }
        None
    }
}
