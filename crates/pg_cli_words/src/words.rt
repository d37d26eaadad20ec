//! The words of the command line.

ghost use Rattle.std.specs.Prelude.{◌≤◌, map, IfOk, IfSome};
ghost use Rattle.pg_cli_words.specs.Words.{AsksFor, IsPort};
ghost use Rattle.pg_cli_words.specs.Mirrors.Asked.{IsLineOf};

use crate::Command;
use clap::error::ErrorKind;
use clap::{Arg, ArgAction, ArgMatches, Command as Program, Error};
use std::alloc::Global;

/// What a command line asks for.
#[derive(Debug, Drop)]
pub enum Invocation {
    /// A command, and the program to start as each of its workers; without a program the workers run in this process.
    Run(Command, Option<String>),
    /// A worker that connects to this port of 127.0.0.1, from 1 to 65535.
    Work(u16),
}

/// A command line: what it asks for, and the options that leave the answer as it is.
#[derive(Debug, Drop)]
pub struct Request {
    /// What the command line asks for.
    pub line: Invocation,
    /// The names of the outputs, separated by commas, if `--outs` gives them in place of a header.
    pub outs: Option<String>,
    /// Whether to print figures after the answer.
    pub stats: bool,
    /// Whether to print them as one JSON object; then they are printed whether or not `stats` is set.
    pub json: bool,
    /// Whether the exit status says if the answer is yes.
    pub status: bool,
}

const NAME: &str = "parsolve";

const VERSION: &str = "0.2.0";

/// The option for the number of workers.
const WORKERS: &str = "workers";

/// The option for the program to start as each worker.
const APART: &str = "apart";

/// The option for any winning strategy.
const ANY: &str = "any";

/// The option that asks for a small circuit.
const SMALL: &str = "small";

/// The option that asks for a circuit that plays the environment.
const COUNTER: &str = "counter";

/// The option that matches inputs and outputs of a circuit by their order.
const BY_PLACE: &str = "by-place";

/// The option that asks about a circuit that plays the environment.
const ENVIRONMENT: &str = "environment";

/// The option that asks about a formula.
const LTL: &str = "ltl";

/// The option that names the outputs of an automaton.
const OUTS: &str = "outs";

/// The option for figures.
const STATS: &str = "stats";

/// The option for figures in JSON.
const JSON: &str = "json";

/// The option for an exit status that depends on the answer.
const STATUS: &str = "status";

/// The word for a worker.
const WORKER: &str = "worker";

/// The option for the port that a worker connects to.
const PORT: &str = "port";

/// The greatest number of workers.
const MOST_WORKERS: u8 = 16;

const ABOUT: &str = "Solves parity games; the answers are proved";

const MORE: &str = "\
Each command reads the files that you name (`-` is standard input), or standard input if you name none, and writes its
answer to standard output. Games and solutions are in PGSolver's format, formulas in the syntax of Spot, automata in HOA v1,
circuits in AIGER.

Exit status:
  0  the command printed an answer
  1  the command refused the input, ran out of memory, could not read or write, or found no free port for its workers;
     a line on the error stream says why
  2  the command line names no command, or has a word that does not belong there
  3  undecided: the measures of the game and of its dual are both top at the vertex that the error stream names; this
     happens only if the workers are programs other than this one
  10  with `--status`, the command printed an answer other than `WINS`, `ACCEPTED`, `REFUTES` or `SAME`

Example: parsolve solve examples/two.pg";

/// What stands after an option.
#[derive(Clone, Copy)]
enum OptionValue {
    /// Nothing.
    Nothing,
    /// A text, which the help calls by this name.
    Text(&'static str),
    /// A number of workers, from 0 to 16; without the option there are 2.
    Workers,
    /// A port, from 1 to 65535; the option must be there.
    Port,
}

/// An option of a command: its name, what stands after it, its help, and the names of the options that it can't stand beside.
#[derive(Clone, Copy)]
struct CliOption {
    name: &'static str,
    value: OptionValue,
    help: &'static str,
    conflicts: &'static [&'static str],
}

const WORKERS_OPTION: CliOption = CliOption {
    name: WORKERS,
    value: OptionValue::Workers,
    help: "How many workers solve the game, from 0 to 16; the answer is the same",
    conflicts: &[],
};

const APART_OPTION: CliOption = CliOption {
    name: APART,
    value: OptionValue::Text("PATH"),
    help: "Start each worker as the program PATH, which must be this program; the answer is the same",
    conflicts: &[],
};

const ANY_OPTION: CliOption = CliOption {
    name: ANY,
    value: OptionValue::Nothing,
    help: "Print any winning strategy, found in less time; the winners are the same",
    conflicts: &[WORKERS, APART],
};

const SMALL_OPTION: CliOption = CliOption {
    name: SMALL,
    value: OptionValue::Nothing,
    help: "Print a small circuit, found in more time; every run of it is accepted too",
    conflicts: &[WORKERS, APART],
};

const COUNTER_OPTION: CliOption = CliOption {
    name: COUNTER,
    value: OptionValue::Nothing,
    help: "If there is no controller, print a circuit of the environment that shows why",
    conflicts: &[WORKERS, APART, SMALL],
};

const BY_PLACE_OPTION: CliOption = CliOption {
    name: BY_PLACE,
    value: OptionValue::Nothing,
    help: "Match the circuit's inputs and outputs to the propositions by order, not by name",
    conflicts: &[],
};

const ENVIRONMENT_OPTION: CliOption = CliOption {
    name: ENVIRONMENT,
    value: OptionValue::Nothing,
    help: "Ask whether a circuit that plays the environment keeps every controller from success",
    conflicts: &[],
};

const LTL_OPTION: CliOption = CliOption {
    name: LTL,
    value: OptionValue::Nothing,
    help: "Ask whether every run of the circuit satisfies a formula, the first input, in place of an automaton",
    conflicts: &[BY_PLACE, OUTS],
};

const OUTS_OPTION: CliOption = CliOption {
    name: OUTS,
    value: OptionValue::Text("NAMES"),
    help: "The propositions that the controller sets, separated by commas, in place of the header; blanks around them don't count",
    conflicts: &[],
};

const STATS_OPTION: CliOption = CliOption {
    name: STATS,
    value: OptionValue::Nothing,
    help: "Print counts and seconds on the error stream, after the answer",
    conflicts: &[],
};

const JSON_OPTION: CliOption = CliOption {
    name: JSON,
    value: OptionValue::Nothing,
    help: "Print counts and seconds as one JSON object on the error stream, after the answer",
    conflicts: &[],
};

const CHECK_STATUS_OPTION: CliOption = CliOption {
    name: STATUS,
    value: OptionValue::Nothing,
    help: "End with status 0 for `WINS`, and 10 for `LEAVES` and `CYCLE`",
    conflicts: &[],
};

const MEANS_STATUS_OPTION: CliOption = CliOption {
    name: STATUS,
    value: OptionValue::Nothing,
    help: "End with status 0 for `SAME`, and 10 for `DIFFERS`",
    conflicts: &[],
};

const VERIFY_STATUS_OPTION: CliOption = CliOption {
    name: STATUS,
    value: OptionValue::Nothing,
    help: "End with status 0 for `ACCEPTED` and `REFUTES`, and 10 for other answers",
    conflicts: &[],
};

const PORT_OPTION: CliOption = CliOption {
    name: PORT,
    value: OptionValue::Port,
    help: "The port of 127.0.0.1 to connect to, from 1 to 65535",
    conflicts: &[],
};

/// The help of a command: its line in the list of commands, its usage, its options in their order, and the text after them.
#[derive(Clone, Copy)]
struct Help {
    about: &'static str,
    usage: &'static str,
    options: &'static [CliOption],
    more: &'static str,
}

const MEASURE: Help = Help {
    about: "Prints the least progress measure of a game",
    usage: "parsolve measure [OPTIONS] [GAME]",
    options: &[WORKERS_OPTION, APART_OPTION, STATS_OPTION, JSON_OPTION],
    more: "\
Input: a parity game in PGSolver's format, such as `parity 1; 0 1 0 0,1; 1 2 1 0;`, from the file GAME or from standard
input
Output: a line `IDENTIFIER MEASURE;` for each vertex, in rising order of identifiers. A measure is a list of numbers
separated by commas, one for each odd priority of the game, the greatest priority first (`-` if there is none), or `T`
for top. Player 0 wins from a vertex with a list, and player 1 from one with `T`.

Example: printf 'parity 1; 0 1 0 0,1; 1 2 1 0;' | parsolve measure
prints `0 1;` and `1 0;`, each on a line.",
};

const SOLVE: Help = Help {
    about: "Prints the winner of each vertex of a game, and a winning strategy",
    usage: "parsolve solve [OPTIONS] [GAME]",
    options: &[
        WORKERS_OPTION,
        APART_OPTION,
        ANY_OPTION,
        STATS_OPTION,
        JSON_OPTION,
    ],
    more: "\
Input: a parity game in PGSolver's format, such as `parity 1; 0 1 0 0,1; 1 2 1 0;`, from the file GAME or from standard
input
Output: `paritysol N;` with the greatest identifier, and a line `IDENTIFIER WINNER STRATEGY;` for each vertex, in rising
order of identifiers. STRATEGY is the successor that the winner moves to; it is left out if the other player owns the
vertex. The least progress measures determine the strategy. With `--any` it is any winning strategy, found in less time.

Example: printf 'parity 1; 0 1 0 0,1; 1 2 1 0;' | parsolve solve
prints `paritysol 1;`, `0 0 1;` and `1 0;`, each on a line.",
};

const CHECK: Help = Help {
    about: "Prints whether a solution of a game is sound",
    usage: "parsolve check [OPTIONS] [GAME SOLUTION]",
    options: &[CHECK_STATUS_OPTION, STATS_OPTION, JSON_OPTION],
    more: "\
Input: a parity game and a solution of it, both in PGSolver's format, from the files GAME and SOLUTION, or from standard
input with a line `--` between them
Output: `WINS` if each winner in the solution wins by the strategy in the solution; `LEAVES V W` if the edge from V to W,
which follows the solution, leads to a vertex of the other winner; `CYCLE P V,V,..` if these vertices form a cycle that
follows the solution and whose greatest priority P favours the loser. With `--status` the exit status is 0 for `WINS`,
and 10 for `LEAVES` and `CYCLE`.

Example: printf 'parity 1; 0 1 0 0,1; 1 2 1 0;\\n--\\n0 0 1; 1 0;' | parsolve check
prints `WINS`.",
};

const REPLAY: Help = Help {
    about: "Prints what workers compute for a game under a script of lifts, deliveries and restarts",
    usage: "parsolve replay [GAME SCRIPT]",
    options: &[],
    more: "\
Input: a parity game in PGSolver's format and a script, from the files GAME and SCRIPT, or from standard input with a line
`--` between them. The script:
  workers N;      there are workers 1 to N, at most 16; replica 0 is the coordinator
  cut A,B,..;     optional: the worker of each vertex, in rising order of identifiers; without this line the workers own
                  runs of about equal length
  lift W ID;      worker W lifts its vertex ID; if the measure rises, that makes an update
  deliver R N;    replica R takes update N; updates are numbered from 0 in the order in which they are made
  restart W;      worker W forgets everything
  central ID;     the coordinator lifts vertex ID
Output: a line `update N ID MEASURE;` for each update; then for each replica a line `replica R taken N,N,..;` with the
updates that it has taken since its last restart (`-` for none), and its map as `measure` prints maps. An event that is
impossible is refused.

Example: printf 'parity 1; 0 1 0 0,1; 1 2 1 0;\\n--\\nworkers 1; lift 1 0; deliver 0 0;' | parsolve replay
prints `update 0 0 1;`, `replica 0 taken 0;`, `0 1;`, `1 0;`, `replica 1 taken 0;`, `0 1;` and `1 0;`, each on a line.",
};

const AUTOMATON: Help = Help {
    about: "Prints an automaton that accepts exactly the words that satisfy a formula",
    usage: "parsolve automaton [OPTIONS] [FORMULA]",
    options: &[OUTS_OPTION, STATS_OPTION, JSON_OPTION],
    more: "\
Input: a formula of linear temporal logic, such as `G (request -> F grant)`, from the file FORMULA or from standard input.
Its operators are those of Spot: `!` `&` `|` `->` `<->` `xor`, `X` `F` `G` `U` `R` `W` `M`. If there are several formulas,
each followed by `;`, all of them have to hold.
Output: a deterministic automaton in HOA v1 with a parity condition. It accepts exactly the words that satisfy the formula:
the program checks that before it prints it, as `means` does. With `--outs` it has a header `controllable-AP`, which lists
the propositions that the controller sets, so that `game`, `synth` and `verify` read it.

Example: printf 'G (request -> F grant)' | parsolve automaton --outs grant | parsolve synth",
};

const MEANS: Help = Help {
    about: "Prints whether an automaton accepts exactly the words that satisfy a formula",
    usage: "parsolve means [OPTIONS] [AUTOMATON FORMULA]",
    options: &[MEANS_STATUS_OPTION, STATS_OPTION, JSON_OPTION],
    more: "\
Input: an automaton in HOA v1, deterministic, with a parity condition and labels on its edges, and a formula, as `automaton`
reads it, from the files AUTOMATON and FORMULA, or from standard input with a line `--` between them. A header
`controllable-AP` makes no difference. A proposition that only one of the two names is free in the other.
Output: `SAME` if the automaton accepts exactly the words that satisfy the formula. Or `DIFFERS`, a line that says which of the
two accepts a word, and the word: a line for each step with the propositions that hold (`-` if none does), a line `loop`, and
lines that repeat for ever. With `--status` the exit status is 0 for `SAME`, and 10 for `DIFFERS`.

Example: parsolve means examples/traffic-light.hoa examples/traffic-light.ltl
prints `SAME`.",
};

const GAME: Help = Help {
    about: "Prints the parity game of an automaton",
    usage: "parsolve game [OPTIONS] [AUTOMATON]",
    options: &[OUTS_OPTION, STATS_OPTION, JSON_OPTION],
    more: "\
Input: an automaton in HOA v1, deterministic, with a parity condition and labels on its edges, from the file AUTOMATON or
from standard input. The header `controllable-AP` lists the propositions that the controller sets. If there is no such
header, `--outs` names them.
Output: the game of the automaton in PGSolver's format. Player 1 chooses the propositions that the environment sets, and
then player 0 those that the controller sets. The run has ended at vertex `dead`. The vertex `sQ` is the arrival at state
Q without a set, and `sQ/S` the arrival with the set S that counts. At `sQ:I` player 0 answers the input letter I at
state Q. Player 0 wins from `sQ`, for the start Q, if and only if there is a controller under which every run is accepted.

Example: parsolve game examples/request-grant.hoa | parsolve solve",
};

const SYNTH: Help = Help {
    about: "Prints a controller for an automaton, as a circuit",
    usage: "parsolve synth [OPTIONS] [AUTOMATON]",
    options: &[
        WORKERS_OPTION,
        APART_OPTION,
        SMALL_OPTION,
        COUNTER_OPTION,
        OUTS_OPTION,
        STATS_OPTION,
        JSON_OPTION,
    ],
    more: "\
Input: an automaton in HOA v1, deterministic, with a parity condition and labels on its edges, from the file AUTOMATON or
from standard input. The header `controllable-AP` lists the propositions that the controller sets. If there is no such
header, `--outs` names them.
Output: `REALIZABLE` and a circuit in the ASCII form of AIGER. Its inputs are the propositions that the environment sets,
its outputs those that the controller sets, and the automaton accepts every run of it, whatever the inputs. Or
`UNREALIZABLE`, if there is no such controller. With `--small` the circuit has fewer latches and
gates, and takes more time to find; the program checks all its runs before it prints the circuit, as `verify` does.
With `--counter` a circuit follows `UNREALIZABLE` too. It plays the environment: its inputs are the propositions that
the controller sets, its outputs the others, and the automaton accepts no run of it, whatever the controller does.

Example: parsolve synth examples/request-grant.hoa",
};

const VERIFY: Help = Help {
    about: "Prints whether an automaton accepts each run of a circuit, or each run satisfies a formula",
    usage: "parsolve verify [OPTIONS] [AUTOMATON CIRCUIT]\n       parsolve verify --ltl [OPTIONS] [FORMULA CIRCUIT]",
    options: &[
        LTL_OPTION,
        BY_PLACE_OPTION,
        ENVIRONMENT_OPTION,
        OUTS_OPTION,
        VERIFY_STATUS_OPTION,
        STATS_OPTION,
        JSON_OPTION,
    ],
    more: "\
Input: an automaton, as `synth` reads it, and a circuit in AIGER, ASCII or binary, from the files AUTOMATON and CIRCUIT, or
from standard input with a line `--` between them. The answer of `synth` is such a circuit. The symbols of the circuit's
inputs and outputs name the propositions. With `--by-place` their order matches that of the propositions.
Output: `ACCEPTED` if the circuit has exactly one run for any inputs, and the automaton accepts that run. `STUCK` and a
line of inputs for each step if the automaton then has no edge for what the circuit does. `REJECTED`, lines of inputs, a
line `loop`, and lines of inputs that repeat for ever, if the automaton does not accept the run on these inputs. A line has
a 0 or a 1 for each input, in the order of the circuit's inputs. With `--status` the exit status is 0 for `ACCEPTED`, and
10 for `STUCK` and `REJECTED`.
With `--environment` the circuit plays the environment: its inputs are the propositions that the controller sets, its outputs
the others, and no output depends on an input of the same step. Output: `REFUTES` if the automaton accepts no run of it,
whatever the controller does, so that there is no controller. Or `FAILS`, lines of inputs, a line `loop`, and lines that
repeat for ever: the automaton accepts the run on these inputs. With `--status` the exit status is 0 for `REFUTES`.
With `--ltl` the first input is a formula, as `automaton` reads it, with any number of propositions. The formula names inputs,
outputs and latches of the circuit by their symbols, and those that it does not name are free. Output: `ACCEPTED` if every run
of the circuit satisfies the formula, and otherwise `REJECTED` and lines of inputs, as above. With `--environment` it is
`REFUTES` if no run satisfies the formula, and otherwise `FAILS` and lines of inputs.

Example: parsolve synth examples/arbiter.hoa | parsolve verify examples/arbiter.hoa -",
};

const WORKER_MORE: &str = "\
It reads no standard input and prints nothing: it connects to the port, and ends when the solver tells it to or goes away.";

/// Returns the option for `clap`.
fn arg_of<'a>(alloc: Global, option: CliOption) -> Result<Arg<'a>, Error> {
    let arg = Arg::new(alloc, option.name)
        .long(option.name)
        .help(option.help)
        .conflicts_with_all(option.conflicts)?;
    Ok(match option.value {
        OptionValue::Nothing => arg.action(ArgAction::SetTrue),
        OptionValue::Text(name) => arg.value_name(name).action(ArgAction::Set),
        OptionValue::Workers => arg
            .value_name("N")
            .action(ArgAction::Set)
            .value_parser(clap::value_parser!(u8).range(0..=16))
            .default_value("2"),
        OptionValue::Port => arg
            .value_name("P")
            .required(true)
            .action(ArgAction::Set)
            .value_parser(clap::value_parser!(u16).range(1..)),
    })
}

/// Returns the help of a command.
fn help_of(command: Command) -> Help {
    match command {
        Command::Measure { .. } => MEASURE,
        Command::Solve { .. } | Command::SolveAny { .. } => SOLVE,
        Command::Check => CHECK,
        Command::Replay => REPLAY,
        Command::Automaton => AUTOMATON,
        Command::Means => MEANS,
        Command::Game => GAME,
        Command::Synth { .. } | Command::SynthSmall { .. } | Command::SynthCounter { .. } => SYNTH,
        Command::Verify { .. } | Command::VerifyFormula { .. } => VERIFY,
    }
}

/// Returns the command for `clap`, with its help and its options.
fn subcommand<'a>(alloc: Global, command: Command) -> Result<Program<'a>, Error> {
    let help = help_of(command);
    let name: &'a str = command.name();
    let mut program = Program::new(alloc, name)
        .about(help.about)
        .override_usage(help.usage)
        .after_help(help.more);
    for option in help.options {
        program = program.arg(arg_of(alloc, *option)?)?;
    }
    Ok(program)
}

/// Returns the worker for `clap`.
fn worker<'a>(alloc: Global) -> Result<Program<'a>, Error> {
    Ok(
        Program::new(alloc, WORKER)
            .about(
                "Lifts vertices for the solver that started it, with `--apart` of measure, solve or synth",
            )
            .after_help(WORKER_MORE)
            .arg(arg_of(alloc, PORT_OPTION)?)?,
    )
}

fn program<'a>(alloc: Global) -> Result<Program<'a>, Error> {
    let mut program = Program::new(alloc, NAME)
        .version(VERSION)
        .about(ABOUT)
        .after_help(MORE)
        .subcommand_required(true);
    for command in Command::all(0) {
        program = program.subcommand(subcommand(alloc, command)?)?;
    }
    Ok(program.subcommand(worker(alloc)?)?)
}

/// Returns the number of workers that the words ask for, at most 16, or 0 if the command has no option for it.
fn workers_in(matches: &ArgMatches<'_>) -> u32
    ensures { result ≤ 16 }
{
    let Some((_, found)) = matches.subcommand() else {
        return 0;
    };
    match found.get_one::<u8>(WORKERS) {
        Some(workers) if workers <= MOST_WORKERS => u32::from(workers),
        _ => 0,
    }
}

/// Whether the words have this option, which takes no value.
fn has_flag(matches: &ArgMatches<'_>, option: &str) -> bool {
    match matches.subcommand() {
        Some((_, found)) => found.get_flag(option),
        None => false,
    }
}

/// Returns the value of this option, or None if the words don't have it.
fn value_in(
    alloc: Global,
    matches: &ArgMatches<'_>,
    option: &str,
) -> Result<Option<String>, Error> {
    let Some((_, found)) = matches.subcommand() else {
        return Ok(None);
    };
    match found.get_str(option) {
        Some(value) => Ok(Some(String::from_str(alloc, value)?)),
        None => Ok(None),
    }
}

/// Returns the port that the words name, or None if they name none from 1 to 65535.
fn port_in(matches: &ArgMatches<'_>) -> Option<u16>
    ensures { IfSome result IsPort }
{
    let (_, found) = matches.subcommand()?;
    match found.get_one::<u16>(PORT) {
        Some(port) if port >= 1 => Some(port),
        _ => None,
    }
}

/// Returns what these words ask for, or None if they name no command and no worker. Their second word is `name`.
fn line_of(alloc: Global, name: &str, matches: &ArgMatches<'_>) -> Result<Option<Invocation>, Error>
    ensures { IfOk result (λ line. IfSome line (IsLineOf name.now)) }
{
    if name == WORKER {
        let Some(port) = port_in(matches) else {
            return Ok(None);
        };
        return Ok(Some(Invocation::Work(port)));
    }
    let Some(command) = Command::named(name, workers_in(matches)) else {
        return Ok(None);
    };
    let command = match command {
        Command::Solve { workers } if has_flag(matches, ANY) => Command::SolveAny { workers },
        Command::Synth { workers } if has_flag(matches, SMALL) => Command::SynthSmall { workers },
        Command::Synth { workers } if has_flag(matches, COUNTER) => Command::SynthCounter {
            workers,
        },
        Command::Verify { .. } if has_flag(matches, LTL) => Command::VerifyFormula {
            environment: has_flag(matches, ENVIRONMENT),
        },
        Command::Verify { workers, .. } => Command::Verify {
            workers,
            by_place: has_flag(matches, BY_PLACE),
            environment: has_flag(matches, ENVIRONMENT),
        },
        _ => command,
    };
    Ok(Some(Invocation::Run(command, value_in(alloc, matches, APART)?)))
}

/// Reads a command line, whose first word is the program's own name. The error is `clap`'s. It has the text to print, and says
/// whether that goes to the error stream (a fault of the command line) or to standard output (`--help`, `--version`). If memory runs
/// out, its kind is `OutOfMemory`.
pub fn parse_request(alloc: Global, words: &[&str]) -> Result<Request, Error>
    ensures { IfOk result (λ request. AsksFor (map (λ word. word.now) words.now) request.line) }
{
    let mut program = program(alloc)?;
    let matches = program.try_get_matches_from_mut(words)?;
    let outs = value_in(alloc, &matches, OUTS)?;
    let stats = has_flag(&matches, STATS);
    let json = has_flag(&matches, JSON);
    let status = has_flag(&matches, STATUS);
    match words {
        [_, name, ..] => match line_of(alloc, name, &matches)? {
            Some(line) => Ok(Request {
                line,
                outs,
                stats,
                json,
                status,
            }),
            None => Err(program.error(ErrorKind::InvalidSubcommand, "no such command")?),
        },
        _ => Err(program.error(ErrorKind::MissingSubcommand, "no command")?),
    }
}

/// Reads a command line as `parse_request` does, and returns only what it asks for. The error is that of `parse_request`.
pub fn parse_words(alloc: Global, words: &[&str]) -> Result<Invocation, Error>
    ensures { IfOk result (AsksFor (map (λ word. word.now) words.now)) }
{
    let Request { line, .. } = parse_request(alloc, words)?;
    Ok(line)
}
