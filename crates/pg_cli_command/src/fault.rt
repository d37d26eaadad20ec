//! Why the program gives no answer.

ghost use Rattle.std.specs.Prelude.{◌≡◌, Some, OnOk};
ghost use Rattle.std.specs.Io.KnownBytes.{Appends};
ghost use Rattle.pg_cli_command.specs.Faults.{text_fault, script_fault, event_fault, check_fault};
ghost use Rattle.pg_cli_command.specs.Faults.{hoa_fault, synth_fault, aiger_fault, worker_fault, status_of};
ghost use Rattle.pg_cli_command.specs.Faults.{circuit_fault, tie_fault, netlist_fault, verify_fault};
ghost use Rattle.pg_cli_command.specs.Faults.{formula_fault, means_fault, compare_fault, untranslated_fault, satisfy_fault};
ghost use Rattle.pg_cli_command.specs.FaultTexts.{fault_text, fault_line};
ghost use Rattle.pg_cli_command.specs.declared.fault.CliFault.TheVariants as cli;

use crate::solver::Untranslated;
use pg_aiger::AigerFault;
use pg_aiger_netlist::NetlistFault;
use pg_aiger_reader::{ReaderFault, TieFault};
use pg_check::CheckFault;
use pg_hoa::HoaFault;
use pg_ltl::FormulaFault;
use pg_means_texts::{CompareFault, MeansFault};
use pg_satisfies_texts::{NameFault, SatisfiesFault, SatisfyFault};
use pg_synth::SynthFault;
use pg_text::TextFault;
use pg_verify::VerifyFault;
use pg_wire::WireFault;
use pg_worker::WorkerFault;
use pg_world::{ScriptFault, WorldFault};
use std::alloc::AllocError;
use std::error::Error;
use std::fmt;
use std::io::{self, Write};

/// Why a command has no answer. The fault's text is what the program prints on the error stream after `parsolve: `. If memory runs out, the
/// text is `out of memory`, even if the fault of a lower layer says so, but no command returns such a fault.
#[derive(Debug, Drop)]
pub enum CliFault {
    /// Memory ran out.
    OutOfMemory,
    /// The input could not be read to its end.
    Read,
    /// The output could not be written; part of it may have been.
    Write,
    /// The input has more than 268,435,456 bytes.
    InputTooLong,
    /// There is no line `--` between the two texts.
    NoSeparator,
    /// A text spells no game, or no solution; never `OutOfMemory` or `Write`.
    Text(TextFault),
    /// A text spells no script for the game; never `OutOfMemory`.
    Script(ScriptFault),
    /// The world refuses the event with this index in the script, counted from 0. It is the first event that the world refuses. Never
    /// `OutOfMemory`.
    World(usize, WorldFault),
    /// The cut among the workers doesn't fit the game; no command returns this.
    CutMismatch,
    /// The solver's map of the game and its map of the dual are both top at the vertex with this identifier, the least
    /// such one. The maps are the least progress measures, unless the solver may find others.
    Undecided(u32),
    /// A text spells no automaton; never `OutOfMemory`.
    Hoa(HoaFault),
    /// The game of an automaton is too large; never `OutOfMemory`.
    Synth(SynthFault),
    /// The circuit of a controller is too large; never `OutOfMemory` or `Write`.
    Aiger(AigerFault),
    /// A text spells no circuit; never `OutOfMemory`.
    Circuit(ReaderFault),
    /// The inputs and outputs of a circuit don't match the propositions of an automaton; never `OutOfMemory`.
    Tie(TieFault),
    /// The lines of a circuit contradict one another, or its gates have a cycle; never `OutOfMemory`.
    Netlist(NetlistFault),
    /// The product of a circuit and an automaton is too large; never `OutOfMemory`.
    Verify(VerifyFault),
    /// The output at this place, counted from 0 in the order of the propositions that the environment sets, depends on an input of the
    /// same step.
    Hearing(usize),
    /// There is no controller, and no circuit was found that plays the environment.
    NoCounter,
    /// The program can't listen on any port of 127.0.0.1.
    Listen,
    /// Nobody answers at this port of 127.0.0.1.
    Connect(u16),
    /// A worker ended with this fault; never `OutOfMemory`.
    Worker(WorkerFault),
    /// A text spells no formula; never `OutOfMemory`.
    Formula(FormulaFault),
    /// A name of a formula means no signal of a circuit.
    Names(NameFault),
    /// There is no verdict on a circuit and a formula; never `OutOfMemory`.
    Satisfies(SatisfiesFault),
    /// An automaton and a formula have more than 16 propositions together, or the formula of an automaton has.
    TooManyPropositions,
    /// There is no verdict on an automaton and a formula; never `OutOfMemory`.
    Means(MeansFault),
    /// No automaton was found for a formula; never `OutOfMemory`.
    Untranslated(Untranslated),
    /// The automaton that was found for a formula isn't shown to accept exactly the words that satisfy it. No input is known for which this
    /// happens.
    Unshown,
}

impl fmt::Display for CliFault {
    ghost output = { λ fault. Some (fault_text fault) };

    fn fmt<W: fmt::Write>(&self, f: &mut fmt::Formatter<W>) -> fmt::Result {
        match self {
            CliFault::OutOfMemory => f.write_str("out of memory"),
            CliFault::Read => f.write_str("cannot read the input"),
            CliFault::Write => f.write_str("cannot write the output"),
            CliFault::InputTooLong => f.write_str("input is longer than 268435456 bytes"),
            CliFault::NoSeparator => f.write_str("no line -- between the two texts"),
            CliFault::Text(fault) => write!(f, "{fault}"),
            CliFault::Script(fault) => write!(f, "{fault}"),
            CliFault::World(place, fault) => match fault {
                WorldFault::OutOfMemory => f.write_str("out of memory"),
                WorldFault::NoSuchReplica(n) => write!(f, "event {place}: no replica {n}"),
                WorldFault::NotMine(worker, id) => {
                    write!(f, "event {place}: vertex {id} is not of worker {worker}")
                }
                WorldFault::NoSuchUpdate(n) => write!(
                    f,
                    "event {place}: update {n} was never made"
                ),
                WorldFault::CutMismatch => f.write_str("the cut does not fit the game"),
            },
            CliFault::CutMismatch => f.write_str("the cut does not fit the game"),
            CliFault::Undecided(id) => write!(f, "undecided at {id}"),
            CliFault::Hoa(fault) => write!(f, "{fault}"),
            CliFault::Synth(fault) => write!(f, "{fault}"),
            CliFault::Aiger(fault) => write!(f, "{fault}"),
            CliFault::Circuit(fault) => write!(f, "{fault}"),
            CliFault::Tie(fault) => write!(f, "{fault}"),
            CliFault::Netlist(fault) => match fault {
                NetlistFault::OutOfMemory => f.write_str("out of memory"),
                NetlistFault::NotAVariable(literal) => {
                    write!(f, "literal {literal} of the circuit defines no variable")
                }
                NetlistFault::DefinedTwice(variable) => {
                    write!(f, "variable {variable} of the circuit is defined twice")
                }
                NetlistFault::Undefined(variable) => {
                    write!(
                        f,
                        "variable {variable} of the circuit is used and not defined"
                    )
                }
                NetlistFault::Cycle(variable) => {
                    write!(f, "the gate of variable {variable} stands in a cycle")
                }
            },
            CliFault::Verify(fault) => match fault {
                VerifyFault::OutOfMemory => f.write_str("out of memory"),
                VerifyFault::TooLarge => f.write_str("circuit and automaton too large together"),
            },
            CliFault::Hearing(place) => write!(
                f,
                "output {place} depends on an input of the same step"
            ),
            CliFault::NoCounter => { f.write_str("no circuit found that plays the environment") }
            CliFault::Listen => f.write_str("cannot listen on 127.0.0.1"),
            CliFault::Connect(port) => write!(f, "cannot connect to port {port}"),
            CliFault::Worker(fault) => match fault {
                WorkerFault::OutOfMemory => f.write_str("out of memory"),
                WorkerFault::NotMine => f.write_str("worker fault 2"),
                WorkerFault::BadUpdate => f.write_str("worker fault 3"),
                WorkerFault::Order => f.write_str("worker fault 4"),
                WorkerFault::Wire(WireFault::OutOfMemory) => f.write_str("out of memory"),
                WorkerFault::Wire(_) => f.write_str("worker fault 5"),
            },
            CliFault::Formula(fault) => write!(f, "{fault}"),
            CliFault::Names(fault) => write!(f, "{fault}"),
            CliFault::Satisfies(fault) => match fault {
                SatisfiesFault::OutOfMemory => f.write_str("out of memory"),
                SatisfiesFault::TooLarge => f.write_str("circuit and formula too large together"),
                SatisfiesFault::Undecided => f.write_str("undecided"),
            },
            CliFault::TooManyPropositions => f.write_str("more than 16 propositions"),
            CliFault::Means(fault) => match fault {
                MeansFault::OutOfMemory => f.write_str("out of memory"),
                MeansFault::TooLarge => f.write_str("automaton and formula too large together"),
                MeansFault::Undecided => f.write_str("undecided"),
            },
            CliFault::Untranslated(fault) => match fault {
                Untranslated::OutOfMemory => f.write_str("out of memory"),
                Untranslated::TooManyStates => {
                    f.write_str("automaton of the formula has too many states")
                }
                Untranslated::TooManySteps => {
                    f.write_str("automaton of the formula takes too many steps")
                }
            },
            CliFault::Unshown => f.write_str("automaton of the formula is not shown to be right"),
        }
    }
}

impl Error for CliFault {}

impl From<AllocError> for CliFault {
    ghost from_gives = { λ _ fault. fault ≡ cli.OutOfMemory };

    fn from(_: AllocError) -> CliFault {
        CliFault::OutOfMemory
    }
}

impl From<io::Error> for CliFault {
    ghost from_gives = { λ _ fault. fault ≡ cli.Write };

    fn from(_: io::Error) -> CliFault {
        CliFault::Write
    }
}

impl From<TextFault> for CliFault {
    ghost from_gives = { λ fault e. e ≡ text_fault fault };

    fn from(fault: TextFault) -> CliFault {
        match fault {
            TextFault::OutOfMemory => CliFault::OutOfMemory,
            TextFault::Write => CliFault::Write,
            _ => CliFault::Text(fault),
        }
    }
}

impl From<ScriptFault> for CliFault {
    ghost from_gives = { λ fault e. e ≡ script_fault fault };

    fn from(fault: ScriptFault) -> CliFault {
        match fault {
            ScriptFault::OutOfMemory => CliFault::OutOfMemory,
            _ => CliFault::Script(fault),
        }
    }
}

impl From<(usize, WorldFault)> for CliFault {
    ghost from_gives = { λ x e. e ≡ event_fault x.0 x.1 };

    fn from((place, fault): (usize, WorldFault)) -> CliFault {
        match fault {
            WorldFault::OutOfMemory => CliFault::OutOfMemory,
            _ => CliFault::World(place, fault),
        }
    }
}

impl From<CheckFault> for CliFault {
    ghost from_gives = { λ fault e. e ≡ check_fault fault };

    fn from(fault: CheckFault) -> CliFault {
        match fault {
            CheckFault::OutOfMemory => CliFault::OutOfMemory,
            CheckFault::Undecided(identifier) => CliFault::Undecided(identifier),
        }
    }
}

impl From<HoaFault> for CliFault {
    ghost from_gives = { λ fault e. e ≡ hoa_fault fault };

    fn from(fault: HoaFault) -> CliFault {
        match fault {
            HoaFault::OutOfMemory => CliFault::OutOfMemory,
            _ => CliFault::Hoa(fault),
        }
    }
}

impl From<SynthFault> for CliFault {
    ghost from_gives = { λ fault e. e ≡ synth_fault fault };

    fn from(fault: SynthFault) -> CliFault {
        match fault {
            SynthFault::OutOfMemory => CliFault::OutOfMemory,
            SynthFault::TooLarge => CliFault::Synth(fault),
        }
    }
}

impl From<AigerFault> for CliFault {
    ghost from_gives = { λ fault e. e ≡ aiger_fault fault };

    fn from(fault: AigerFault) -> CliFault {
        match fault {
            AigerFault::OutOfMemory => CliFault::OutOfMemory,
            AigerFault::Write => CliFault::Write,
            AigerFault::TooLarge => CliFault::Aiger(fault),
        }
    }
}

impl From<ReaderFault> for CliFault {
    ghost from_gives = { λ fault e. e ≡ circuit_fault fault };

    fn from(fault: ReaderFault) -> CliFault {
        match fault {
            ReaderFault::OutOfMemory => CliFault::OutOfMemory,
            _ => CliFault::Circuit(fault),
        }
    }
}

impl From<TieFault> for CliFault {
    ghost from_gives = { λ fault e. e ≡ tie_fault fault };

    fn from(fault: TieFault) -> CliFault {
        match fault {
            TieFault::OutOfMemory => CliFault::OutOfMemory,
            _ => CliFault::Tie(fault),
        }
    }
}

impl From<NetlistFault> for CliFault {
    ghost from_gives = { λ fault e. e ≡ netlist_fault fault };

    fn from(fault: NetlistFault) -> CliFault {
        match fault {
            NetlistFault::OutOfMemory => CliFault::OutOfMemory,
            _ => CliFault::Netlist(fault),
        }
    }
}

impl From<VerifyFault> for CliFault {
    ghost from_gives = { λ fault e. e ≡ verify_fault fault };

    fn from(fault: VerifyFault) -> CliFault {
        match fault {
            VerifyFault::OutOfMemory => CliFault::OutOfMemory,
            VerifyFault::TooLarge => CliFault::Verify(fault),
        }
    }
}

impl From<WorkerFault> for CliFault {
    ghost from_gives = { λ fault e. e ≡ worker_fault fault };

    fn from(fault: WorkerFault) -> CliFault {
        match fault {
            WorkerFault::OutOfMemory => CliFault::OutOfMemory,
            _ => CliFault::Worker(fault),
        }
    }
}

impl From<FormulaFault> for CliFault {
    ghost from_gives = { λ fault e. e ≡ formula_fault fault };

    fn from(fault: FormulaFault) -> CliFault {
        match fault {
            FormulaFault::OutOfMemory => CliFault::OutOfMemory,
            _ => CliFault::Formula(fault),
        }
    }
}

impl From<MeansFault> for CliFault {
    ghost from_gives = { λ fault e. e ≡ means_fault fault };

    fn from(fault: MeansFault) -> CliFault {
        match fault {
            MeansFault::OutOfMemory => CliFault::OutOfMemory,
            _ => CliFault::Means(fault),
        }
    }
}

impl From<CompareFault> for CliFault {
    ghost from_gives = { λ fault e. e ≡ compare_fault fault };

    fn from(fault: CompareFault) -> CliFault {
        match fault {
            CompareFault::Hoa(fault) => CliFault::from(fault),
            CompareFault::Formula(fault) => CliFault::from(fault),
            CompareFault::TooManyPropositions => CliFault::TooManyPropositions,
            CompareFault::Means(fault) => CliFault::from(fault),
        }
    }
}

impl From<SatisfyFault> for CliFault {
    ghost from_gives = { λ fault e. e ≡ satisfy_fault fault };

    fn from(fault: SatisfyFault) -> CliFault {
        match fault {
            SatisfyFault::Formula(fault) => CliFault::from(fault),
            SatisfyFault::Circuit(fault) => CliFault::from(fault),
            SatisfyFault::Names(fault) => CliFault::Names(fault),
            SatisfyFault::Netlist(fault) => CliFault::from(fault),
            SatisfyFault::Satisfies(SatisfiesFault::OutOfMemory) => CliFault::OutOfMemory,
            SatisfyFault::Satisfies(fault) => CliFault::Satisfies(fault),
        }
    }
}

impl From<Untranslated> for CliFault {
    ghost from_gives = { λ fault e. e ≡ untranslated_fault fault };

    fn from(fault: Untranslated) -> CliFault {
        match fault {
            Untranslated::OutOfMemory => CliFault::OutOfMemory,
            _ => CliFault::Untranslated(fault),
        }
    }
}

/// Returns the exit status of the program for a fault: 3 for `Undecided`, and 1 for every other fault.
pub fn exit_code(fault: &CliFault) -> u8
    ensures { result ≡ status_of fault.now }
{
    match fault {
        CliFault::Undecided(_) => 3,
        _ => 1,
    }
}

/// Writes the line of a fault: `parsolve: `, its text and a newline. It allocates no memory, and fails only if the writer does.
pub fn write_fault<W: Write>(fault: &CliFault, writer: &mut W) -> io::Result<()>
    ensures { OnOk result (Appends (W.contents writer.old) (W.contents writer.new) (fault_line fault.now)) }
{
    writeln!(writer, "parsolve: {fault}")
}
