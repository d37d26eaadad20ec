//! The command `verify`.

ghost use Rattle.std.specs.Prelude.{◌≡◌, IfOk, IfErr, OnOk, ◌++◌, codes, length};
ghost use Rattle.std.specs.List.{flat_map};
ghost use Rattle.std.specs.Io.KnownBytes.{Appends};
ghost use Rattle.pg_hoa_automaton.specs.Formulas.{Formula};
ghost use Rattle.pg_hoa_automaton.specs.Shapes.{FitsShape};
ghost use Rattle.pg_synth.specs.Letters.{inputs, outputs};
ghost use Rattle.pg_verify.specs.Reached.{HasTooManyStates};
ghost use Rattle.pg_verify.specs.Verdicts.{Says};
ghost use Rattle.pg_cli_command.specs.Verifying.{bit_of, bit_text, letter_line, letter_lines, verdict_text, IsVerified, RefusesVerify};
ghost use Rattle.pg_cli_command.specs.Mirrors.Parting.{parting_of};
ghost use Rattle.pg_cli_command.specs.Mirrors.Looking.{IsUnlooked};
ghost use Rattle.pg_cli_command.specs.Mirrors.Working.{ShowsWhat, Fails};

use crate::fault::CliFault;
use crate::parts::Texts;
use crate::printing::CommandAnswer;
use crate::solution::any_solution_of;
use crate::solver::Solver;
use pg_aiger_netlist::Netlist;
use pg_aiger_reader::{read_circuit, tie};
use pg_hoa::{Automaton, read_automaton};
use pg_synth::game_of;
use pg_verify::{CircuitVerdict, product_of, verdict_of};
use std::alloc::Global;
use std::io::{self, Write};

/// Returns the bit of an input letter for the input with this literal, or 0 if no input has it. `tied` has the inputs in the order of the
/// letter's bits.
fn bit_of(tied: &[u32], letter: u32, literal: u32) -> u32
    ensures { result ≡ bit_of tied.now letter literal }
{
    let mut rest = letter;
    for input in tied {
        if *input == literal {
            return rest % 2;
        }
        rest /= 2;
    }
    0
}

/// Returns the text of a bit.
fn bit_text(bit: u32) -> &'static [u8]
    ensures { result.now ≡ bit_text bit }
{
    if bit == 0 { b"0" } else { b"1" }
}

/// Writes the line of an input letter.
fn write_letter<W: Write>(
    writer: &mut W,
    given: &[u32],
    tied: &[u32],
    letter: u32,
) -> io::Result<()>
    ensures { OnOk result (Appends (W.contents writer.old) (W.contents writer.new) (letter_line given.now tied.now letter)) }
{
    for literal in given {
        writer.write_all(bit_text(bit_of(tied, letter, *literal)))?;
    }
    writer.write_all(b"\n")
}

/// Writes the lines of input letters.
pub(crate) fn write_letters<W: Write>(
    writer: &mut W,
    given: &[u32],
    tied: &[u32],
    letters: &[u32],
) -> io::Result<()>
    ensures { OnOk result (Appends (W.contents writer.old) (W.contents writer.new) (letter_lines given.now tied.now letters.now)) }
{
    for letter in letters {
        write_letter(writer, given, tied, *letter)?;
    }
    Ok(())
}

/// The verdict on a circuit, and the circuit's inputs: in the circuit's own order, and in the order of the automaton's propositions.
#[derive(Drop)]
pub(crate) struct Verified {
    given: Vec<u32>,
    tied: Vec<u32>,
    verdict: CircuitVerdict,
}

/// Writes a verdict.
fn write_verdict<W: Write>(
    writer: &mut W,
    given: &[u32],
    tied: &[u32],
    verdict: &CircuitVerdict,
) -> io::Result<()>
    ensures { OnOk result (Appends (W.contents writer.old) (W.contents writer.new) (verdict_text given.now tied.now verdict.now)) }
{
    match verdict {
        CircuitVerdict::Accepted => writer.write_all(b"ACCEPTED\n"),
        CircuitVerdict::Stuck(letters) => {
            writer.write_all(b"STUCK\n")?;
            write_letters(writer, given, tied, letters)
        }
        CircuitVerdict::Rejected(stem, round) => {
            writer.write_all(b"REJECTED\n")?;
            write_letters(writer, given, tied, stem)?;
            writer.write_all(b"loop\n")?;
            write_letters(writer, given, tied, round)
        }
    }
}

impl CommandAnswer for Verified {
    ghost is_whole = { λ _. Unit {0} };

    ghost shows = { λ a output. output ≡ verdict_text a.given.items a.tied.items a.verdict };

    fn write<W: Write>(self, writer: &mut W) -> Option<()> {
        write_verdict(writer, &self.given, &self.tied, &self.verdict).ok()
    }
}

/// Returns the verdict on a circuit, by any sound solution that is found of the game of the circuit's product with an automaton.
pub(crate) fn verdict_on<F: Solver>(
    alloc: Global,
    automaton: &Automaton,
    netlist: &Netlist,
    solver: &mut F,
) -> Result<CircuitVerdict, CliFault>
    requires inputs { length netlist.now.inputs ≡ inputs automaton.now.controllable }
    requires outputs { length netlist.now.outputs ≡ outputs automaton.now.controllable }
    ensures says { IfOk result (λ verdict. (condition : Formula) → FitsShape condition automaton.now.sets automaton.now.shape
        → Says automaton.now condition netlist.now verdict) }
    ensures within { OnOk result (¬ HasTooManyStates automaton.now netlist.now) }
    ensures refused { IfErr result (IsUnlooked (F.finds solver.old) automaton.now netlist.now) }
{
    // called only for what its contract says about the circuit
    let _latches = netlist.latches();
    let product = product_of(alloc, automaton, netlist)?;
    let made = game_of(alloc, &product)?;
    let solution = any_solution_of(alloc, &made.game, solver)?;
    Ok(verdict_of(alloc, &product, &made, &solution)?)
}

/// Returns the verdict on the circuit that the second text spells, for the automaton of the first text.
pub(crate) fn verify<F: Solver>(
    alloc: Global,
    texts: Texts,
    by_place: bool,
    solver: &mut F,
) -> Result<Verified, CliFault>
    ensures whole { IfOk result ⟦<Verified as CommandAnswer>⟧.is_whole }
    ensures answer { IfOk result (ShowsWhat (IsVerified (parting_of texts) by_place) ⟦<Verified as CommandAnswer>⟧.shows) }
    ensures refused { IfErr result (Fails (RefusesVerify (F.finds solver.old) (parting_of texts) by_place)) }
{
    match texts.both() {
        None => Err(CliFault::NoSeparator),
        Some((first, second)) => {
            let automaton = read_automaton(alloc, first)?;
            // called only for what its contract says about the automaton
            let _states = automaton.states();
            let parts = read_circuit(alloc, second)?;
            let given = Vec::from_slice(alloc, &parts.inputs)?;
            let parts = tie(alloc, &automaton, parts, by_place)?;
            let tied = Vec::from_slice(alloc, &parts.inputs)?;
            let netlist = Netlist::new(
                alloc,
                parts.greatest,
                parts.inputs,
                parts.latches,
                parts.outputs,
                parts.gates,
            )?;
            let verdict = verdict_on(alloc, &automaton, &netlist, solver)?;
            Ok(Verified {
                given,
                tied,
                verdict,
            })
        }
    }
}
