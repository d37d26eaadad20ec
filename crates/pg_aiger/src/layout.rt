//! Writing circuits.

ghost use Rattle.std.specs.Prelude.{◌≡◌, ◌+◌, ◌^◌, ◌<◌, ◌≤◌, ◌++◌, length, map, codes, OnOk, IfErr};
ghost use Rattle.std.specs.List.{flat_map};
ghost use Rattle.std.specs.Io.KnownBytes.{Appends};
ghost use Rattle.pg_hoa_automaton.specs.Automata.{IsAutomaton};
ghost use Rattle.pg_synth.specs.Letters as letters;
ghost use Rattle.pg_aiger.specs.CircuitText.{header, symbol};
ghost use Rattle.pg_aiger.specs.CircuitLayout.{spaced, spaced_number, row_text, circuit_text};
ghost use Rattle.pg_aiger.specs.Mirrors.Layouts.{literal_row, latch_row, gate_row, kind_of, named, symbol_rows};
ghost use Rattle.pg_aiger.specs.Mirrors.Views.{literals_from, latches_from};

use crate::circuit::Circuit;
use crate::fault::AigerFault;
use crate::gate::Gate;
use pg_hoa_automaton::Automaton;
use pg_text::writing::write_number;
use std::io::{self, Write};

fn write_spaced<W: Write>(numbers: &[u32], out: &mut W) -> io::Result<()>
    ensures { OnOk result (Appends (W.contents out.old) (W.contents out.new) (flat_map spaced_number numbers.now)) }
{
    for number in numbers {
        out.write_all(b" ")?;
        write_number(*number, out)?;
    }
    Ok(())
}

/// Writes a line of numbers, with single spaces between them.
fn write_line<W: Write>(numbers: &[u32], out: &mut W) -> io::Result<()>
    ensures { OnOk result (Appends (W.contents out.old) (W.contents out.new) (spaced numbers.now ++ codes "\n")) }
{
    if let [first, rest @ ..] = numbers {
        write_number(*first, out)?;
        write_spaced(rest, out)?;
    }
    out.write_all(b"\n")
}

fn write_header<W: Write>(counts: &[u32], out: &mut W) -> io::Result<()>
    ensures { OnOk result (Appends (W.contents out.old) (W.contents out.new) (row_text (header counts.now))) }
{
    out.write_all(b"aag ")?;
    write_line(counts, out)
}

fn write_inputs<W: Write>(count: u32, out: &mut W) -> io::Result<()>
    requires { count < 2 ^ 30 }
    ensures { OnOk result (Appends (W.contents out.old) (W.contents out.new)
        (flat_map row_text (map literal_row (literals_from 1 count)))) }
{
    for input in 0..count {
        write_line(&[2 * (1 + input)], out)?;
    }
    Ok(())
}

fn write_latches<W: Write>(first: u32, nexts: &[u32], out: &mut W) -> io::Result<()>
    requires { first + length nexts.now ≤ 2 ^ 30 }
    ensures { OnOk result (Appends (W.contents out.old) (W.contents out.new)
        (flat_map row_text (map latch_row (latches_from first nexts.now)))) }
{
    let mut variable = first;
    for next in nexts {
        write_line(&[2 * variable, *next], out)?;
        variable += 1;
    }
    Ok(())
}

fn write_outputs<W: Write>(literals: &[u32], out: &mut W) -> io::Result<()>
    ensures { OnOk result (Appends (W.contents out.old) (W.contents out.new)
        (flat_map row_text (map literal_row literals.now))) }
{
    for literal in literals {
        write_line(&[*literal], out)?;
    }
    Ok(())
}

fn write_gates<W: Write>(gates: &[Gate], out: &mut W) -> io::Result<()>
    ensures { OnOk result (Appends (W.contents out.old) (W.contents out.new)
        (flat_map row_text (map gate_row gates.now))) }
{
    for gate in gates {
        write_line(&[gate.lhs, gate.rhs0, gate.rhs1], out)?;
    }
    Ok(())
}

/// Writes a symbol: the letter of its kind, its position, a space and the name.
fn write_symbol<W: Write>(
    controlled: bool,
    position: u32,
    name: &[u8],
    out: &mut W,
) -> io::Result<()>
    ensures { OnOk result (Appends (W.contents out.old) (W.contents out.new)
        (row_text (symbol (named (kind_of controlled) position name.now)))) }
{
    out.write_all(if controlled { b"o" } else { b"i" })?;
    write_number(position, out)?;
    out.write_all(b" ")?;
    out.write_all(name)?;
    out.write_all(b"\n")
}

/// Writes the symbols of the propositions that the controller sets, or of the others.
fn write_symbols<W: Write>(automaton: &Automaton, controlled: bool, out: &mut W) -> io::Result<()>
    requires { IsAutomaton automaton.now }
    ensures { OnOk result (Appends (W.contents out.old) (W.contents out.new)
        (flat_map row_text (symbol_rows controlled automaton.now))) }
{
    let mut position = 0;
    for a in 0..automaton.propositions() {
        if automaton.controllable(a) == controlled {
            write_symbol(controlled, position, automaton.proposition(a), out)?;
            position += 1;
        }
    }
    Ok(())
}

/// Writes a circuit in the ASCII form of AIGER: the header `aag M I L O A`, a line for each input, latch, output and gate, and then a
/// symbol for each input and each output: the name of its proposition in the automaton. The circuit must have as many inputs as the
/// environment sets propositions, and as many outputs as the controller sets. It makes many small writes, so pass a buffered writer.
///
/// It fails only with `Write`, if the writer fails; part of the text may have been written by then.
pub fn write_circuit<W: Write>(
    circuit: &Circuit,
    automaton: &Automaton,
    out: &mut W,
) -> Result<(), AigerFault>
    requires inputs { length circuit.now.inputs ≡ letters.inputs automaton.now.controllable }
    requires outputs { length circuit.now.outputs ≡ letters.outputs automaton.now.controllable }
    ensures bytes { OnOk result (Appends (W.contents out.old) (W.contents out.new)
        (circuit_text circuit.now automaton.now)) }
    ensures refused { IfErr result (λ fault. fault ≡ AigerFault.Write) }
{
    // called only for what its contract says about the automaton
    let _states = automaton.states();
    let latches = circuit.nexts.len() as u32;
    let outputs = circuit.outputs.len() as u32;
    let gates = circuit.gates.len() as u32;
    let greatest = circuit.inputs + latches + gates;
    write_header(&[greatest, circuit.inputs, latches, outputs, gates], out)?;
    write_inputs(circuit.inputs, out)?;
    write_latches(1 + circuit.inputs, &circuit.nexts, out)?;
    write_outputs(&circuit.outputs, out)?;
    write_gates(&circuit.gates, out)?;
    write_symbols(automaton, false, out)?;
    write_symbols(automaton, true, out)?;
    Ok(())
}
