//! Circuits: how they are made, and their steps.

ghost use Rattle.std.specs.Prelude.{◌≡◌, ◌≢◌, ◌↔◌, ◌+◌, ◌*◌, ◌^◌, ◌<◌, ◌≤◌, Err, length, All, IfOk, IfErr, IfNone, IfSome, OnErr, OnSome};
ghost use Rattle.pg_aiger.specs.Circuits.{AreGatesFrom, circuit_in_order};
ghost use Rattle.pg_aiger.specs.Construction.{made_circuit};
ghost use Rattle.pg_aiger.specs.Runs.{Valuation, value, number_of, Steps, GoesOn};
ghost use Rattle.pg_aiger.specs.Machines.{IsWidth, IsTooLarge, IsCircuitOf, count_ahead};
ghost use Rattle.pg_aiger.specs.Mirrors.Steps.{Agrees, IsValued};
ghost use Rattle.pg_aiger.specs.Mirrors.Tables.{outputs_below, nexts_below, AreColumns};
ghost use Rattle.pg_aiger.specs.Mirrors.Views.{IsKept};
ghost use Rattle.pg_synth.specs.Machines.{IsMachine};

use crate::draft::Draft;
use crate::fault::AigerFault;
use crate::gate::Gate;
use crate::parts::are_parts;
use crate::table::{columns, minterms};
use pg_synth::Mealy;
use std::alloc::{AllocError, Global};
use std::marker::Model;

const MAX_VARIABLES: u64 = 1_073_741_823;

/// A circuit. A literal is twice its variable, plus one if it is negated; variable 0 is the constant false. The other variables count
/// from 1: first the inputs, then the latches, then the gates. The literals of a gate have smaller variables than the gate. There are at
/// most 16 inputs, 16 latches and 16 outputs, and at most 1,073,741,823 variables.
#[derive(Debug, Drop)]
pub struct Circuit {
    pub(crate) inputs: u32,
    pub(crate) nexts: Vec<u32>,
    pub(crate) outputs: Vec<u32>,
    pub(crate) gates: Vec<Gate>,
}

impl Model for Circuit {
    ghost use Rattle.pg_aiger.specs.Circuits.{Circuit};
    ghost use Rattle.pg_aiger.specs.Mirrors.Views.{viewed, IsKept};

    ghost Value = { Circuit };

    ghost view = { λ c. viewed c.inputs c.nexts.items c.outputs.items c.gates.items };

    ghost invariant = { λ c. IsKept c.inputs c.nexts.items c.outputs.items c.gates.items };
}

impl Circuit {
    /// Returns the circuit of these parts: the number of inputs, the next literals of the latches, the literals of the outputs, and the
    /// gates.
    ///
    /// It returns `None` if and only if there are more than 16 inputs, latches or outputs, or more than 1,073,741,823 variables; or if
    /// the gates don't define the variables after the inputs and latches in order, each by literals of smaller variables, the greater one
    /// first; or if a latch or an output uses a literal of an undefined variable.
    pub fn of_parts(
        inputs: u32,
        nexts: Vec<u32>,
        outputs: Vec<u32>,
        gates: Vec<Gate>,
    ) -> Option<Circuit>
        ensures parts { IfSome result (λ circuit. circuit ≡ circuit_in_order inputs nexts.items outputs.items gates.items) }
        ensures kept { OnSome result (IsKept inputs nexts.items outputs.items gates.items) }
        ensures none { IfNone result (¬ IsKept inputs nexts.items outputs.items gates.items) }
    {
        if !are_parts(inputs, &nexts, &outputs, &gates) {
            return None;
        }
        Some(Circuit {
            inputs,
            nexts,
            outputs,
            gates,
        })
    }

    /// Returns the number of inputs, the next literals of the latches, the literals of the outputs, and the gates.
    pub fn parts(&self) -> (u32, &[u32], &[u32], &[Gate])
        ensures parts { self.now ≡ circuit_in_order result.0 result.1.now result.2.now result.3.now }
        ensures kept { IsKept result.0 result.1.now result.2.now result.3.now }
    {
        (self.inputs, &self.nexts, &self.outputs, &self.gates)
    }

    /// Makes one step, and returns the output letter for the input letter `inputs`. Bit j of `inputs` is the j-th input, and bit j of the
    /// output letter the j-th output. Bit j of `bits` is the j-th latch, before the call and after it. Further bits are ignored. A run
    /// begins with all bits 0.
    ///
    /// It fails only with `OutOfMemory`, and then leaves `bits` unchanged.
    pub fn step(&self, bits: &mut u32, inputs: u32) -> Result<u32, AigerFault>
        ensures step { IfOk result (λ output. Steps self.now bits.old inputs output bits.new) }
        ensures run { IfOk result (λ output. GoesOn self.now bits.old inputs output bits.new) }
        ensures kept { OnErr result (bits.new ≡ bits.old) }
        ensures refused { IfErr result (λ fault. fault ≡ AigerFault.OutOfMemory) }
    {
        let alloc = *self.gates.allocator();
        let latches = self.nexts.len() as u32;
        let values = evaluate(alloc, self.inputs, latches, &self.gates, *bits, inputs)?;
        let output = number_of(&values, &self.outputs);
        *bits = number_of(&values, &self.nexts);
        Ok(output)
    }
}

/// Returns the least number of latches that tells the states apart.
fn latches_for(states: u32) -> u32
    requires { states ≤ 2 ^ 16 }
    ensures width { IsWidth states result }
    ensures few { result ≤ 16 }
{
    for latches in 0..16 {
        if states <= 1 << latches {
            return latches;
        }
    }
    16
}

/// Returns how many places the table of a machine has: one for each state and input letter.
fn places_of(machine: &Mealy) -> u32
    requires { IsMachine machine.now }
    ensures count { result ≡ machine.now.states * 2 ^ machine.now.inputs }
    ensures few { result ≤ 16777216 }
{
    machine.states() << machine.inputs()
}

/// Returns the output letters and the next states of a machine, place by place.
fn replies(alloc: Global, machine: &Mealy) -> Result<(Vec<u32>, Vec<u32>), AllocError>
    requires { IsMachine machine.now }
    ensures outputs { IfOk result (λ lists. lists.0.items
        ≡ outputs_below machine.now (machine.now.states * 2 ^ machine.now.inputs)) }
    ensures nexts { IfOk result (λ lists. lists.1.items
        ≡ nexts_below machine.now (machine.now.states * 2 ^ machine.now.inputs)) }
{
    let inputs = machine.inputs();
    let mut outputs = Vec::new(alloc);
    let mut nexts = Vec::new(alloc);
    for place in 0..places_of(machine) {
        let (output, next) = machine.step(place >> inputs, place % (1 << inputs));
        outputs.push(output)?;
        nexts.push(next)?;
    }
    Ok((outputs, nexts))
}

/// Makes the circuit of a machine: in every run its outputs are the machine's output letters. Its latches hold the number of the
/// machine's state.
///
/// It fails with `TooLarge` if and only if the circuit could have more than 1,073,741,823 variables, before it makes any; no machine is
/// that large (`laws::none_too_large`). Otherwise it fails only with `OutOfMemory`.
pub fn circuit_of(alloc: Global, machine: &Mealy) -> Result<Circuit, AigerFault>
    ensures circuit { IfOk result (IsCircuitOf machine.now) }
    ensures too_large { (result ≡ Err AigerFault.TooLarge) ↔ IsTooLarge machine.now }
    ensures refused { IfErr result (λ fault. fault ≢ AigerFault.Write) }
{
    let latches = latches_for(machine.states());
    let width = machine.inputs() + 2 * latches + machine.outputs();
    let gates = places_of(machine) as u64 * width as u64;
    if (machine.inputs() + latches) as u64 + gates > MAX_VARIABLES {
        return Err(AigerFault::TooLarge);
    }
    Ok(built(alloc, machine, latches)?)
}

/// Returns the circuit of a machine, with the given number of latches.
fn built(alloc: Global, machine: &Mealy, latches: u32) -> Result<Circuit, AllocError>
    requires machine { IsMachine machine.now }
    requires width { IsWidth machine.now.states latches }
    requires few { latches ≤ 16 }
    requires room { count_ahead machine.now latches < 2 ^ 30 }
    ensures { IfOk result (IsCircuitOf machine.now) }
{
    let (nexts, outputs, gates) = columns_of(alloc, machine, latches)?;
    Ok(Circuit {
        inputs: machine.inputs(),
        nexts,
        outputs,
        gates,
    })
}

/// Returns the next literals of the latches, the literals of the outputs, and the gates.
fn columns_of(
    alloc: Global,
    machine: &Mealy,
    latches: u32,
) -> Result<(Vec<u32>, Vec<u32>, Vec<Gate>), AllocError>
    requires machine { IsMachine machine.now }
    requires enough { machine.now.states ≤ 2 ^ latches }
    requires few { latches ≤ 16 }
    requires room { count_ahead machine.now latches < 2 ^ 30 }
    ensures latches { IfOk result (λ lists. length lists.0.items ≡ latches) }
    ensures columns { IfOk result (λ lists. AreColumns machine.now lists.0.items lists.1.items lists.2.items) }
    ensures made { IfOk result (λ lists. circuit_in_order machine.now.inputs lists.0.items lists.1.items lists.2.items
        ≡ made_circuit machine.now latches) }
{
    let inputs = machine.inputs();
    let places = places_of(machine);
    let (letters, states) = replies(alloc, machine)?;
    let mut draft = Draft::new(alloc, 1 + inputs + latches);
    let literals = minterms(alloc, &mut draft, inputs, latches, places)?;
    let nexts = columns(alloc, &mut draft, &literals, &states, latches)?;
    let outputs = columns(alloc, &mut draft, &literals, &letters, machine.outputs())?;
    Ok((nexts, outputs, draft.into_gates()))
}

/// Returns the value of a literal.
fn read(values: &[bool], literal: u32) -> bool
    requires { literal < 2 * length values.now }
    ensures { (v : Valuation) → Agrees values.now v → result ≡ value v literal }
{
    values[(literal / 2) as usize] != (literal % 2 == 1)
}

/// Returns the values of all variables, from 0 on, in a step in which the latches have the bits of `state` and the inputs the bits of
/// `letter`.
fn evaluate(
    alloc: Global,
    inputs: u32,
    latches: u32,
    gates: &[Gate],
    state: u32,
    letter: u32,
) -> Result<Vec<bool>, AllocError>
    requires few { (inputs ≤ 16) × (latches ≤ 16) }
    requires gates { AreGatesFrom (1 + inputs + latches) gates.now }
    ensures length { IfOk result (λ l. length l.items ≡ 1 + inputs + latches + length gates.now) }
    ensures agrees { IfOk result (λ l. (v : Valuation) → IsValued inputs latches gates.now state letter v
        → Agrees l.items v) }
{
    let mut values = Vec::new(alloc);
    values.push(false)?;
    for input in 0..inputs {
        values.push((letter >> input) % 2 == 1)?;
    }
    for latch in 0..latches {
        values.push((state >> latch) % 2 == 1)?;
    }
    for gate in gates {
        let left = read(&values, gate.rhs0);
        let right = read(&values, gate.rhs1);
        values.push(left & right)?;
    }
    Ok(values)
}

/// Returns the number that the literals spell, the low bit first.
fn number_of(values: &[bool], literals: &[u32]) -> u32
    requires few { length literals.now ≤ 16 }
    requires literals_in { All (λ literal. literal < 2 * length values.now) literals.now }
    ensures fits { result < 2 ^ length literals.now }
    ensures value { (v : Valuation) → Agrees values.now v → result ≡ number_of v literals.now }
{
    match literals {
        [] => 0,
        [first, rest @ ..] => {
            let higher = 2 * number_of(values, rest);
            if read(values, *first) {
                higher + 1
            } else {
                higher
            }
        }
    }
}
