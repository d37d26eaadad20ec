//! Steps of a netlist, 64 at once.

ghost use Rattle.std.specs.Prelude.{◌≡◌, ℕ, ◌+◌, ◌/◌, ◌^◌, ◌<◌, ◌≤◌, ◌∷◌, [], ◌++◌, All, length, map, slice_index_or, false, IfOk};
ghost use Rattle.pg_aiger.specs.declared.gate.Gate.{Gate};
ghost use Rattle.pg_aiger.specs.declared.gate.Latch.{Latch};
ghost use Rattle.pg_aiger.specs.Circuits.{Circuit};
ghost use Rattle.pg_aiger.specs.Runs.{Valuation, IsStepAt, bit, value, number_of, nexts};
ghost use Rattle.pg_aiger_netlist.specs.Steps.{spelt, AreValues};
ghost use Rattle.pg_aiger_netlist.specs.Netlists.{IsAcyclic, known_by, sources};
ghost use Rattle.pg_aiger_netlist.specs.Mirrors.Lanes.{lane_value, AreWords};
ghost use Rattle.pg_aiger_netlist.specs.Mirrors.Marks.{variable_of, IsWithin};
ghost use Rattle.pg_aiger_netlist.specs.Mirrors.Views.{IsOrder};

use crate::netlist::Netlist;
use pg_aiger::{Gate, Latch};
use std::alloc::{AllocError, Global};

const ALL: u64 = 18_446_744_073_709_551_615;

/// Returns the word of an input: lane i has its value in the letter `first` + i.
fn input_word(first: u32, input: u32) -> u64
    requires input { input < 16 }
    requires first { first < 2147483648 }
    ensures { (lane : ℕ) → lane < 64 → bit result lane ≡ bit (first + lane) input }
{
    let mut word: u64 = 0;
    for lane in 0..64 {
        if ((first + lane) >> input) % 2 == 1 {
            word |= 1 << lane;
        }
    }
    word
}

/// Returns the word of a literal.
fn word_at(values: &[u64], literal: u32) -> u64
    requires { literal / 2 < length values.now }
    ensures { (lane : ℕ) → lane < 64 → bit result lane ≡ lane_value values.now lane literal }
{
    let word = values[(literal / 2) as usize];
    if literal % 2 == 1 { !word } else { word }
}

/// Returns the value of a literal in a lane.
fn value_at(values: &[u64], literal: u32, lane: u32) -> bool
    requires literal { literal / 2 < length values.now }
    requires lane { lane < 64 }
    ensures { result ≡ lane_value values.now lane literal }
{
    ((values[(literal / 2) as usize] >> lane) % 2 == 1) != (literal % 2 == 1)
}

/// Returns the number that the literals spell in a lane, the first one as the lowest bit.
fn number_at(values: &[u64], literals: &[u32], lane: u32) -> u32
    requires few { length literals.now ≤ 16 }
    requires literals { All (λ literal. literal / 2 < length values.now) literals.now }
    requires lane { lane < 64 }
    ensures fits { result < 2 ^ length literals.now }
    ensures value { (v : Valuation) → ((j : ℕ) → j < length literals.now
        → lane_value values.now lane (slice_index_or literals.now j 0) ≡ value v (slice_index_or literals.now j 0))
        → result ≡ number_of v literals.now }
{
    match literals {
        [] => 0,
        [first, rest @ ..] => {
            let higher = 2 * number_at(values, rest, lane);
            if value_at(values, *first, lane) {
                higher + 1
            } else {
                higher
            }
        }
    }
}

/// Writes the words of the inputs into the row.
fn put_inputs(row: &mut [u64], inputs: &[u32], first: u32)
    requires few { length inputs.now ≤ 16 }
    requires first { first < 2147483648 }
    requires within { All (λ literal. literal / 2 < length row.old) inputs.now }
    ensures { (circuit : Circuit) (state : ℕ) → IsAcyclic circuit → circuit.inputs ≡ inputs.now
        → AreWords circuit state first (0 ∷ []) row.old → AreWords circuit state first (known_by inputs.now) row.new }
{
    for (input, literal) in inputs.iter().enumerate() {
        row[(*literal / 2) as usize] = input_word(first, input as u32);
    }
}

/// Writes the words of the latches into the row. A latch has the same value in each lane.
fn put_latches(row: &mut [u64], lines: &[Latch], latches: &[bool])
    requires many { length latches.now ≡ length lines.now }
    requires within { All (λ latch. latch.literal / 2 < length row.old) lines.now }
    ensures { (circuit : Circuit) (first : ℕ) → IsAcyclic circuit → circuit.latches ≡ lines.now
        → AreWords circuit (spelt latches.now) first (known_by circuit.inputs) row.old
        → AreWords circuit (spelt latches.now) first (known_by (sources circuit)) row.new }
{
    for (place, latch) in lines.iter().enumerate() {
        row[(latch.literal / 2) as usize] = if latches[place] { ALL } else { 0 };
    }
}

/// Writes the words of gates in order into the row.
fn put_gates(row: &mut [u64], ordered: &[Gate])
    requires { All (IsWithin (length row.old)) ordered.now }
    ensures { (circuit : Circuit) (state first : ℕ) → IsAcyclic circuit → IsOrder circuit ordered.now
        → AreWords circuit state first (known_by (sources circuit)) row.old
        → AreWords circuit state first (known_by (sources circuit) ++ map variable_of ordered.now) row.new }
{
    for gate in ordered {
        row[(gate.lhs / 2) as usize] = word_at(row, gate.rhs0) & word_at(row, gate.rhs1);
    }
}

/// Writes into `latches` the values that they take over in a lane.
fn take_latches(row: &[u64], lines: &[Latch], lane: u32, latches: &mut [bool])
    requires lane { lane < 64 }
    requires many { length latches.old ≡ length lines.now }
    requires within { All (λ latch. latch.next / 2 < length row.now) lines.now }
    ensures { (v : Valuation) → ((j : ℕ) → j < length lines.now → lane_value row.now lane (slice_index_or (map Latch.next lines.now) j 0)
        ≡ value v (slice_index_or (map Latch.next lines.now) j 0)) → spelt latches.new ≡ number_of v (map Latch.next lines.now) }
{
    for (place, latch) in lines.iter().enumerate() {
        latches[place] = value_at(row, latch.next, lane);
    }
}

impl Netlist {
    /// Returns a row with room for the values of all variables: a word for each variable from 0 to the greatest. It fails only if memory
    /// runs out.
    pub fn row(&self, alloc: Global) -> Result<Vec<u64>, AllocError>
        ensures { IfOk result (λ row. length row.items ≡ self.now.greatest + 1) }
    {
        vec![in alloc; 0; self.greatest as usize + 1]
    }

    /// Returns the number of inputs.
    pub fn inputs(&self) -> usize
        ensures { result ≡ length self.now.inputs }
    {
        self.inputs.len()
    }

    /// Returns the number of latches.
    pub fn latches(&self) -> usize
        ensures count { result ≡ length self.now.latches }
        ensures acyclic { IsAcyclic self.now }
    {
        self.latches.len()
    }

    /// Returns the number of outputs.
    pub fn outputs(&self) -> usize
        ensures { result ≡ length self.now.outputs }
    {
        self.outputs.len()
    }

    /// Computes 64 steps from the same latches. Lane i of the row, bit i of each word, gets the values of all variables for the input
    /// letter `first` + i; bit j of a letter is the j-th input. `latches` has a value for each latch, and `row` has the length that
    /// `Netlist::row` gives it. There must be at most 16 inputs, and `first` must be below 2,147,483,648.
    pub fn step(&self, latches: &[bool], first: u32, row: &mut [u64])
        requires few { length self.now.inputs ≤ 16 }
        requires latches { length latches.now ≡ length self.now.latches }
        requires first { first < 2147483648 }
        requires room { length row.old ≡ self.now.greatest + 1 }
        ensures values { (lane : ℕ) → lane < 64 → AreValues self.now (spelt latches.now) (first + lane) lane row.new }
    {
        row[0] = 0;
        put_inputs(row, &self.inputs, first);
        put_latches(row, &self.latches, latches);
        put_gates(row, &self.ordered);
    }

    /// Returns the output letter in a lane, from 0 to 63, of a row that `step` filled; bit j is the j-th output. There must be at most 16
    /// outputs.
    pub fn output(&self, row: &[u64], lane: u32) -> u32
        requires few { length self.now.outputs ≤ 16 }
        requires lane { lane < 64 }
        requires room { length row.now ≡ self.now.greatest + 1 }
        ensures { (state letter : ℕ) (v : Valuation) → AreValues self.now state letter lane row.now → IsStepAt self.now state letter v
            → result ≡ number_of v self.now.outputs }
    {
        number_at(row, &self.outputs, lane)
    }

    /// Writes into `latches` the values of the latches after the step in a lane, from 0 to 63, of a row that `step` filled.
    pub fn next(&self, row: &[u64], lane: u32, latches: &mut [bool])
        requires lane { lane < 64 }
        requires latches { length latches.old ≡ length self.now.latches }
        requires room { length row.now ≡ self.now.greatest + 1 }
        ensures { (state letter : ℕ) (v : Valuation) → AreValues self.now state letter lane row.now → IsStepAt self.now state letter v
            → spelt latches.new ≡ number_of v (nexts self.now) }
    {
        take_latches(row, &self.latches, lane, latches);
    }
}
