//! How the vertices of the game of an automaton are numbered. Each state has a number for its arrival without a set, one for its arrival
//! with each set, and one for its answer to each input letter.

ghost use Rattle.std.specs.Prelude.{◌≡◌, ◌^◌, ◌≤◌, length, map, IfOk};
ghost use Rattle.std.specs.List.{range_with_len};
ghost use Rattle.pg_hoa_automaton.specs.Automata.{IsAutomaton};
ghost use Rattle.pg_synth.specs.Letters.{joined, inputs, outputs};
ghost use Rattle.pg_synth.specs.Mirrors.Layouts.{IsLayoutOf};

use pg_hoa_automaton::Automaton;
use std::alloc::{AllocError, Global};

/// Each input letter and each output letter, as a letter whose other part is zero, and the number of identifiers per state.
#[derive(Drop)]
pub(crate) struct Layout {
    pub inputs: Vec<u32>,
    pub outputs: Vec<u32>,
    pub width: u32,
}

/// Returns the layout of the game of an automaton.
pub(crate) fn layout_of(alloc: Global, automaton: &Automaton) -> Result<Layout, AllocError>
    requires { IsAutomaton automaton.now }
    ensures { IfOk result (IsLayoutOf automaton.now) }
{
    let controllable = marks(alloc, automaton)?;
    let inputs = input_parts(alloc, &controllable)?;
    let outputs = output_parts(alloc, &controllable)?;
    let width = automaton.sets() + 1 + inputs.len() as u32;
    Ok(Layout {
        inputs,
        outputs,
        width,
    })
}

/// Returns the number of propositions that the controller sets.
pub fn count_controlled(automaton: &Automaton) -> u32
    requires { IsAutomaton automaton.now }
    ensures value { result ≡ outputs automaton.now.controllable }
    ensures within { result ≤ length automaton.now.propositions }
{
    let mut count = 0;
    for a in 0..automaton.propositions() {
        if automaton.controllable(a) {
            count += 1;
        }
    }
    count
}

/// Returns for each proposition whether the controller sets it. Fails only if an allocation fails.
pub fn marks(alloc: Global, automaton: &Automaton) -> Result<Vec<bool>, AllocError>
    requires { IsAutomaton automaton.now }
    ensures { IfOk result (λ list. list.items ≡ automaton.now.controllable) }
{
    let mut list = Vec::new(alloc);
    for a in 0..automaton.propositions() {
        list.push(automaton.controllable(a))?;
    }
    Ok(list)
}

fn input_parts(alloc: Global, controllable: &[bool]) -> Result<Vec<u32>, AllocError>
    requires { length controllable.now ≤ 16 }
    ensures { IfOk result (λ list. list.items
        ≡ map (λ i. joined controllable.now i 0) (range_with_len 0 (2 ^ inputs controllable.now))) }
{
    let mut list = Vec::new(alloc);
    for input in 0..count_input_letters(controllable) {
        list.push(joined(controllable, input, 0))?;
    }
    Ok(list)
}

fn output_parts(alloc: Global, controllable: &[bool]) -> Result<Vec<u32>, AllocError>
    requires { length controllable.now ≤ 16 }
    ensures { IfOk result (λ list. list.items
        ≡ map (λ o. joined controllable.now 0 o) (range_with_len 0 (2 ^ outputs controllable.now))) }
{
    let mut list = Vec::new(alloc);
    for output in 0..count_output_letters(controllable) {
        list.push(joined(controllable, 0, output))?;
    }
    Ok(list)
}

/// Returns the number of input letters. `controllable` says for each proposition, of which there are at most 16, whether the controller
/// sets it.
pub fn count_input_letters(controllable: &[bool]) -> u32
    requires { length controllable.now ≤ 16 }
    ensures { result ≡ 2 ^ inputs controllable.now }
{
    match controllable {
        [] => 1,
        [first, rest @ ..] => {
            let others = count_input_letters(rest);
            if *first { others } else { 2 * others }
        }
    }
}

/// Returns the number of output letters.
fn count_output_letters(controllable: &[bool]) -> u32
    requires { length controllable.now ≤ 16 }
    ensures { result ≡ 2 ^ outputs controllable.now }
{
    match controllable {
        [] => 1,
        [first, rest @ ..] => {
            let others = count_output_letters(rest);
            if *first { 2 * others } else { others }
        }
    }
}

/// Returns the letter with this input part and this output part. `controllable` says for each proposition, of which there are at most 16,
/// whether the controller sets it. Surplus bits of the parts are ignored.
pub fn joined(controllable: &[bool], input: u32, output: u32) -> u32
    requires { length controllable.now ≤ 16 }
    ensures { result ≡ joined controllable.now input output }
{
    match controllable {
        [] => 0,
        [first, rest @ ..] => {
            if *first {
                output % 2 + 2 * joined(rest, input, output / 2)
            } else {
                input % 2 + 2 * joined(rest, input / 2, output)
            }
        }
    }
}
