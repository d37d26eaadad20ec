//! Outputs that the caller names, in place of a header in the text.

ghost use Rattle.std.specs.Prelude.{◌≡◌, ◌<◌, ◌++◌, ◌∷◌, [], length, map, Contains, MatchBool, MatchOption, IfOk, OnOk, IfErr};
ghost use Rattle.std.specs.Prelude.{if◌then◌else◌};
ghost use Rattle.std.specs.List.{All, list_any};
ghost use Rattle.std.specs.Str.{bytes_eq};
ghost use Rattle.pg_hoa.specs.Outputs.{is_named, outputs, IsFirstUnknown, HasOutputs, RefusesOutputs};

use crate::fault::HoaFault;
use crate::reader::read_automaton;
use pg_hoa_automaton::Automaton;
use pg_hoa_syntax::{has_header, with_controls};
use std::alloc::{AllocError, Global};

/// The header that says what the controller sets.
const CONTROLS: &[u8] = b"controllable-AP";

/// Why the caller can't name the outputs.
#[derive(Clone, Copy, Debug, PartialEq, Eq)]
pub enum OutputsFault {
    /// The text spells no automaton.
    Text(HoaFault),
    /// The text has the header `controllable-AP`.
    Controlled,
    /// No proposition has the name at this index of the list.
    NoProposition(usize),
}

impl From<HoaFault> for OutputsFault {
    ghost use Rattle.pg_hoa.specs.declared.outputs.OutputsFault.TheVariants as faults;

    ghost from_gives = { λ fault e. e ≡ faults.Text fault };

    fn from(fault: HoaFault) -> OutputsFault {
        OutputsFault::Text(fault)
    }
}

impl From<AllocError> for OutputsFault {
    ghost use Rattle.pg_hoa.specs.declared.outputs.OutputsFault.TheVariants as faults;
    ghost use Rattle.pg_hoa.specs.declared.fault.HoaFault.TheVariants as hoa;

    ghost from_gives = { λ _ e. e ≡ faults.Text hoa.OutOfMemory };

    fn from(_: AllocError) -> OutputsFault {
        OutputsFault::Text(HoaFault::OutOfMemory)
    }
}

/// Whether a proposition has this name.
fn has_proposition(automaton: &Automaton, name: &[u8]) -> bool
    ensures { MatchBool result (Contains automaton.now.propositions name.now)
        (Contains automaton.now.propositions name.now → ⊥) }
{
    for a in 0..automaton.propositions() {
        if automaton.proposition(a) == name {
            return true;
        }
    }
    false
}

/// Returns the place of the first name that no proposition has, if there is one.
fn first_unknown(automaton: &Automaton, names: &[&[u8]]) -> Option<usize>
    ensures { MatchOption result (All (λ name. Contains automaton.now.propositions name.now) names.now)
        (IsFirstUnknown automaton.now.propositions (map (λ name. name.now) names.now)) }
{
    for place in 0..names.len() {
        if !has_proposition(automaton, names[place]) {
            return Some(place);
        }
    }
    None
}

/// Whether the proposition has one of the names.
fn is_among(names: &[&[u8]], proposition: &[u8]) -> bool
    ensures { result ≡ list_any (λ name. bytes_eq name.now proposition.now) names.now }
{
    names.iter().any(|name| *name == proposition)
}

/// Appends a number, if it is wanted.
fn push_wanted(numbers: &mut Vec<u32>, number: u32, is_wanted: bool) -> Result<(), AllocError>
    ensures { OnOk result (numbers.new.items ≡ numbers.old.items ++ (if is_wanted then number ∷ [] else [])) }
{
    if is_wanted {
        numbers.push(number)?;
    }
    Ok(())
}

/// Whether the proposition of this number has one of the names.
fn is_named(automaton: &Automaton, names: &[&[u8]], a: u32) -> bool
    requires { a < length automaton.now.propositions }
    ensures { result ≡ is_named (map (λ name. name.now) names.now) automaton.now a }
{
    is_among(names, automaton.proposition(a))
}

/// Returns the numbers of the propositions that have one of the names.
fn numbers_of(alloc: Global, automaton: &Automaton, names: &[&[u8]]) -> Result<Vec<u32>, AllocError>
    ensures value { IfOk result (λ numbers. numbers.items ≡ outputs (map (λ name. name.now) names.now) automaton.now) }
{
    let mut numbers = Vec::new(alloc);
    for a in 0..automaton.propositions() {
        push_wanted(&mut numbers, a, is_named(automaton, names, a))?;
    }
    Ok(numbers)
}

/// Returns the text with one more header, by which the controller sets the propositions with these names and no others.
///
/// It fails, in this order: with `Text`, if `read_automaton` refuses the text; with `Controlled`, if the text has that
/// header already; with `NoProposition` for the first name that no proposition has. `Text(OutOfMemory)` can come at any
/// point.
pub fn with_outputs(alloc: Global, bytes: &[u8], names: &[&[u8]]) -> Result<Vec<u8>, OutputsFault>
    ensures found { IfOk result (λ text. HasOutputs bytes.now (map (λ name. name.now) names.now) text.items) }
    ensures refused { IfErr result (RefusesOutputs bytes.now (map (λ name. name.now) names.now)) }
{
    let automaton = read_automaton(alloc, bytes)?;
    // the text was read once, so reading it again fails only if memory runs out
    match has_header(bytes, CONTROLS) {
        Ok(false) => (),
        Ok(true) => return Err(OutputsFault::Controlled),
        Err(_) => return Err(OutputsFault::from(AllocError)),
    }
    match first_unknown(&automaton, names) {
        Some(place) => return Err(OutputsFault::NoProposition(place)),
        None => (),
    }
    let numbers = numbers_of(alloc, &automaton, names)?;
    match with_controls(alloc, bytes, &numbers) {
        Ok(text) => Ok(text),
        Err(_) => Err(OutputsFault::from(AllocError)),
    }
}
