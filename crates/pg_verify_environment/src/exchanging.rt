//! The counterpart of an automaton: it accepts the words that the automaton doesn't, and each player sets the other's propositions.

ghost use Rattle.std.specs.Prelude.{◌≡◌, ◌+◌, ◌*◌, ◌<◌, ◌≤◌, length, map, Some, IfOk, IfErr, OnOk};
ghost use Rattle.pg_hoa_automaton.specs.Automata.{IsAutomaton, letters};
ghost use Rattle.pg_verify_environment.specs.Counterparts.{exchanged, opposite, opposite_sets, end_sets, end_step, step_on, IsCounterpart, IsRefused};
ghost use Rattle.pg_hoa_automaton.specs.Mirrors.Tables.{numbered};
ghost use Rattle.pg_verify.specs.Mirrors.Products.{Extends};
ghost use Rattle.pg_verify_environment.specs.Mirrors.Tables.{AreFilled};

use pg_hoa_automaton::{Automaton, Shape, Stored, Table};
use pg_verify::{VerifyFault, store};
use std::alloc::{AllocError, Global};
use std::collections::BTreeMap;

/// The limit on the states of an automaton.
const MOST_STATES: u32 = 65_535;

/// The limit on the places of an automaton's table.
const MOST_STEPS: u32 = 16_777_216;

/// Returns the shape whose conditions are true where the conditions of this one are false.
fn opposite(shape: Shape) -> Shape
    ensures { result ≡ opposite shape }
{
    match shape {
        Shape::MaxEven => Shape::MaxOdd,
        Shape::MaxOdd => Shape::MaxEven,
        Shape::MinEven => Shape::MinOdd,
        Shape::MinOdd => Shape::MinEven,
        Shape::Always => Shape::MaxEven,
        Shape::Never => Shape::Always,
    }
}

/// Returns the number of sets of the opposite shape.
fn opposite_sets(shape: Shape, sets: u32) -> u32
    ensures { result ≡ opposite_sets shape sets }
{
    match shape {
        Shape::Always => 1,
        _ => sets,
    }
}

/// Returns the sets that the counterpart meets over and over where a run of the automaton ends.
fn end_sets(shape: Shape, sets: u32) -> &'static [u32]
    ensures { result.now ≡ end_sets shape sets }
{
    match shape {
        Shape::MaxEven | Shape::Never => &[],
        Shape::MinEven if sets % 2 == 1 => &[],
        Shape::MinEven => &[1],
        Shape::MaxOdd | Shape::MinOdd | Shape::Always => &[0],
    }
}

/// Returns the names of the propositions.
fn names_of(alloc: Global, automaton: &Automaton) -> Result<Vec<Vec<u8>>, AllocError>
    ensures { IfOk result (λ names. map (λ v. v.items) names.items ≡ automaton.now.propositions) }
{
    let mut names = Vec::new(alloc);
    for a in 0..automaton.propositions() {
        names.push(Vec::from_slice(alloc, automaton.proposition(a))?)?;
    }
    Ok(names)
}

/// Returns, for each proposition, whether the controller doesn't set it.
fn exchanged(alloc: Global, automaton: &Automaton) -> Result<Vec<bool>, AllocError>
    requires { IsAutomaton automaton.now }
    ensures { IfOk result (λ list. list.items ≡ exchanged automaton.now.controllable) }
{
    let mut list = Vec::new(alloc);
    for a in 0..automaton.propositions() {
        list.push(!automaton.controllable(a))?;
    }
    Ok(list)
}

/// Slots of steps, and the steps and lists that they stand for.
#[derive(Drop)]
struct StepsDraft {
    slots: Vec<u32>,
    steps: Vec<Stored>,
    lists: Vec<Vec<u32>>,
    /// Proposals for the places of lists.
    known: BTreeMap<Vec<u32>, u32>,
}

/// Returns the slot of a step, where `end` is the slot of the step at the automaton's end.
fn slot_for(
    alloc: Global,
    automaton: &Automaton,
    draft: &mut StepsDraft,
    state: u32,
    letter: u32,
    end: u32,
) -> Result<u32, AllocError>
    requires end { numbered draft.old.steps.items (map (λ v. v.items) draft.old.lists.items) end ≡ Some (end_step automaton.now) }
    requires few_steps { length draft.old.steps.items < 4294967295 }
    requires few_lists { length draft.old.lists.items < 4294967295 }
    ensures there { IfOk result (λ slot. numbered draft.new.steps.items (map (λ v. v.items) draft.new.lists.items) slot
        ≡ Some (step_on automaton.now state letter)) }
    ensures slots { OnOk result (draft.new.slots.items ≡ draft.old.slots.items) }
    ensures steps { OnOk result (Extends draft.old.steps.items draft.new.steps.items) }
    ensures lists { OnOk result (Extends (map (λ v. v.items) draft.old.lists.items) (map (λ v. v.items) draft.new.lists.items)) }
    ensures one_step { OnOk result (length draft.new.steps.items ≤ length draft.old.steps.items + 1) }
    ensures one_list { OnOk result (length draft.new.lists.items ≤ length draft.old.lists.items + 1) }
{
    if state >= automaton.states() {
        return Ok(end);
    }
    match automaton.next(state, letter) {
        None => Ok(end),
        Some((target, sets)) => store(
            alloc,
            &mut draft.steps,
            &mut draft.lists,
            &mut draft.known,
            target,
            sets,
        ),
    }
}

/// Returns the automaton's steps, and the steps at its end, state by state and letter by letter.
fn filled(alloc: Global, automaton: &Automaton, width: u32) -> Result<StepsDraft, AllocError>
    requires automaton { IsAutomaton automaton.now }
    requires width { width ≡ letters automaton.now }
    requires few { (automaton.now.states + 1) * width ≤ 16777216 }
    ensures { IfOk result (λ f. AreFilled automaton.now ((automaton.now.states + 1) * width) f.slots.items f.steps.items
        (map (λ v. v.items) f.lists.items)) }
{
    let mut draft = StepsDraft {
        slots: Vec::new(alloc),
        steps: Vec::new(alloc),
        lists: Vec::new(alloc),
        known: BTreeMap::new(alloc),
    };
    let states = automaton.states();
    let end = store(
        alloc,
        &mut draft.steps,
        &mut draft.lists,
        &mut draft.known,
        states,
        end_sets(automaton.shape(), automaton.sets()),
    )?;
    for place in 0..(states + 1) * width {
        let slot = slot_for(
            alloc,
            automaton,
            &mut draft,
            place / width,
            place % width,
            end,
        )?;
        draft.slots.push(slot)?;
    }
    Ok(draft)
}

/// Makes the counterpart of an automaton, which has one state more. It fails with `TooLarge` if that would be over the limits of
/// automata: 65,535 states, and 16,777,216 states times letters. It fails with `OutOfMemory` if memory runs out.
pub fn counterpart(alloc: Global, automaton: &Automaton) -> Result<Automaton, VerifyFault>
    ensures counterpart { IfOk result (IsCounterpart automaton.now) }
    ensures refused { IfErr result (IsRefused automaton.now) }
{
    let states = automaton.states();
    let letters = 1 << automaton.propositions();
    if states >= MOST_STATES || (states + 1) * letters > MOST_STEPS {
        return Err(VerifyFault::TooLarge);
    }
    let StepsDraft {
        slots,
        steps,
        lists,
        ..
    } = filled(alloc, automaton, letters)?;
    let table = Table {
        states: states + 1,
        letters,
        slots,
        steps,
        lists,
    };
    Ok(Automaton::from_parts(
        automaton.start(),
        names_of(alloc, automaton)?,
        exchanged(alloc, automaton)?,
        opposite_sets(automaton.shape(), automaton.sets()),
        opposite(automaton.shape()),
        table,
    ))
}
