//! The product of a circuit and an automaton: an automaton over the input letters alone.

ghost use Rattle.std.specs.Prelude.{◌≡◌, ◌≢◌, ℕ, ◌+◌, ◌*◌, ◌/◌, ◌^◌, ◌%◌, ◌<◌, ◌≤◌, ◌++◌, ◌∷◌, [], false, min, map, length, replicate, All, IfOk, IfErr, IfSome, OnOk};
ghost use Rattle.pg_hoa_automaton.specs.Automata.{IsAutomaton, next};
ghost use Rattle.pg_synth.specs.Letters.{inputs, outputs};
ghost use Rattle.pg_aiger_netlist.specs.Netlists.{IsAcyclic};
ghost use Rattle.pg_aiger_netlist.specs.Steps.{spelt, AreValues};
ghost use Rattle.pg_verify.specs.Reached.{HasTooManyStates, HasNoProduct};
ghost use Rattle.pg_verify.specs.Mirrors.Products.{pair, pair_of, pair_at, Extends, AreWide, AreFilled, IsNumbered, IsPut, IsDraft, same_names};
ghost use Rattle.pg_verify.specs.Products.{IsProductOf};

use crate::fault::VerifyFault;
use crate::letters::count_inputs;
use crate::states::{ProductState, listed, number_of, set_state};
use crate::table::store;
use indexmap::IndexSet;
use pg_aiger_netlist::Netlist;
use pg_hoa_automaton::{Automaton, Stored, Table};
use pg_synth::{count_input_letters, joined, marks};
use std::alloc::{AllocError, Global};
use std::collections::BTreeMap;

/// The states so far, each once, and their steps, state by state and input letter by input letter.
#[derive(Drop)]
struct ProductDraft {
    rows: IndexSet<ProductState>,
    /// The state that is being looked up.
    wanted: ProductState,
    slots: Vec<u32>,
    steps: Vec<Stored>,
    lists: Vec<Vec<u32>>,
    /// Proposals for the places of lists.
    listed: BTreeMap<Vec<u32>, u32>,
}

/// Returns the slot of the product's step that takes the automaton's step with these latches, or 0 if the automaton has none.
fn slot_for(
    alloc: Global,
    automaton: &Automaton,
    draft: &mut ProductDraft,
    latches: &[bool],
    state: u32,
    letter: u32,
) -> Result<u32, AllocError>
    requires few_rows { length draft.old.rows.keys < 4294967295 }
    requires few_steps { length draft.old.steps.items < 4294967295 }
    requires few_lists { length draft.old.lists.items < 4294967295 }
    ensures put { IfOk result (λ slot. IsPut (map pair_of draft.old.rows.keys) (map pair_of draft.new.rows.keys) draft.old.steps.items
        draft.new.steps.items (map (λ v. v.items) draft.old.lists.items) (map (λ v. v.items) draft.new.lists.items) (spelt latches.now)
        (next automaton.now state letter) slot) }
    ensures slots { OnOk result (draft.new.slots.items ≡ draft.old.slots.items) }
    ensures wide { (width : ℕ) → length latches.now ≡ width → AreWide width draft.old.rows.keys → OnOk result (AreWide width draft.new.rows.keys) }
    ensures one_row { OnOk result (length draft.new.rows.keys ≤ length draft.old.rows.keys + 1) }
{
    match automaton.next(state, letter) {
        None => Ok(0),
        Some((target, sets)) => {
            set_state(&mut draft.wanted, latches, target)?;
            let number = number_of(alloc, &mut draft.rows, &draft.wanted)?;
            let slot = store(
                alloc,
                &mut draft.steps,
                &mut draft.lists,
                &mut draft.listed,
                number,
                sets,
            )?;
            Ok(slot)
        }
    }
}

/// Appends the slot of a state's step at an input letter, whose values are in a lane of `values`.
fn push_step(
    alloc: Global,
    automaton: &Automaton,
    netlist: &Netlist,
    controllable: &[bool],
    draft: &mut ProductDraft,
    values: &[u64],
    latches: &mut [bool],
    k: usize,
    input: u32,
) -> Result<(), AllocError>
    requires automaton { IsAutomaton automaton.now }
    requires acyclic { IsAcyclic netlist.now }
    requires marks { controllable.now ≡ automaton.now.controllable }
    requires outputs { length netlist.now.outputs ≡ outputs automaton.now.controllable }
    requires draft { IsDraft automaton.now netlist.now (map pair_of draft.old.rows.keys) draft.old.slots.items draft.old.steps.items
        (map (λ v. v.items) draft.old.lists.items) }
    requires wide { AreWide (length netlist.now.latches) draft.old.rows.keys }
    requires input { input < 2 ^ inputs automaton.now.controllable }
    requires state { k < length draft.old.rows.keys }
    requires few_rows { length draft.old.rows.keys < 4294967295 }
    requires few_slots { length draft.old.slots.items < 4294967295 }
    requires place { length draft.old.slots.items ≡ k * 2 ^ inputs automaton.now.controllable + input }
    requires room { length values.now ≡ netlist.now.greatest + 1 }
    requires latches { length latches.old ≡ length netlist.now.latches }
    requires values { AreValues netlist.now (pair_at (map pair_of draft.old.rows.keys) k).latches input (input % 64) values.now }
    ensures draft { OnOk result (IsDraft automaton.now netlist.now (map pair_of draft.new.rows.keys) draft.new.slots.items
        draft.new.steps.items (map (λ v. v.items) draft.new.lists.items)) }
    ensures wide { OnOk result (AreWide (length netlist.now.latches) draft.new.rows.keys) }
    ensures grown { OnOk result (Extends (map pair_of draft.old.rows.keys) (map pair_of draft.new.rows.keys)) }
    ensures one_row { OnOk result (length draft.new.rows.keys ≤ length draft.old.rows.keys + 1) }
    ensures place { OnOk result (length draft.new.slots.items ≡ length draft.old.slots.items + 1) }
{
    let rows = listed(&draft.rows);
    let state = rows[k].state;
    let output = netlist.output(values, input % 64);
    netlist.next(values, input % 64, latches);
    let letter = joined(controllable, input, output);
    let slot = slot_for(alloc, automaton, draft, latches, state, letter)?;
    draft.slots.push(slot)?;
    Ok(())
}

/// Fills the row with the values of a state's steps at 64 input letters, if `input` is the first of them.
fn fill(netlist: &Netlist, rows: &[ProductState], k: usize, input: u32, values: &mut [u64])
    requires inputs { length netlist.now.inputs ≤ 16 }
    requires input { input < 65536 }
    requires state { k < length rows.now }
    requires wide { AreWide (length netlist.now.latches) rows.now }
    requires room { length values.old ≡ netlist.now.greatest + 1 }
    requires before { input % 64 ≢ 0 → AreFilled netlist.now (pair_at (map pair_of rows.now) k).latches input values.old }
    ensures { AreFilled netlist.now (pair_at (map pair_of rows.now) k).latches input values.new }
{
    if input % 64 == 0 {
        netlist.step(&rows[k].latches, input, values);
    }
}

/// Appends the slots of a state's steps at all input letters.
fn push_state(
    alloc: Global,
    automaton: &Automaton,
    netlist: &Netlist,
    controllable: &[bool],
    draft: &mut ProductDraft,
    values: &mut [u64],
    latches: &mut [bool],
    k: usize,
    letters: u32,
) -> Result<(), AllocError>
    requires automaton { IsAutomaton automaton.now }
    requires acyclic { IsAcyclic netlist.now }
    requires marks { controllable.now ≡ automaton.now.controllable }
    requires inputs { length netlist.now.inputs ≡ inputs automaton.now.controllable }
    requires outputs { length netlist.now.outputs ≡ outputs automaton.now.controllable }
    requires letters { letters ≡ 2 ^ inputs automaton.now.controllable }
    requires few { letters ≤ 65536 }
    requires draft { IsDraft automaton.now netlist.now (map pair_of draft.old.rows.keys) draft.old.slots.items draft.old.steps.items
        (map (λ v. v.items) draft.old.lists.items) }
    requires wide { AreWide (length netlist.now.latches) draft.old.rows.keys }
    requires state { k < length draft.old.rows.keys }
    requires few_rows { length draft.old.rows.keys ≤ 65535 }
    requires place { length draft.old.slots.items ≡ k * letters }
    requires room { length values.old ≡ netlist.now.greatest + 1 }
    requires latches { length latches.old ≡ length netlist.now.latches }
    ensures draft { OnOk result (IsDraft automaton.now netlist.now (map pair_of draft.new.rows.keys) draft.new.slots.items
        draft.new.steps.items (map (λ v. v.items) draft.new.lists.items)) }
    ensures wide { OnOk result (AreWide (length netlist.now.latches) draft.new.rows.keys) }
    ensures state { OnOk result (k < length draft.new.rows.keys) }
    ensures place { OnOk result (length draft.new.slots.items ≡ (k + 1) * letters) }
{
    for input in 0..letters {
        let rows = listed(&draft.rows);
        fill(netlist, rows, k, input, values);
        push_step(
            alloc,
            automaton,
            netlist,
            controllable,
            draft,
            values,
            latches,
            k,
            input,
        )?;
    }
    Ok(())
}

/// Returns the initial state, in which no latch is set.
fn first_row(alloc: Global, latches: usize, state: u32) -> Result<ProductState, AllocError>
    ensures wide { IfOk result (λ row. length row.latches.items ≡ latches) }
    ensures first { IfOk result (λ row. pair_of row ≡ pair 0 state) }
{
    let values = vec![in alloc; false; latches]?;
    Ok(ProductState {
        latches: values,
        state,
    })
}

/// Returns a draft with the initial state alone.
fn first_draft(alloc: Global, latches: usize, state: u32) -> Result<ProductDraft, AllocError>
    ensures wide { IfOk result (λ draft. AreWide latches draft.rows.keys) }
    ensures first { IfOk result (λ draft. map pair_of draft.rows.keys ≡ pair 0 state ∷ []) }
    ensures empty { IfOk result (λ draft. (draft.slots.items ≡ []) × (draft.steps.items ≡ []) × (draft.lists.items ≡ [])) }
{
    let mut rows = IndexSet::new(alloc);
    rows.insert(first_row(alloc, latches, state)?)?;
    Ok(ProductDraft {
        rows,
        wanted: first_row(alloc, latches, state)?,
        slots: Vec::new(alloc),
        steps: Vec::new(alloc),
        lists: Vec::new(alloc),
        listed: BTreeMap::new(alloc),
    })
}

/// Returns the greatest number of states that a product can have.
fn most_states(letters: u32) -> u32
    requires { 0 < letters }
    ensures { result ≡ min 65535 (16777216 / letters) }
{
    (16_777_216 / letters).min(65_535)
}

/// Returns the states that are reached from the initial one, with all their steps. It fails with `TooLarge` if there are too many states.
fn explore(
    alloc: Global,
    automaton: &Automaton,
    netlist: &Netlist,
    controllable: &[bool],
    letters: u32,
) -> Result<ProductDraft, VerifyFault>
    requires automaton { IsAutomaton automaton.now }
    requires marks { controllable.now ≡ automaton.now.controllable }
    requires inputs { length netlist.now.inputs ≡ inputs automaton.now.controllable }
    requires outputs { length netlist.now.outputs ≡ outputs automaton.now.controllable }
    requires letters { letters ≡ 2 ^ inputs automaton.now.controllable }
    requires few { letters ≤ 65536 }
    ensures draft { IfOk result (λ draft. IsDraft automaton.now netlist.now (map pair_of draft.rows.keys) draft.slots.items
        draft.steps.items (map (λ v. v.items) draft.lists.items)) }
    ensures whole { IfOk result (λ draft. length draft.slots.items ≡ length draft.rows.keys * letters) }
    ensures few { IfOk result (λ draft. length draft.rows.keys ≤ min 65535 (16777216 / letters)) }
    ensures refused { IfErr result (HasNoProduct automaton.now netlist.now) }
{
    let mut row = netlist.row(alloc)?;
    let values = row.as_mut_slice();
    let width = netlist.latches();
    let mut next = vec![in alloc; false; width]?;
    let latches = next.as_mut_slice();
    let most = most_states(letters) as usize;
    let mut draft = first_draft(alloc, width, automaton.start())?;
    let mut k = 0;
    'states: while k < listed(&draft.rows).len() {
        if listed(&draft.rows).len() > most {
            return Err(VerifyFault::TooLarge);
        }
        push_state(
            alloc,
            automaton,
            netlist,
            controllable,
            &mut draft,
            values,
            latches,
            k,
            letters,
        )?;
        k += 1;
    }
    Ok(draft)
}

/// Returns a name for each input.
fn names(alloc: Global, count: u32) -> Result<Vec<Vec<u8>>, AllocError>
    ensures { IfOk result (λ names. map (λ v. v.items) names.items ≡ same_names count) }
{
    let mut names = Vec::new(alloc);
    for _number in 0..count {
        names.push(Vec::from_slice(alloc, b"i")?)?;
    }
    Ok(names)
}

/// Returns a mark for each of `count` propositions, which says that the controller doesn't set it.
fn none_controlled(alloc: Global, count: u32) -> Result<Vec<bool>, AllocError>
    ensures { IfOk result (λ list. list.items ≡ replicate count false) }
{
    let mut list = Vec::new(alloc);
    for _number in 0..count {
        list.push(false)?;
    }
    Ok(list)
}

/// Makes the product of a circuit and an automaton, an automaton whose letters are the circuit's input letters: bit j of a letter is the
/// circuit's j-th input. The circuit must have as many inputs as the environment sets propositions, and as many outputs as the controller
/// sets.
///
/// It fails with `TooLarge` if and only if more than 65,535 states are reached, or more than 16,777,216 states times input letters, and
/// with `OutOfMemory` if memory runs out.
pub fn product_of(
    alloc: Global,
    automaton: &Automaton,
    netlist: &Netlist,
) -> Result<Automaton, VerifyFault>
    requires inputs { length netlist.now.inputs ≡ inputs automaton.now.controllable }
    requires outputs { length netlist.now.outputs ≡ outputs automaton.now.controllable }
    ensures product { IfOk result (IsProductOf automaton.now netlist.now) }
    ensures within { OnOk result (¬ HasTooManyStates automaton.now netlist.now) }
    ensures refused { IfErr result (HasNoProduct automaton.now netlist.now) }
{
    // called only for what its contract says about the automaton
    let _states = automaton.states();
    let controllable = marks(alloc, automaton)?;
    let inputs = count_inputs(&controllable);
    let letters = count_input_letters(&controllable);
    let draft = explore(alloc, automaton, netlist, &controllable, letters)?;
    let names = names(alloc, inputs)?;
    let none = none_controlled(alloc, inputs)?;
    let table = Table {
        states: listed(&draft.rows).len() as u32,
        letters,
        slots: draft.slots,
        steps: draft.steps,
        lists: draft.lists,
    };
    Ok(Automaton::from_parts(0, names, none, automaton.sets(), automaton.shape(), table))
}

/// Makes the product, if the circuit has as many inputs and outputs as the automaton has propositions of each kind, and otherwise returns
/// `None`. It fails as `product_of` does.
pub fn product_if_tied(
    alloc: Global,
    automaton: &Automaton,
    netlist: &Netlist,
) -> Result<Option<Automaton>, VerifyFault>
    ensures { IfOk result (λ found. IfSome found (IsProductOf automaton.now netlist.now)) }
{
    // called only for what its contract says about the automaton
    let _states = automaton.states();
    let controllable = marks(alloc, automaton)?;
    let inputs = count_inputs(&controllable) as usize;
    let outputs = controllable.len() - inputs;
    if netlist.inputs() != inputs || netlist.outputs() != outputs {
        return Ok(None);
    }
    Ok(Some(product_of(alloc, automaton, netlist)?))
}
