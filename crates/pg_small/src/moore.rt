//! Circuits whose outputs depend on latches alone, for a controller that chooses its output letter before the input letter.

use crate::circuit::{WantedNet, circuit_of};
use crate::codes::{Codes, Columns};
use crate::freedom::Freedom;
use crate::game::GameDraft;
use crate::machine::Machine;
use crate::merging::merged;
use crate::numbers::{Allocated, at, count, power};
use crate::proposal::{STEPS, SmallCircuit, TRIES, WORDS};
use crate::steps::Steps;
use crate::tree::tree_of;
use pg_arena::Player;
use pg_hoa_automaton::Automaton;
use pg_search_winners::find_winners;
use std::alloc::{AllocError, Global};

/// Proposes small circuits, the smallest first, as `propose` does, but their outputs don't depend on inputs of the same step: at most
/// three, and none if the controller loses when it chooses first, or the automaton is too large. Fails only if memory runs out.
pub fn propose_moore(
    alloc: Global,
    automaton: &Automaton,
) -> Result<Vec<SmallCircuit>, AllocError> {
    let mut proposals = Vec::new(alloc);
    let Some(steps) = Steps::of(alloc, automaton)? else {
        return Ok(proposals);
    };
    let Some(letters) = letters_of(&steps)? else {
        return Ok(proposals);
    };
    let machine = Machine::ahead(&steps, &letters)?;
    let machine = merged(machine, &steps, &mut { TRIES })?;
    let mut words = WORDS;
    for is_counted in [false, true] {
        if let Some(proposal) = proposal_of(&steps, &machine, is_counted, &mut words)? {
            proposals.push(proposal)?;
        }
    }
    if let Some(last) = tree_of(&machine, &steps)? {
        proposals.push(last)?;
    }
    proposals.sort_by_key(|it: &SmallCircuit| it.size())?;
    Ok(proposals)
}

/// Returns an output letter for each state, with which the controller wins, or `None` if it loses the start.
fn letters_of(steps: &Steps) -> Allocated<Option<Vec<u32>>> {
    let pairs = steps.states.wrapping_shl(steps.outputs);
    let last = power(steps.outputs).wrapping_sub(1);
    let mut draft = GameDraft::new(steps, Player::Even, pairs)?;
    for pair in 0..pairs {
        let first = steps.point(pair.wrapping_shr(steps.outputs), 0);
        for input in 0..power(steps.inputs) {
            let place = steps.place(first.wrapping_add(input), pair & last);
            draft.row.push(steps.at(place))?;
        }
        draft.lead()?;
    }
    let winners = find_winners(steps.alloc, &draft.graph()?)?;
    if winners.winner.get(steps.start as usize).copied() != Some(Player::Even) {
        return Ok(None);
    }
    let mut letters = Vec::new(steps.alloc);
    for state in 0..steps.states {
        let choice = at(&winners.choice, state);
        letters.push(choice.wrapping_sub(steps.states) & last)?;
    }
    Ok(Some(letters))
}

/// Returns codes of a machine's states: by parts, or counted.
fn codes_of(machine: &Machine, is_counted: bool) -> Allocated<Option<Codes>> {
    let alloc = *machine.nexts.allocator();
    let (inputs, states) = (machine.inputs, machine.states);
    let mut edges = Vec::new(alloc);
    for input in 0..if is_counted { 0 } else { power(inputs) } {
        for state in 0..states {
            let point = state.wrapping_shl(inputs).wrapping_add(input);
            edges.push(at(&machine.nexts, point))?;
        }
    }
    let columns = Columns {
        alloc,
        states,
        edges: &edges,
    };
    Codes::new(columns, &mut { STEPS })
}

/// Returns a circuit of the output letters over latches alone, followed by one of the next states.
fn proposal_of(
    steps: &Steps,
    machine: &Machine,
    is_counted: bool,
    words: &mut u64,
) -> Allocated<Option<SmallCircuit>> {
    let alloc = steps.alloc;
    let (inputs, states) = (machine.inputs, machine.states);
    let Some(codes) = codes_of(machine, is_counted)? else {
        return Ok(None);
    };
    let mut letters = Vec::new(alloc);
    let mut order = Vec::new(alloc);
    for state in 0..states {
        letters.push(at(&machine.outputs, state.wrapping_shl(inputs)))?;
    }
    for output in 0..steps.outputs {
        order.push(output)?;
    }
    let zeros = vec![in alloc; 0u32; letters.len()]?;
    let free = Freedom::none((states, 0, steps.outputs), letters, zeros)?;
    let Some(first) = part(&free, &codes, (&order, 0), words)? else {
        return Ok(None);
    };
    let zeros = vec![in alloc; 0u32; machine.nexts.len()]?;
    let free = Freedom::none((states, inputs, 0), zeros, machine.nexts.clone()?)?;
    let Some(second) = part(&free, &codes, (&[], codes.bits), words)? else {
        return Ok(None);
    };
    let mut gates = Vec::new(alloc);
    let outputs = first.append(&mut gates, 1, inputs)?;
    let by = count(gates.len());
    let latches = second.append(&mut gates, second.net.given, by)?;
    Ok(Some(SmallCircuit {
        latches,
        outputs,
        gates,
    }))
}

/// Returns a circuit of a part of what a machine does, made small.
fn part(
    free: &Freedom,
    codes: &Codes,
    bits: (&[u32], u32),
    words: &mut u64,
) -> Allocated<Option<WantedNet>> {
    let Some(mut circuit) = circuit_of(free, codes, bits, words)? else {
        return Ok(None);
    };
    circuit.improve(0, &mut { WORDS / 4 })?;
    Ok(Some(circuit))
}
