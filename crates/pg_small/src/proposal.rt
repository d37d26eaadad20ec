//! Small circuits: machines of few states, their freedom, codes of their states, and nets.

use crate::circuit::{WantedNet, circuit_of};
use crate::codes::{Codes, Columns};
use crate::dice::Dice;
use crate::fewest::keep_few;
use crate::freedom::Freedom;
use crate::game::winning_moves;
use crate::machine::Machine;
use crate::merging::merged;
use crate::net::Conjunction;
use crate::numbers::{Allocated, power};
use crate::steps::Steps;
use crate::tree::tree_of;
use pg_hoa_automaton::Automaton;
use std::alloc::{AllocError, Global};

/// The most steps that are looked at to find machines, what these may do instead, and codes; `TRIES` is the most steps that are looked at
/// to merge states.
pub const STEPS: u64 = 1 << 24;

pub const TRIES: u64 = 1 << 25;

/// The most words of values that are looked at to make circuits, and each time that their gates are remade.
pub const WORDS: u64 = 1 << 25;

/// How many other codes and orders of outputs are tried; `WORDS_OF_TURN` is the most words that are looked at for each.
const TURNS: u32 = 60;

const WORDS_OF_TURN: u64 = 1 << 20;

/// A circuit. Its variables from 1 on are the automaton's inputs, in the order of its propositions, then the latches, and then the gates;
/// each gate is over literals of smaller variables. A literal is twice a variable, plus one where it is negated; 0 is false. All latches
/// begin as 0.
#[derive(Drop)]
pub struct SmallCircuit {
    /// The literal that each latch takes its next value from.
    pub latches: Vec<u32>,
    /// The literal of each of the automaton's outputs, in the order of its propositions.
    pub outputs: Vec<u32>,
    /// The gates, in the order of their variables.
    pub gates: Vec<Conjunction>,
}

impl SmallCircuit {
    /// How many gates and latches there are.
    pub fn size(&self) -> usize {
        self.gates.len().saturating_add(self.latches.len())
    }
}

/// Proposes small circuits, the smallest first, all of whose runs the automaton is meant to accept: at most two, and none if the controller
/// loses or the automaton is too large. Fails only if memory runs out.
pub fn propose(alloc: Global, automaton: &Automaton) -> Result<Vec<SmallCircuit>, AllocError> {
    let mut proposals = Vec::new(alloc);
    let Some(mut steps) = Steps::of(alloc, automaton)? else {
        return Ok(proposals);
    };
    let Some(moves) = winning_moves(&mut steps, &mut { STEPS })? else {
        return Ok(proposals);
    };
    let machine = small_machine(&steps, moves)?;
    if let Some(mut draft) = best_draft(&steps, &machine)? {
        draft.search()?;
        draft.circuit.improve(0, &mut { WORDS })?;
        draft.circuit.improve(1, &mut { WORDS })?;
        let mut gates = Vec::new(alloc);
        let literals = draft.circuit.append(&mut gates, 0, 0)?;
        let (outputs, latches) = literals.split_at(draft.order.len().min(literals.len()));
        proposals.push(SmallCircuit {
            latches: Vec::from_slice(alloc, latches)?,
            outputs: Vec::from_slice(alloc, outputs)?,
            gates,
        })?;
    }
    if let Some(last) = tree_of(&machine, &steps)? {
        proposals.push(last)?;
    }
    proposals.sort_by_key(|it: &SmallCircuit| it.size())?;
    Ok(proposals)
}

/// Returns a machine that makes such moves: of few states from the start, or else of any.
fn small_machine(steps: &Steps, moves: Vec<bool>) -> Allocated<Machine> {
    let mut moves = moves;
    let any = Machine::choose(steps, &moves)?;
    keep_few(steps, &mut moves, &mut { STEPS })?;
    let mut tries = TRIES;
    let few = merged(Machine::choose(steps, &moves)?, steps, &mut tries)?;
    let any = merged(any, steps, &mut tries.saturating_sub(TRIES / 2))?;
    Ok(if any.states < few.states { any } else { few })
}

/// A circuit, and what it is made of.
#[derive(Drop)]
struct CircuitDraft {
    free: Freedom,
    codes: Codes,
    /// The order in which the outputs are made.
    order: Vec<u32>,
    circuit: WantedNet,
}

/// Returns the smaller one of the circuits with codes by parts and with counted codes, if there is one.
fn best_draft(steps: &Steps, machine: &Machine) -> Allocated<Option<CircuitDraft>> {
    let mut words = WORDS;
    let mut best: Option<CircuitDraft> = None;
    for is_counted in [false, true] {
        let Some(mut draft) = draft_of(steps, machine, is_counted, &mut words)? else {
            continue;
        };
        draft.circuit.improve(0, &mut { WORDS / 2 })?;
        let size = draft.circuit.size();
        if best.as_ref().map_or(true, |it| size < it.circuit.size()) {
            best = Some(draft);
        }
    }
    Ok(best)
}

/// Returns the circuit of the free moves of a machine, with codes for its states.
fn draft_of(
    steps: &Steps,
    machine: &Machine,
    is_counted: bool,
    words: &mut u64,
) -> Allocated<Option<CircuitDraft>> {
    let mut looks = STEPS;
    let Some(free) = Freedom::of(machine, steps, &mut looks)? else {
        return Ok(None);
    };
    let many = if is_counted { 0 } else { free.edges.len() };
    let columns = Columns {
        alloc: steps.alloc,
        states: free.states,
        edges: &free.edges[..many],
    };
    let Some(codes) = Codes::new(columns, &mut looks)? else {
        return Ok(None);
    };
    let mut order = Vec::new(steps.alloc);
    for output in 0..free.outputs {
        order.push(output)?;
    }
    let Some(circuit) = circuit_of(&free, &codes, (&order, codes.bits), words)? else {
        return Ok(None);
    };
    Ok(Some(CircuitDraft {
        free,
        codes,
        order,
        circuit,
    }))
}

impl CircuitDraft {
    /// Tries other codes and orders of outputs, as the dice fall, as long as that takes little.
    fn search(&mut self) -> Allocated<()> {
        let mut dice = Dice::new();
        for _ in 0..TURNS {
            let mut codes = self.codes.copied()?;
            let mut order = self.order.clone()?;
            if dice.below(4) == 0 {
                dice.exchange(&mut order);
            } else {
                let state = dice.below(self.free.states.saturating_sub(1));
                let code = dice.below(power(codes.bits).saturating_sub(1));
                codes.exchange(state.saturating_add(1), code.saturating_add(1));
            }
            let mut words = WORDS_OF_TURN;
            let bits = (&order[..], codes.bits);
            if let Some(mut circuit) = circuit_of(&self.free, &codes, bits, &mut words)? {
                circuit.improve(0, &mut words)?;
                if words > 0 && circuit.size() <= self.circuit.size() {
                    self.circuit = circuit;
                    self.codes = codes;
                    self.order = order;
                }
            }
            if words == 0 {
                break;
            }
        }
        Ok(())
    }
}
