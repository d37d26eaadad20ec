//! What a circuit does from a state: pieces of the input letters with the same answer.

use crate::bits::LetterCube;
use crate::budget::{Limits, SearchResult};
use crate::cone::{cone_of, variables};
use crate::machine::CircuitMachine;
use crate::numbers::{NONE, NodeSpan, count, item, put};
use crate::rails::Rail;
use crate::signals::Signals;
use crate::{lanes, rails};
use indexmap::IndexSet;
use pg_satisfies_check::{Bit, CircuitPart, Cutter};
use std::alloc::{AllocError, Global};

/// Up to so many inputs, all letters are tried. With more inputs, one is tried only where something depends on it.
const MOST_LANES: usize = 8;

/// What is known of the signals at some letters, and the number of the next state.
#[derive(Clone, Copy, PartialEq, Eq, Hash)]
pub struct StatePiece {
    pub cube: LetterCube,
    pub next: u32,
}

impl StatePiece {
    pub const FREE: StatePiece = StatePiece {
        cube: LetterCube::FREE,
        next: 0,
    };
}

/// A circuit: the part of it on which some propositions depend, the states of that part that were reached so far, and the pieces of those
/// that were asked for.
#[derive(Drop)]
pub struct CircuitPieces {
    pub(crate) system: CircuitPart,
    pub(crate) inputs: Vec<u32>,
    /// One more than the system's greatest variable.
    pub(crate) variables: usize,
    pub(crate) machine: CircuitMachine,
    pieces: Vec<StatePiece>,
    /// The pieces of each state, if they are known.
    spans: Vec<Option<NodeSpan>>,
    /// The states that stand in certificates, by the numbers of their cubes.
    cubes: Vec<u32>,
    /// The number of each state's cube, or `NONE`.
    numbers: Vec<u32>,
    /// Room for the values of all variables, in lanes or on rails.
    words: Vec<u64>,
    rails: Vec<Rail>,
}

/// Cubes of letters, each with the number of its answer.
type Answered = Vec<(LetterCube, u32)>;

/// Notes the letters of a row in cubes of equal answers. The row has an answer for each letter over the first `inputs` inputs.
fn join(row: &[u32], inputs: u32, cube: LetterCube, found: &mut Answered) -> SearchResult<()> {
    let [first, ..] = row else {
        return Ok(());
    };
    if inputs == 0 || row.iter().all(|answer| *answer == *first) {
        found.push((cube, *first))?;
        return Ok(());
    }
    let last = inputs - 1;
    let (off, on) = row.split_at(row.len() / 2);
    if off == on {
        return join(off, last, cube, found);
    }
    join(off, last, cube.and(LetterCube::of(last, false)), found)?;
    join(on, last, cube.and(LetterCube::of(last, true)), found)
}

/// Returns the same system once more.
fn copied(alloc: Global, system: &CircuitPart) -> Result<CircuitPart, AllocError> {
    Ok(CircuitPart {
        gates: Vec::from_slice(alloc, &system.gates)?,
        latches: Vec::from_slice(alloc, &system.latches)?,
        literals: Vec::from_slice(alloc, &system.literals)?,
    })
}

/// Makes a machine of the part of a system on which these propositions depend.
fn machine_of(
    alloc: Global,
    system: &CircuitPart,
    inputs: &[u32],
    propositions: &[u32],
) -> Result<CircuitMachine, AllocError> {
    let mut spoken = Vec::with_capacity(alloc, propositions.len())?;
    for proposition in propositions {
        spoken.push(item(&system.literals, *proposition, 0))?;
    }
    let cone = cone_of(alloc, system, &spoken)?;
    let signals = Signals::new(alloc, &cone.part, inputs, &spoken)?;
    CircuitMachine::new(alloc, cone, signals)
}

impl CircuitPieces {
    /// Begins with the state in which all latches are 0. Formulas may speak of these propositions alone. The gates of the system must
    /// come in order, each after those that it uses.
    pub fn new(
        alloc: Global,
        system: &CircuitPart,
        inputs: &[u32],
        propositions: &[u32],
    ) -> Result<CircuitPieces, AllocError> {
        Ok(CircuitPieces {
            system: copied(alloc, system)?,
            inputs: Vec::from_slice(alloc, inputs)?,
            variables: variables(system, inputs),
            machine: machine_of(alloc, system, inputs, propositions)?,
            pieces: Vec::new(alloc),
            spans: Vec::new(alloc),
            cubes: Vec::new(alloc),
            numbers: Vec::new(alloc),
            words: Vec::new(alloc),
            rails: Vec::new(alloc),
        })
    }

    /// Begins anew, with the part of the circuit on which these propositions depend.
    pub(crate) fn begin(&mut self, propositions: &[u32]) -> Result<(), AllocError> {
        let alloc = self.machine.alloc;
        self.machine = machine_of(alloc, &self.system, &self.inputs, propositions)?;
        let variables = self.machine.signals.variables();
        self.pieces.clear();
        self.spans.clear();
        self.cubes.clear();
        self.numbers.clear();
        self.words.clear();
        self.words.resize(variables, 0)?;
        self.rails.clear();
        self.rails.resize(variables, Rail::FALSE)
    }

    pub(crate) fn alloc(&self) -> Global {
        self.machine.alloc
    }

    /// Returns the number of the cubes of all certificates so far.
    pub fn cubes(&self) -> usize {
        self.cubes.len()
    }

    /// Returns the cube with a number: the value of each latch.
    pub fn cube(&self, alloc: Global, number: usize) -> Result<Vec<Bit>, AllocError> {
        let state = self.machine.state(item(&self.cubes, count(number), 0));
        let latches = self.machine.system.latches.len();
        let mut cube = Vec::with_capacity(alloc, latches)?;
        for latch in 0..latches {
            let value = lanes::has_bit(state, count(latch));
            let latch = item(&self.machine.places, count(latch), NONE) as usize;
            cube.push(Bit { latch, value })?;
        }
        Ok(cube)
    }

    /// Returns the number of a state's cube, and numbers it if it has none.
    pub(crate) fn number(&mut self, state: u32) -> Result<u32, AllocError> {
        let number = item(&self.numbers, state, NONE);
        if number != NONE {
            return Ok(number);
        }
        let number = count(self.cubes.len());
        self.cubes.push(state)?;
        self.numbers.resize(self.machine.len() as usize, NONE)?;
        put(&mut self.numbers, state, number);
        Ok(number)
    }

    /// Returns where the pieces of a state are.
    pub(crate) fn of(&mut self, state: u32, limits: &mut Limits) -> SearchResult<NodeSpan> {
        if let Some(span) = item(&self.spans, state, None) {
            return Ok(span);
        }
        let found = if self.machine.signals.inputs.len() <= MOST_LANES {
            self.by_letters(state, limits)?
        } else {
            self.by_splitting(state, limits)?
        };
        let span = self.keep(&found)?;
        self.spans.resize(self.machine.len() as usize, None)?;
        put(&mut self.spans, state, Some(span));
        Ok(span)
    }

    /// Returns the piece at a place.
    pub(crate) fn piece(&self, place: u32) -> StatePiece {
        item(&self.pieces, place, StatePiece::FREE)
    }

    /// Keeps pieces, those that say the same of the signals that are spoken of only once.
    fn keep(&mut self, found: &[(LetterCube, u32)]) -> SearchResult<NodeSpan> {
        let from = count(self.pieces.len());
        let mut met = IndexSet::new(self.alloc());
        for (letters, answer) in found {
            let outcome = self.machine.outcome(*answer);
            let cube = letters.and(outcome.outputs);
            let next = outcome.next;
            let spoken = cube.over(self.machine.signals.spoken);
            let (_, is_new) = met.insert_full(StatePiece { cube: spoken, next })?;
            if is_new {
                self.pieces.push(StatePiece { cube, next })?;
            }
        }
        let to = count(self.pieces.len());
        Ok(NodeSpan { from, to })
    }

    /// Tries all letters, 64 at once.
    fn by_letters(&mut self, state: u32, limits: &mut Limits) -> SearchResult<Answered> {
        let inputs = count(self.machine.signals.inputs.len());
        let letters = 1u32.wrapping_shl(inputs);
        let mut row = Vec::with_capacity(self.alloc(), letters as usize)?;
        for block in 0..letters.div_ceil(64) {
            limits.spend(self.work())?;
            self.try_letters(state, block)?;
            for lane in 0..letters.min(64) {
                row.push(self.machine.answer(lane)?)?;
            }
        }
        let mut found = Vec::new(self.alloc());
        join(&row, inputs, LetterCube::FREE, &mut found)?;
        Ok(found)
    }

    /// Returns how many steps it takes to compute answers.
    fn work(&self) -> usize {
        let wanted = self.machine.wanted.len().saturating_mul(64);
        self.machine.system.gates.len().saturating_add(wanted)
    }

    /// Computes the answers to 64 letters.
    fn try_letters(&mut self, state: u32, block: u32) -> SearchResult<()> {
        let machine = &self.machine;
        let mut input = 0u32;
        for variable in &machine.signals.inputs {
            put(&mut self.words, *variable, lanes::letter_word(input, block));
            input = input.wrapping_add(1);
        }
        lanes::put_latches(
            &mut self.words,
            &machine.system.latches,
            machine.state(state),
        );
        lanes::put_gates(&mut self.words, &machine.system.gates);
        self.machine.clear()?;
        for place in 0..self.machine.wanted.len() {
            let Some(wanted) = self.machine.wanted.get(place).copied() else {
                break;
            };
            let word = lanes::word_of(&self.words, wanted.literal);
            self.machine.note(wanted, word);
        }
        Ok(())
    }

    /// Tries the values of an input only where an answer depends on it; up to 64 cubes of letters at once.
    fn by_splitting(&mut self, state: u32, limits: &mut Limits) -> SearchResult<Answered> {
        let mut found = Vec::new(self.alloc());
        let mut open = vec![in self.alloc(); LetterCube::FREE; 1]?;
        for _ in 0..u64::MAX {
            let rest = open.len().saturating_sub(64);
            let cubes = Vec::from_slice(self.alloc(), &open[rest..])?;
            if cubes.is_empty() {
                break;
            }
            open.truncate(rest);
            limits.spend(self.work().saturating_mul(2))?;
            self.try_cubes(state, &cubes)?;
            for lane in 0..count(cubes.len()) {
                let cube = item(&cubes, lane, LetterCube::FREE);
                match self.split(lane) {
                    Some(input) => {
                        open.push(cube.and(LetterCube::of(input, false)))?;
                        open.push(cube.and(LetterCube::of(input, true)))?;
                    }
                    None => found.push((cube, self.machine.answer(lane)?))?,
                }
            }
        }
        Ok(found)
    }

    /// Computes what is known of the answers to cubes of letters.
    fn try_cubes(&mut self, state: u32, cubes: &[LetterCube]) -> SearchResult<()> {
        let machine = &self.machine;
        rails::put_inputs(&mut self.rails, &machine.signals.inputs, cubes);
        rails::put_latches(
            &mut self.rails,
            &machine.system.latches,
            machine.state(state),
        );
        rails::put_gates(&mut self.rails, &machine.system.gates);
        self.machine.clear()?;
        for place in 0..self.machine.wanted.len() {
            let Some(wanted) = self.machine.wanted.get(place).copied() else {
                break;
            };
            let rail = rails::rail_of(&self.rails, wanted.literal);
            self.machine.note(wanted, rail.on);
        }
        Ok(())
    }

    /// Returns an input on which the answer in a lane depends, or `None` if the answer is known.
    fn split(&self, lane: u32) -> Option<u32> {
        let is_unknown = |literal: u32| rails::is_unknown(&self.rails, literal, lane);
        let variable = self.machine.missing(is_unknown)?;
        let input = self.machine.signals.of(variable);
        if input == NONE { None } else { Some(input) }
    }
}

/// Cuts at inputs, until all next literals of latches are known, and all propositions but those that alone have an input's literal.
impl Cutter for CircuitPieces {
    fn cut(&self, row: &[Option<bool>]) -> Option<u32> {
        let is_unknown = |literal: u32| item(row, literal / 2, None).is_none();
        if let Some(variable) = self.machine.missing(is_unknown) {
            return Some(variable.saturating_mul(2));
        }
        for variable in &self.machine.signals.shared {
            if item(row, *variable, None).is_none() {
                return Some(variable.saturating_mul(2));
            }
        }
        None
    }
}
