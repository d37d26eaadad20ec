//! The variables of a circuit whose values matter.

use crate::bits::{Bits, LetterCube};
use crate::numbers::{NONE, count, item, put};
use pg_satisfies_check::CircuitPart;
use std::alloc::{AllocError, Global};

/// Numbers for the inputs on which something depends, and then for the other variables of which a formula speaks.
#[derive(Drop)]
pub struct Signals {
    /// The number of each variable, or `NONE`.
    numbers: Vec<u32>,
    /// The variables of the inputs, by their numbers.
    pub inputs: Vec<u32>,
    /// The other variables, in the order of their numbers.
    pub outputs: Vec<u32>,
    /// The signals of which the formula speaks.
    pub spoken: Bits,
    /// The inputs of which the formula speaks by more than one proposition.
    pub shared: Vec<u32>,
}

/// Returns the literals that others depend on: those of gates, the latches' next ones, and those of which the formula speaks.
fn uses(alloc: Global, system: &CircuitPart, spoken: &[u32]) -> Result<Vec<u32>, AllocError> {
    let mut uses = Vec::from_slice(alloc, spoken)?;
    for gate in &system.gates {
        uses.push(gate.rhs0)?;
        uses.push(gate.rhs1)?;
    }
    for latch in &system.latches {
        uses.push(latch.next)?;
    }
    Ok(uses)
}

/// Returns one more than the greatest variable.
fn variables(system: &CircuitPart, uses: &[u32]) -> u32 {
    let mut greatest = 0;
    for literal in uses {
        greatest = greatest.max(*literal);
    }
    for gate in &system.gates {
        greatest = greatest.max(gate.lhs);
    }
    for latch in &system.latches {
        greatest = greatest.max(latch.literal);
    }
    greatest / 2 + 1
}

impl Signals {
    /// Numbers the signals of a system. The formulas speak of the literals `spoken`.
    pub fn new(
        alloc: Global,
        system: &CircuitPart,
        inputs: &[u32],
        spoken: &[u32],
    ) -> Result<Signals, AllocError> {
        let uses = uses(alloc, system, spoken)?;
        let variables = variables(system, &uses);
        let mut is_used = vec![in alloc; false; variables as usize]?;
        for literal in &uses {
            put(&mut is_used, *literal / 2, true);
        }
        let mut signals = Signals {
            numbers: vec![in alloc; NONE; variables as usize]?,
            inputs: Vec::new(alloc),
            outputs: Vec::new(alloc),
            spoken: Bits::EMPTY,
            shared: Vec::new(alloc),
        };
        for literal in inputs {
            let variable = *literal / 2;
            if item(&is_used, variable, false) && signals.of(variable) == NONE {
                let number = signals.len();
                put(&mut signals.numbers, variable, number);
                signals.inputs.push(variable)?;
            }
        }
        signals.speak_of(spoken)?;
        Ok(signals)
    }

    /// Numbers the variables of which the formula speaks and which aren't inputs.
    fn speak_of(&mut self, spoken: &[u32]) -> Result<(), AllocError> {
        for literal in spoken {
            let variable = *literal / 2;
            if self.of(variable) == NONE {
                let number = self.len();
                put(&mut self.numbers, variable, number);
                self.outputs.push(variable)?;
            } else if self.spoken.has(self.of(variable)) {
                self.shared.push(variable)?;
            }
            self.spoken = self.spoken.or(Bits::one(self.of(variable)));
        }
        Ok(())
    }

    /// Returns the number of signals.
    pub fn len(&self) -> u32 {
        count(self.inputs.len()).saturating_add(count(self.outputs.len()))
    }

    /// Returns the number of variables.
    pub fn variables(&self) -> usize {
        self.numbers.len()
    }

    /// Returns the number of a variable's signal, or `NONE`.
    pub fn of(&self, variable: u32) -> u32 {
        item(&self.numbers, variable, NONE)
    }

    /// Returns that a literal has this value.
    pub fn cube(&self, literal: u32, value: bool) -> LetterCube {
        LetterCube::of(self.of(literal / 2), value != (literal % 2 == 1))
    }
}
