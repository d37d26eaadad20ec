//! Cones: the parts of a system on which the values of some literals depend.

use crate::numbers::{NONE, count, item, put};
use pg_aiger::{Gate, Latch};
use pg_satisfies_check::CircuitPart;
use std::alloc::{AllocError, Global};

/// A part of a system, and where its latches are among the system's.
#[derive(Drop)]
pub struct SystemCone {
    pub part: CircuitPart,
    /// The place of each latch of the part.
    pub places: Vec<u32>,
    /// The number of the system's latches.
    pub latches: u32,
}

/// Variables that are reached, and those of them that still have to be looked at.
#[derive(Drop)]
struct ReachedVariables {
    marks: Vec<bool>,
    open: Vec<u32>,
}

impl ReachedVariables {
    /// Reaches the variable of a literal.
    fn add(&mut self, literal: u32) -> Result<(), AllocError> {
        let variable = literal / 2;
        if !item(&self.marks, variable, true) {
            put(&mut self.marks, variable, true);
            self.open.push(variable)?;
        }
        Ok(())
    }
}

/// Returns one more than the greatest variable of a system and of these literals.
pub fn variables(system: &CircuitPart, literals: &[u32]) -> usize {
    let mut greatest = 0;
    for gate in &system.gates {
        greatest = greatest.max(gate.lhs).max(gate.rhs0).max(gate.rhs1);
    }
    for latch in &system.latches {
        greatest = greatest.max(latch.literal).max(latch.next);
    }
    for literal in literals {
        greatest = greatest.max(*literal);
    }
    (greatest / 2).saturating_add(1) as usize
}

/// Marks the variables on which the values of these literals depend.
fn marked(alloc: Global, system: &CircuitPart, literals: &[u32]) -> Result<Vec<bool>, AllocError> {
    let variables = variables(system, literals);
    let mut gates = vec![in alloc; NONE; variables]?;
    let mut latches = vec![in alloc; NONE; variables]?;
    for (place, gate) in system.gates.iter().enumerate() {
        put(&mut gates, gate.lhs / 2, count(place));
    }
    for (place, latch) in system.latches.iter().enumerate() {
        put(&mut latches, latch.literal / 2, count(place));
    }
    let mut reached = ReachedVariables {
        marks: vec![in alloc; false; variables]?,
        open: Vec::new(alloc),
    };
    for literal in literals {
        reached.add(*literal)?;
    }
    for _ in 0..variables {
        let Some(variable) = reached.open.pop() else {
            break;
        };
        if let Some(gate) = system.gates.get(item(&gates, variable, NONE) as usize) {
            reached.add(gate.rhs0)?;
            reached.add(gate.rhs1)?;
        }
        if let Some(latch) = system.latches.get(item(&latches, variable, NONE) as usize) {
            reached.add(latch.next)?;
        }
    }
    Ok(reached.marks)
}

/// Returns the gates whose variables are marked.
fn marked_gates(alloc: Global, gates: &[Gate], marks: &[bool]) -> Result<Vec<Gate>, AllocError> {
    let mut found = Vec::new(alloc);
    for gate in gates {
        if item(marks, gate.lhs / 2, false) {
            found.push(*gate)?;
        }
    }
    Ok(found)
}

/// Returns the places of the latches whose variables are marked.
fn marked_latches(
    alloc: Global,
    latches: &[Latch],
    marks: &[bool],
) -> Result<Vec<u32>, AllocError> {
    let mut found = Vec::new(alloc);
    for (place, latch) in latches.iter().enumerate() {
        if item(marks, latch.literal / 2, false) {
            found.push(count(place))?;
        }
    }
    Ok(found)
}

/// Returns the part of a system on which the values of these literals depend. It has all propositions.
pub fn cone_of(
    alloc: Global,
    system: &CircuitPart,
    literals: &[u32],
) -> Result<SystemCone, AllocError> {
    let marks = marked(alloc, system, literals)?;
    let places = marked_latches(alloc, &system.latches, &marks)?;
    let mut latches = Vec::with_capacity(alloc, places.len())?;
    for place in &places {
        if let Some(latch) = system.latches.get(*place as usize) {
            latches.push(*latch)?;
        }
    }
    let part = CircuitPart {
        gates: marked_gates(alloc, &system.gates, &marks)?,
        latches,
        literals: Vec::from_slice(alloc, &system.literals)?,
    };
    Ok(SystemCone {
        part,
        places,
        latches: count(system.latches.len()),
    })
}
