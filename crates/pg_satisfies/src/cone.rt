//! Cones: the parts of a circuit on which the values of some literals depend.

ghost use Rattle.std.specs.Prelude.{◌≡◌, List, All, Contains, IfOk};

use pg_aiger::{Gate, Latch};
use pg_aiger_netlist::Netlist;
use pg_satisfies_check::CircuitPart;
use std::alloc::{AllocError, Global};

/// What defines a variable.
#[derive(Clone, Copy)]
enum Definition {
    /// Nothing inside the circuit: it is an input or the constant.
    Given,
    /// The gate at this place.
    Gate(usize),
    /// The latch at this place.
    Latch(usize),
}

/// What defines each variable of a circuit.
#[derive(Drop)]
pub(crate) struct Definitions {
    of: Vec<Definition>,
}

/// Notes what defines the variable of a literal.
fn define(of: &mut [Definition], literal: u32, definition: Definition) {
    if let Some(place) = of.get_mut((literal / 2) as usize) {
        *place = definition;
    }
}

/// Marks the variable of a literal, and puts it on the stack if it is new.
fn mark(marks: &mut [bool], stack: &mut Vec<u32>, literal: u32) -> Result<(), AllocError> {
    let variable = literal / 2;
    match marks.get_mut(variable as usize) {
        Some(is_marked) if !*is_marked => {
            *is_marked = true;
            stack.push(variable)?;
            Ok(())
        }
        _ => Ok(()),
    }
}

/// Whether the variable of a literal is marked.
pub(crate) fn is_marked(marks: &[bool], literal: u32) -> bool {
    marks.get((literal / 2) as usize).copied().unwrap_or(false)
}

impl Definitions {
    /// Returns what defines each variable of a circuit.
    pub(crate) fn of(alloc: Global, netlist: &Netlist) -> Result<Definitions, AllocError> {
        let variables = (netlist.greatest() as usize).saturating_add(1);
        let mut of = vec![in alloc; Definition::Given; variables]?;
        for (place, gate) in netlist.ordered_gates().iter().enumerate() {
            define(&mut of, gate.lhs, Definition::Gate(place));
        }
        for (place, latch) in netlist.latch_lines().iter().enumerate() {
            define(&mut of, latch.literal, Definition::Latch(place));
        }
        Ok(Definitions { of })
    }

    /// Returns the number of variables.
    pub(crate) fn variables(&self) -> usize {
        self.of.len()
    }

    /// Marks the variables that define this one.
    fn mark_below(
        &self,
        netlist: &Netlist,
        variable: u32,
        marks: &mut [bool],
        stack: &mut Vec<u32>,
    ) -> Result<(), AllocError> {
        let definition = self.of.get(variable as usize).copied();
        match definition.unwrap_or(Definition::Given) {
            Definition::Given => Ok(()),
            Definition::Gate(place) => match netlist.ordered_gates().get(place) {
                Some(gate) => {
                    mark(marks, stack, gate.rhs0)?;
                    mark(marks, stack, gate.rhs1)
                }
                None => Ok(()),
            },
            Definition::Latch(place) => match netlist.latch_lines().get(place) {
                Some(latch) => mark(marks, stack, latch.next),
                None => Ok(()),
            },
        }
    }

    /// Marks the variables on which these literals depend.
    pub(crate) fn cone(
        &self,
        alloc: Global,
        netlist: &Netlist,
        literals: &[u32],
    ) -> Result<Vec<bool>, AllocError> {
        let mut marks = vec![in alloc; false; self.of.len()]?;
        let mut stack = Vec::new(alloc);
        for literal in literals {
            mark(&mut marks, &mut stack, *literal)?;
        }
        for _variable in 0..self.of.len() {
            let Some(variable) = stack.pop() else {
                return Ok(marks);
            };
            self.mark_below(netlist, variable, &mut marks, &mut stack)?;
        }
        Ok(marks)
    }
}

/// Returns the items, with this one appended if it is `wanted`.
fn kept<T: Copy>(mut found: Vec<T>, item: T, wanted: bool) -> Result<Vec<T>, AllocError>
    ensures { IfOk result (λ new. (all : List T) → Contains all item → All (Contains all) found.items → All (Contains all) new.items) }
{
    if !wanted {
        return Ok(found);
    }
    found.push(item)?;
    Ok(found)
}

/// Returns the gates whose variables are marked.
fn marked_gates(alloc: Global, gates: &[Gate], marks: &[bool]) -> Result<Vec<Gate>, AllocError>
    ensures { IfOk result (λ found. All (Contains gates.now) found.items) }
{
    let mut found = Vec::new(alloc);
    for gate in gates {
        found = kept(found, *gate, is_marked(marks, gate.lhs))?;
    }
    Ok(found)
}

/// Returns the latches whose variables are marked.
fn marked_latches(
    alloc: Global,
    latches: &[Latch],
    marks: &[bool],
) -> Result<Vec<Latch>, AllocError>
    ensures { IfOk result (λ found. All (Contains latches.now) found.items) }
{
    let mut found = Vec::new(alloc);
    for latch in latches {
        found = kept(found, *latch, is_marked(marks, latch.literal))?;
    }
    Ok(found)
}

/// Returns the part of a circuit whose variables are marked.
pub(crate) fn part_of(
    alloc: Global,
    netlist: &Netlist,
    literals: &[u32],
    marks: &[bool],
) -> Result<CircuitPart, AllocError>
    ensures gates { IfOk result (λ system. All (Contains netlist.now.gates) system.gates.items) }
    ensures latches { IfOk result (λ system. All (Contains netlist.now.latches) system.latches.items) }
    ensures literals { IfOk result (λ system. system.literals.items ≡ literals.now) }
{
    Ok(CircuitPart {
        gates: marked_gates(alloc, netlist.ordered_gates(), marks)?,
        latches: marked_latches(alloc, netlist.latch_lines(), marks)?,
        literals: Vec::from_slice(alloc, literals)?,
    })
}

/// Returns the inputs whose variables are marked.
pub(crate) fn marked_inputs(
    alloc: Global,
    inputs: &[u32],
    marks: &[bool],
) -> Result<Vec<u32>, AllocError> {
    let mut found = Vec::new(alloc);
    for input in inputs {
        found = kept(found, *input, is_marked(marks, *input))?;
    }
    Ok(found)
}

/// Returns a letter of all inputs that gives the marked ones these values, and the others 0.
fn whole_letter(
    alloc: Global,
    inputs: &[u32],
    marks: &[bool],
    letter: &[bool],
) -> Result<Vec<bool>, AllocError> {
    let mut whole = Vec::new(alloc);
    let mut values = letter.iter();
    for input in inputs {
        let value = is_marked(marks, *input) && values.next().copied().unwrap_or(false);
        whole.push(value)?;
    }
    Ok(whole)
}

/// Returns the letters of all inputs that give the marked ones these values, and the others 0.
pub(crate) fn whole_letters(
    alloc: Global,
    inputs: &[u32],
    marks: &[bool],
    letters: &[Vec<bool>],
) -> Result<Vec<Vec<bool>>, AllocError> {
    let mut whole = Vec::new(alloc);
    for letter in letters {
        whole.push(whole_letter(alloc, inputs, marks, letter)?)?;
    }
    Ok(whole)
}
