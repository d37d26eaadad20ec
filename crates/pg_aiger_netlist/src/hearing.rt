//! Outputs that depend on the latches alone.

ghost use Rattle.std.specs.Prelude.{◌≡◌, ℕ, ◌/◌, ◌<◌, ◌++◌, ◌||◌, true, false, All, length, map, slice_index_or, IfOk, IfSome, IsNone};
ghost use Rattle.pg_aiger.specs.Circuits.{Circuit, output_at};
ghost use Rattle.pg_aiger_netlist.specs.Netlists.{IsAcyclic, known_by, sources, variable};
ghost use Rattle.pg_aiger_netlist.specs.Hearing.{Hears, IsMoore};
ghost use Rattle.pg_aiger_netlist.specs.Mirrors.Hearing.{AreHeard, AreInputs};
ghost use Rattle.pg_aiger_netlist.specs.Mirrors.Marks.{marked, variable_of, IsWithin};
ghost use Rattle.pg_aiger_netlist.specs.Mirrors.Views.{IsOrder};

use crate::netlist::Netlist;
use pg_aiger::Gate;
use std::alloc::{AllocError, Global};

/// Marks the variables of inputs.
fn mark_inputs(row: &mut [bool], inputs: &[u32])
    requires within { All (λ literal. literal / 2 < length row.old) inputs.now }
    requires none { (x : ℕ) → marked row.old x ≡ false }
    ensures size { length row.new ≡ length row.old }
    ensures inputs { AreInputs inputs.now row.new }
{
    for literal in inputs {
        row[(*literal / 2) as usize] = true;
    }
}

/// Whether a gate uses a marked variable.
fn uses_marked(row: &[bool], gate: &Gate) -> bool
    requires { IsWithin (length row.now) gate.now }
    ensures { result ≡ (marked row.now (variable gate.now.rhs0) || marked row.now (variable gate.now.rhs1)) }
{
    row[(gate.rhs0 / 2) as usize] || row[(gate.rhs1 / 2) as usize]
}

/// Marks the variables of the gates that use a marked variable.
fn mark_gates(row: &mut [bool], ordered: &[Gate])
    requires { All (IsWithin (length row.old)) ordered.now }
    ensures size { length row.new ≡ length row.old }
    ensures heard { (circuit : Circuit) → IsAcyclic circuit → IsOrder circuit ordered.now → AreHeard circuit (known_by (sources circuit)) row.old
        → AreHeard circuit (known_by (sources circuit) ++ map variable_of ordered.now) row.new }
{
    for gate in ordered {
        row[(gate.lhs / 2) as usize] = uses_marked(row, gate);
    }
}

/// Returns the place of the first literal whose variable is marked.
fn first_marked(row: &[bool], literals: &[u32]) -> Option<usize>
    requires { All (λ literal. literal / 2 < length row.now) literals.now }
    ensures some { IfSome result (λ k. (k < length literals.now) × (marked row.now (variable (slice_index_or literals.now k 0)) ≡ true)) }
    ensures none { IsNone result → (k : ℕ) → k < length literals.now → marked row.now (variable (slice_index_or literals.now k 0)) ≡ false }
{
    for (place, literal) in literals.iter().enumerate() {
        if row[(*literal / 2) as usize] {
            return Some(place);
        }
    }
    None
}

impl Netlist {
    /// Returns the place of an output that hears an input: the output is an input, or gates lead to it from one. If there is none, the
    /// outputs depend on the latches alone, as the outputs of a Moore machine do. It fails only if memory runs out.
    pub fn hearing_output(&self, alloc: Global) -> Result<Option<usize>, AllocError>
        ensures some { IfOk result (λ o. IfSome o (λ k. (k < length self.now.outputs) × Hears self.now (variable (output_at self.now k)))) }
        ensures none { IfOk result (λ o. IsNone o → IsMoore self.now) }
    {
        let mut marks = vec![in alloc; false; self.greatest as usize + 1]?;
        let row = marks.as_mut_slice();
        mark_inputs(row, &self.inputs);
        mark_gates(row, &self.ordered);
        Ok(first_marked(row, &self.outputs))
    }
}
