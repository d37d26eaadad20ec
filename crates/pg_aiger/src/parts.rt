//! Whether parts make a circuit.

ghost use Rattle.std.specs.Prelude.{◌≡◌, ◌+◌, ◌*◌, ◌^◌, ◌<◌, ◌≤◌, All, MatchBool, length};
ghost use Rattle.pg_aiger.specs.Circuits.{AreGatesFrom};
ghost use Rattle.pg_aiger.specs.Mirrors.Views.{IsKept};

use crate::gate::Gate;

/// Whether the gate defines this literal by smaller ones, the greater of them first.
fn is_gate_of(literal: u32, gate: &Gate) -> bool
    ensures { MatchBool result ((gate.now.lhs ≡ literal) × (gate.now.rhs0 < literal) × (gate.now.rhs1 ≤ gate.now.rhs0))
        ((gate.now.lhs ≡ literal) × (gate.now.rhs0 < literal) × (gate.now.rhs1 ≤ gate.now.rhs0) → ⊥) }
{
    gate.lhs == literal && gate.rhs0 < literal && gate.rhs1 <= gate.rhs0
}

/// Whether the gates define the variables from `first` on, each by literals of smaller variables.
fn are_gates(first: u32, gates: &[Gate]) -> bool
    requires { first + length gates.now ≤ 2 ^ 30 }
    ensures { MatchBool result (AreGatesFrom first gates.now) (AreGatesFrom first gates.now → ⊥) }
{
    for (place, gate) in gates.iter().enumerate() {
        if !is_gate_of(2 * (first + place as u32), gate) {
            return false;
        }
    }
    true
}

/// Whether each literal is below the limit.
fn are_below(limit: u32, literals: &[u32]) -> bool
    ensures { MatchBool result (All (λ literal. literal < limit) literals.now) (All (λ literal. literal < limit) literals.now → ⊥) }
{
    for literal in literals {
        if *literal >= limit {
            return false;
        }
    }
    true
}

/// Whether the parts make a circuit: the number of inputs, the next literals of the latches, the literals of the outputs, and the gates.
pub(crate) fn are_parts(inputs: u32, nexts: &[u32], outputs: &[u32], gates: &[Gate]) -> bool
    ensures { MatchBool result (IsKept inputs nexts.now outputs.now gates.now) (IsKept inputs nexts.now outputs.now gates.now → ⊥) }
{
    if inputs > 16 || nexts.len() > 16 || outputs.len() > 16 {
        return false;
    }
    let first = 1 + inputs + nexts.len() as u32;
    if gates.len() > (1 << 30) - first as usize {
        return false;
    }
    let limit = 2 * (first + gates.len() as u32);
    if !are_gates(first, gates) {
        return false;
    }
    if !are_below(limit, nexts) {
        return false;
    }
    are_below(limit, outputs)
}
