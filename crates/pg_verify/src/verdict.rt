//! The verdict on a circuit.

ghost use Rattle.std.specs.Prelude.{◌≡◌, ℕ, length, IfOk};
ghost use Rattle.pg_hoa_automaton.specs.Automata.{Automaton};
ghost use Rattle.pg_hoa_automaton.specs.Formulas.{Formula};
ghost use Rattle.pg_hoa_automaton.specs.Shapes.{FitsShape};
ghost use Rattle.pg_aiger.specs.Circuits.{Circuit};
ghost use Rattle.pg_aiger_netlist.specs.Netlists.{IsAcyclic};
ghost use Rattle.pg_check.specs.Soundness.{IsSound};
ghost use Rattle.pg_text.specs.Solutions.{IsSolution};
ghost use Rattle.pg_synth.specs.Answers.{IsSynthGame};
ghost use Rattle.pg_synth.specs.Letters.{inputs};
ghost use Rattle.pg_verify.specs.Products.{IsProductOf};
ghost use Rattle.pg_verify.specs.Verdicts.{Says};

use crate::walk::refutation;
use pg_arena::Player;
use pg_hoa_automaton::Automaton;
use pg_synth::SynthGame;
use pg_text::Solution;
use std::alloc::{AllocError, Global};

/// Whether the automaton accepts the circuit's run for every endless input word, and if it doesn't, an input word as
/// evidence.
#[derive(Debug, Drop)]
pub enum CircuitVerdict {
    /// The automaton accepts every run.
    Accepted,
    /// The automaton has no edge for the letter that the circuit makes of the last of these input letters.
    Stuck(Vec<u32>),
    /// The automaton rejects the run on the first input letters followed by the second ones repeated for ever.
    Rejected(Vec<u32>, Vec<u32>),
}

/// Returns the verdict on a circuit, from a sound solution of the game of its product with an automaton. It fails only
/// if memory runs out.
pub fn verdict_of(
    alloc: Global,
    product: &Automaton,
    synth: &SynthGame,
    solution: &Solution,
) -> Result<CircuitVerdict, AllocError>
    requires game { IsSynthGame product.now synth.now.game synth.now.initial }
    requires solution { IsSolution synth.now.game solution.now }
    requires sound { IsSound synth.now.game solution.now }
    requires product { (a : Automaton) × (circuit : Circuit) × IsProductOf a circuit product.now }
    ensures { IfOk result (λ verdict. (a : Automaton) (condition : Formula) (circuit : Circuit) → IsAcyclic circuit
        → length circuit.inputs ≡ inputs a.controllable → FitsShape condition a.sets a.shape → IsProductOf a circuit product.now
        → Says a condition circuit verdict) }
{
    // called only for what its contract says about the automaton
    let _states = product.states();
    match solution.winner(synth.initial) {
        Player::Even => Ok(CircuitVerdict::Accepted),
        Player::Odd => refutation(alloc, product, synth, solution),
    }
}
