//! Outcomes for circuits that play the environment.

ghost use Rattle.std.specs.Prelude.{◌≡◌};
ghost use Rattle.pg_hoa_automaton.specs.Automata.{Automaton, IsAutomaton};
ghost use Rattle.pg_hoa_automaton.specs.Formulas.{Formula};
ghost use Rattle.pg_hoa_automaton.specs.Shapes.{FitsShape};
ghost use Rattle.pg_aiger.specs.Circuits.{Circuit};
ghost use Rattle.pg_aiger_netlist.specs.Netlists.{IsAcyclic};
ghost use Rattle.pg_verify.specs.Verdicts as verdicts;
ghost use Rattle.pg_verify_environment.specs.Counterparts.{IsCounterpart};
ghost use Rattle.pg_verify_environment.specs.Environments.{Says};

use pg_verify::CircuitVerdict;

/// Whether the automaton refuses the circuit's run on every endless word of the controller's letters, and if not, such a word on which it
/// accepts the run.
#[derive(Debug, Drop)]
pub enum EnvironmentVerdict {
    /// The automaton refuses every run.
    Refutes,
    /// The automaton accepts the run on the first of these letters of the controller, followed by the second ones repeated for ever.
    Answered(Vec<u32>, Vec<u32>),
}

/// Returns the outcome for a circuit and an automaton, from the verdict on the circuit and the automaton's counterpart.
pub fn outcome_of(verdict: CircuitVerdict) -> EnvironmentVerdict
    ensures { (a c : Automaton) (condition : Formula) (circuit : Circuit) → IsAutomaton a → IsCounterpart a c → IsAcyclic circuit
        → FitsShape condition a.sets a.shape
        → ((other : Formula) → FitsShape other c.sets c.shape → verdicts.Says c other circuit verdict) → Says a condition circuit result }
{
    match verdict {
        CircuitVerdict::Accepted => EnvironmentVerdict::Refutes,
        CircuitVerdict::Rejected(stem, round) => EnvironmentVerdict::Answered(stem, round),
        // this never happens: a counterpart has a step for each letter
        CircuitVerdict::Stuck(_) => EnvironmentVerdict::Refutes,
    }
}
