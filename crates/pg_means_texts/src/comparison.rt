//! From two texts to a verdict.

ghost use Rattle.std.specs.Prelude.{map, IsTrue, IfOk, IfErr};
ghost use Rattle.pg_means_texts.specs.Comparing.{IsCompared, Refuses};
ghost use Rattle.pg_means_texts.specs.Printing.{comes_round};

use crate::fault::CompareFault;
use crate::names::{all_names, places_of};
use pg_hoa::read_automaton;
use pg_ltl::read_formula;
use pg_means::{FormulaVerdict, means};
use std::alloc::Global;

/// The most propositions that an automaton and a formula may have together.
pub(crate) const MOST_PROPOSITIONS: usize = 16;

/// The verdict on an automaton and a formula, and the names of all their propositions. Bit j of a letter of the verdict says whether the
/// proposition `names[j]` holds.
#[derive(Debug, Drop)]
pub struct Compared {
    pub names: Vec<Vec<u8>>,
    pub verdict: FormulaVerdict,
    ghost round: { IsTrue (comes_round verdict) },
}

/// Decides whether the automaton that the first text spells accepts exactly the words that satisfy the formula that the second text
/// spells. Propositions with the same name are the same.
///
/// Returns the first of these faults: `Hoa`, `Formula`, `TooManyPropositions`, `Means`. Memory can run out at any point.
pub fn compare(alloc: Global, first: &[u8], second: &[u8]) -> Result<Compared, CompareFault>
    ensures compared { IfOk result (λ x. IsCompared first.now second.now (map (λ v. v.items) x.names.items) x.verdict) }
    ensures refused { IfErr result (Refuses first.now second.now) }
{
    let automaton = read_automaton(alloc, first)?;
    let (own, formula) = read_formula(alloc, second)?;
    let names = all_names(alloc, &automaton, &own)?;
    if names.len() > MOST_PROPOSITIONS {
        return Err(CompareFault::TooManyPropositions);
    }
    let places = places_of(alloc, &names, &own)?;
    let verdict = means(alloc, &automaton, &formula, names.len() as u32, &places)?;
    Ok(Compared { names, verdict })
}
