//! From a formula to the text of an automaton.

use crate::automaton::MarkedAutomaton;
use crate::fault::{Attempt, TranslateFault};
use crate::minimising::minimised;
use crate::numbers::count;
use crate::pool::FormulaPool;
use crate::skeleton::Skeleton;
use crate::writing::text_of;
use pg_ltl::{Formula, normal_form};
use std::alloc::Global;

/// The most states that a text may have; `MOST_PLACES` is the most states times letters.
const MOST_STATES: u32 = 65_535;

const MOST_PLACES: u64 = 1 << 24;

/// Proposes the text of a deterministic parity automaton (HOA v1) that is meant to accept exactly the words that satisfy the formula.
/// `names` has the name of each proposition, in the order of the formula's numbers; there are at most 16. Nothing is proved about the text.
/// Returns a `TranslateFault`, which lists the limits, if one of them is exceeded or memory runs out.
///
/// 1. The formula is a combination of temporal formulas. Those that are safety or co-safety are progressed together, and each other one
///    becomes an automaton of its own, a leaf: by breakpoints, or by Safra's trees.
/// 2. In each component of the product, a Zielonka tree makes the leaves' priorities one priority.
/// 3. The result is made smaller.
pub fn propose(
    alloc: Global,
    formula: &Formula,
    names: &[Vec<u8>],
) -> Result<Vec<u8>, TranslateFault> {
    if names.len() > 16 {
        return Err(TranslateFault::TooManyStates);
    }
    let (pool, root) = pool_of(alloc, formula)?;
    let mut skeleton = Skeleton::new(pool, count(names.len()))?;
    let automaton = automaton_of(&mut skeleton, root)?;
    least_text_of(&automaton, names)
}

/// Returns a formula as the number that a pool has for it.
fn pool_of(alloc: Global, formula: &Formula) -> Attempt<(FormulaPool, u32)> {
    let normal = normal_form(alloc, formula, true)?;
    let mut pool = FormulaPool::new(alloc)?;
    let root = pool.read(&normal.nodes, normal.root)?;
    Ok((pool, root))
}

/// Returns the parity automaton of a formula.
fn automaton_of(skeleton: &mut Skeleton, root: u32) -> Attempt<MarkedAutomaton> {
    let asked = skeleton.diagram(root)?;
    skeleton.colour()?;
    let product = skeleton.product(asked)?;
    skeleton.parity(&product)
}

/// Makes an automaton smaller, and returns its text.
fn least_text_of(automaton: &MarkedAutomaton, names: &[Vec<u8>]) -> Attempt<Vec<u8>> {
    let automaton = minimised(automaton)?;
    let places = (automaton.len() as u64).saturating_mul(automaton.classes.letters() as u64);
    if automaton.len() > MOST_STATES || places > MOST_PLACES {
        return Err(TranslateFault::TooManyStates);
    }
    text_of(&automaton, names)
}
