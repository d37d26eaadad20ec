//! The sizes of the products on which a verdict rests.

ghost use Rattle.std.specs.Prelude.{◌<◌, ◌≤◌, All};

use crate::completed::completed;
use crate::fault::MeansFault;
use crate::simplified::simple_form;
use pg_hoa_automaton::Automaton;
use pg_ltl::{Formula, NormalForm};
use pg_means_look::ParityAutomaton;
use pg_means_search::{ProductSize, size_of};
use std::alloc::Global;

/// The sizes of both products.
#[derive(Clone, Copy, Debug)]
pub struct ProductSizes {
    /// The size of the product of the automaton and the tableau of the formula's negation.
    pub negation: ProductSize,
    /// The size of the product of the automaton's complement and the tableau of the formula.
    pub formula: ProductSize,
}

/// Returns the size of the product with the tableau of a formula, in which a greatest priority of this parity is searched for.
fn size_with(
    alloc: Global,
    automaton: &ParityAutomaton,
    formula: &NormalForm,
    parity: u32,
) -> Result<ProductSize, MeansFault> {
    Ok(size_of(alloc, automaton, &formula.nodes, formula.root, parity)?)
}

/// Returns the sizes of the products of an automaton and a formula, with the same arguments as `means`. They show how much work the
/// verdict `Same` takes, but nothing is promised of them. Fails with `TooLarge` or `OutOfMemory` as `means` does.
pub fn sizes(
    alloc: Global,
    automaton: &Automaton,
    formula: &Formula,
    propositions: u32,
    places: &[u32],
) -> Result<ProductSizes, MeansFault>
    requires few { propositions ≤ 16 }
    requires places { All (λ place. place < propositions) places.now }
{
    let complete = completed(alloc, automaton, propositions, places)?;
    let no = simple_form(alloc, formula, false)?;
    let negation = size_with(alloc, &complete, &no, 0)?;
    let yes = simple_form(alloc, formula, true)?;
    let formula = size_with(alloc, &complete, &yes, 1)?;
    Ok(ProductSizes { negation, formula })
}
