//! The sizes of the products on which a verdict on two texts rests.

use crate::comparison::MOST_PROPOSITIONS;
use crate::fault::CompareFault;
use crate::names::{all_names, places_of};
use pg_hoa::read_automaton;
use pg_ltl::read_formula;
use pg_means::{ProductSizes, sizes};
use std::alloc::Global;

/// Returns the sizes of the products of the automaton that the first text spells and the formula that the second text spells. Its faults
/// are those of `compare`.
pub fn product_sizes(
    alloc: Global,
    first: &[u8],
    second: &[u8],
) -> Result<ProductSizes, CompareFault> {
    let automaton = read_automaton(alloc, first)?;
    let (own, formula) = read_formula(alloc, second)?;
    let names = all_names(alloc, &automaton, &own)?;
    if names.len() > MOST_PROPOSITIONS {
        return Err(CompareFault::TooManyPropositions);
    }
    let places = places_of(alloc, &names, &own)?;
    Ok(sizes(alloc, &automaton, &formula, names.len() as u32, &places)?)
}
