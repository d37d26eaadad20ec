//! The names of the propositions of an automaton and a formula together.

ghost use Rattle.std.specs.Prelude.{◌≡◌, ◌≤◌, ◌<◌, length, map, IfOk};
ghost use Rattle.pg_ltl.specs.Texts.{number_of, with_name};
ghost use Rattle.pg_means_texts.specs.Names.{all_names, places_of};

use pg_hoa_automaton::Automaton;
use std::alloc::{AllocError, Global};

/// Returns the number of a name: its position among the known names, or their count if it isn't one of them.
fn number_of(names: &[Vec<u8>], name: &[u8]) -> usize
    ensures value { result ≡ number_of name.now (map (λ v. v.items) names.now) }
    ensures within { result ≤ length names.now }
{
    for (place, known) in names.iter().enumerate() {
        if known.as_slice() == name {
            return place;
        }
    }
    names.len()
}

/// Returns the names of an automaton's propositions.
fn names_of(alloc: Global, automaton: &Automaton) -> Result<Vec<Vec<u8>>, AllocError>
    ensures { IfOk result (λ names. map (λ v. v.items) names.items ≡ automaton.now.propositions) }
{
    let mut names = Vec::new(alloc);
    for a in 0..automaton.propositions() {
        names.push(Vec::from_slice(alloc, automaton.proposition(a))?)?;
    }
    Ok(names)
}

/// Returns the names, with this one appended if it is new.
fn with_name(
    alloc: Global,
    mut names: Vec<Vec<u8>>,
    name: &[u8],
) -> Result<Vec<Vec<u8>>, AllocError>
    ensures { IfOk result (λ v. map (λ v. v.items) v.items ≡ with_name name.now (map (λ v. v.items) names.items)) }
{
    if number_of(&names, name) < names.len() {
        return Ok(names);
    }
    names.push(Vec::from_slice(alloc, name)?)?;
    Ok(names)
}

/// Returns the names of an automaton's propositions, followed by those of a formula's propositions that the automaton lacks.
pub(crate) fn all_names(
    alloc: Global,
    automaton: &Automaton,
    own: &[Vec<u8>],
) -> Result<Vec<Vec<u8>>, AllocError>
    ensures { IfOk result (λ names. map (λ v. v.items) names.items
        ≡ all_names automaton.now.propositions (map (λ v. v.items) own.now)) }
{
    let mut names = names_of(alloc, automaton)?;
    for name in own {
        names = with_name(alloc, names, name)?;
    }
    Ok(names)
}

/// Returns for each of the formula's names its place among all names.
pub(crate) fn places_of(
    alloc: Global,
    names: &[Vec<u8>],
    own: &[Vec<u8>],
) -> Result<Vec<u32>, AllocError>
    requires { length names.now ≤ 16 }
    ensures { IfOk result (λ places. places.items ≡ places_of (map (λ v. v.items) names.now) (map (λ v. v.items) own.now)) }
{
    let mut places = Vec::new(alloc);
    for name in own {
        places.push(number_of(names, name) as u32)?;
    }
    Ok(places)
}
