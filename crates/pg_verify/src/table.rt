//! The table of the product's steps while it is being made.

ghost use Rattle.std.specs.Prelude.{◌≡◌, ◌+◌, ◌<◌, ◌≤◌, ◌++◌, ◌∷◌, [], true, IfOk, OnOk, IfSome, map, length, slice_get};
ghost use Rattle.pg_hoa_automaton.specs.Automata.{step};
ghost use Rattle.pg_hoa_automaton.specs.Mirrors.Tables.{numbered};
ghost use Rattle.pg_verify.specs.Mirrors.Products.{Extends};

use pg_hoa_automaton::Stored;
use std::alloc::{AllocError, Global};
use std::collections::BTreeMap;

/// Whether the lists are the same. Only a yes is promised to be right.
fn is_same_list(a: &[u32], b: &[u32]) -> bool
    ensures { result ≡ true → a.now ≡ b.now }
{
    a == b
}

/// Returns the place of the list, if it is known.
fn known_place(lists: &[Vec<u32>], known: &BTreeMap<Vec<u32>, u32>, sets: &[u32]) -> Option<u32>
    ensures { IfSome result (λ place. slice_get (map (λ v. v.items) lists.now) place ≡ Some sets.now) }
{
    let place = *known.get(sets)?;
    let list = lists.get(place as usize)?;
    is_same_list(list.as_slice(), sets).then_some(place)
}

/// Returns the place of the list. It appends the list to the others if it isn't known. The known places are checked, not trusted.
fn put_list(
    alloc: Global,
    lists: &mut Vec<Vec<u32>>,
    known: &mut BTreeMap<Vec<u32>, u32>,
    sets: &[u32],
) -> Result<u32, AllocError>
    requires { length lists.old.items < 4294967295 }
    ensures there { IfOk result (λ place. slice_get (map (λ v. v.items) lists.new.items) place ≡ Some sets.now) }
    ensures more { OnOk result (Extends (map (λ v. v.items) lists.old.items) (map (λ v. v.items) lists.new.items)) }
    ensures few { OnOk result (length lists.new.items ≤ length lists.old.items + 1) }
{
    if let Some(place) = known_place(lists, known, sets) {
        return Ok(place);
    }
    let place = lists.len();
    lists.push(Vec::from_slice(alloc, sets)?)?;
    known.insert(Vec::from_slice(alloc, sets)?, place as u32)?;
    Ok(place as u32)
}

/// Appends a step, and returns its number, counted from 1. It keeps one of equal lists of sets; `known` has the places of lists, and is
/// empty at first. Before the call there must be fewer than 4,294,967,295 steps, and fewer than 4,294,967,295 lists. It fails only if
/// memory runs out.
pub fn store(
    alloc: Global,
    steps: &mut Vec<Stored>,
    lists: &mut Vec<Vec<u32>>,
    known: &mut BTreeMap<Vec<u32>, u32>,
    target: u32,
    sets: &[u32],
) -> Result<u32, AllocError>
    requires few_steps { length steps.old.items < 4294967295 }
    requires few_lists { length lists.old.items < 4294967295 }
    ensures there { IfOk result (λ number. numbered steps.new.items (map (λ v. v.items) lists.new.items) number
        ≡ Some (step target sets.now)) }
    ensures steps { OnOk result (Extends steps.old.items steps.new.items) }
    ensures lists { OnOk result (Extends (map (λ v. v.items) lists.old.items) (map (λ v. v.items) lists.new.items)) }
    ensures one_step { OnOk result (length steps.new.items ≡ length steps.old.items + 1) }
    ensures one_list { OnOk result (length lists.new.items ≤ length lists.old.items + 1) }
{
    let list = put_list(alloc, lists, known, sets)?;
    let number = steps.len() + 1;
    steps.push(Stored { target, list })?;
    Ok(number as u32)
}
