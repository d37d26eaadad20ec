//! The choices of a tableau.

ghost use Rattle.std.specs.Prelude.{◌≡◌, ◌++◌, ◌∷◌, [], List, IfOk, OnOk};
ghost use Rattle.std.specs.Bool.{OnTrue};
ghost use Rattle.pg_ltl.specs.NormalForms.{NormalForm};
ghost use Rattle.pg_ltl.specs.Tableaux.{joined, with_each, product, IsLeftOut};
ghost use Rattle.pg_ltl.specs.Tableaux as tableaux;
ghost use Rattle.pg_means_look.specs.Mirrors.Choices.{part, choice_of, choices_in, IsNoMore, AreCovered, Keeps};

use crate::places::{is_within, union};
use std::alloc::{AllocError, Global};

/// What a set of formulas asks of the word after a letter: formulas by their places in a list, in rising order.
#[derive(Debug, Drop)]
pub struct Choice {
    /// The formulas that must hold from the next step on.
    pub asks: Vec<usize>,
    /// The Untils that are put off.
    pub puts: Vec<usize>,
}

/// Returns the choice that asks for nothing.
pub(crate) fn free(alloc: Global) -> Choice
    ensures { (forms : List NormalForm) → choice_of forms result ≡ tableaux.free }
{
    Choice {
        asks: Vec::new(alloc),
        puts: Vec::new(alloc),
    }
}

/// Returns a list of one choice.
pub(crate) fn alone(alloc: Global, choice: Choice) -> Result<Vec<Choice>, AllocError>
    ensures { IfOk result (λ list. list.items ≡ choice ∷ []) }
{
    let mut list = Vec::new(alloc);
    list.push(choice)?;
    Ok(list)
}

fn one_place(alloc: Global, place: usize) -> Result<Vec<usize>, AllocError>
    ensures { IfOk result (λ list. list.items ≡ place ∷ []) }
{
    let mut list = Vec::new(alloc);
    list.push(place)?;
    Ok(list)
}

/// Returns the choice that asks for one formula.
pub(crate) fn asked(alloc: Global, place: usize) -> Result<Choice, AllocError>
    ensures { IfOk result (λ c. (forms : List NormalForm) → choice_of forms c ≡ tableaux.asked (part forms place)) }
{
    let asks = one_place(alloc, place)?;
    Ok(Choice {
        asks,
        puts: Vec::new(alloc),
    })
}

/// Returns the choice that puts off an Until.
pub(crate) fn put_off(alloc: Global, place: usize) -> Result<Choice, AllocError>
    ensures { IfOk result (λ c. (forms : List NormalForm) → choice_of forms c ≡ tableaux.put_off (part forms place)) }
{
    let asks = one_place(alloc, place)?;
    let puts = one_place(alloc, place)?;
    Ok(Choice { asks, puts })
}

/// Whether the first choice asks for no more than the second one and puts off no more.
fn is_no_more(first: &Choice, second: &Choice) -> bool
    ensures { OnTrue result ((forms : List NormalForm) → IsNoMore (choice_of forms first.now) (choice_of forms second.now)) }
{
    is_within(&first.asks, &second.asks) && is_within(&first.puts, &second.puts)
}

/// Returns what both choices ask for together.
fn join(alloc: Global, first: &Choice, second: &Choice) -> Result<Choice, AllocError>
    ensures { IfOk result (λ both. (forms : List NormalForm)
        → IsNoMore (choice_of forms both) (joined (choice_of forms first.now) (choice_of forms second.now))) }
{
    let asks = union(alloc, &first.asks, &second.asks)?;
    let puts = union(alloc, &first.puts, &second.puts)?;
    Ok(Choice { asks, puts })
}

fn copied(alloc: Global, choice: &Choice) -> Result<Choice, AllocError>
    ensures { IfOk result (λ copy. (forms : List NormalForm) → choice_of forms copy ≡ choice_of forms choice.now) }
{
    let asks = Vec::from_slice(alloc, &choice.asks)?;
    let puts = Vec::from_slice(alloc, &choice.puts)?;
    Ok(Choice { asks, puts })
}

/// Whether one of the kept choices asks for no more and puts off no more.
fn is_covered(kept: &[Choice], choice: &Choice) -> bool
    ensures { OnTrue result ((forms : List NormalForm) → IsLeftOut (choice_of forms choice.now) (choices_in forms kept.now)) }
{
    for other in kept {
        if is_no_more(other, choice) {
            return true;
        }
    }
    false
}

/// Keeps the choice, unless one of the kept choices asks for no more and puts off no more.
fn keep(kept: &mut Vec<Choice>, choice: Choice) -> Result<(), AllocError>
    ensures covered { OnOk result ((forms : List NormalForm) → IsLeftOut (choice_of forms choice) (choices_in forms kept.new.items)) }
    ensures keeps { OnOk result ((forms : List NormalForm) → Keeps (choices_in forms kept.old.items) (choices_in forms kept.new.items)) }
{
    if is_covered(kept, &choice) {
        return Ok(());
    }
    kept.push(choice)?;
    Ok(())
}

/// Keeps what the choice and each of the others ask for together.
fn keep_each(
    alloc: Global,
    kept: &mut Vec<Choice>,
    choice: &Choice,
    others: &[Choice],
) -> Result<(), AllocError>
    ensures covered { OnOk result ((forms : List NormalForm)
        → AreCovered (choices_in forms kept.new.items) (with_each (choice_of forms choice.now) (choices_in forms others.now))) }
    ensures keeps { OnOk result ((forms : List NormalForm) → Keeps (choices_in forms kept.old.items) (choices_in forms kept.new.items)) }
{
    for other in others {
        let both = join(alloc, choice, other)?;
        keep(kept, both)?;
    }
    Ok(())
}

/// Returns what each choice of the first list and each of the second ask for together, leaving out those for which a kept choice asks for
/// no more and puts off no more.
pub(crate) fn product_of(
    alloc: Global,
    first: &[Choice],
    second: &[Choice],
) -> Result<Vec<Choice>, AllocError>
    ensures { IfOk result (λ kept. (forms : List NormalForm)
        → AreCovered (choices_in forms kept.items) (product (choices_in forms first.now) (choices_in forms second.now))) }
{
    let mut kept = Vec::new(alloc);
    for choice in first {
        keep_each(alloc, &mut kept, choice, second)?;
    }
    Ok(kept)
}

/// Returns the choices of both lists, leaving out those for which a kept choice asks for no more and puts off no more.
pub(crate) fn all_of(
    alloc: Global,
    first: &[Choice],
    second: &[Choice],
) -> Result<Vec<Choice>, AllocError>
    ensures { IfOk result (λ kept. (forms : List NormalForm)
        → AreCovered (choices_in forms kept.items) (choices_in forms first.now ++ choices_in forms second.now)) }
{
    let mut kept = Vec::new(alloc);
    'firsts: for choice in first {
        keep(&mut kept, copied(alloc, choice)?)?;
    }
    'seconds: for choice in second {
        keep(&mut kept, copied(alloc, choice)?)?;
    }
    Ok(kept)
}
