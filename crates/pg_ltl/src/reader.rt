//! Reads formulas from text.

ghost use Rattle.std.specs.Prelude.{◌≡◌, ◌≤◌, length, map, slice_get, IfOk, IfErr};
ghost use Rattle.std.specs.List.{AllByRecursion, count_by};
ghost use Rattle.pg_hoa_automaton.specs.Automata.{IsPropositionName};
ghost use Rattle.pg_ltl.specs.Formulas.{SpeaksOf};
ghost use Rattle.pg_ltl.specs.Texts.{is_operator, IsRefused, Spelt};
ghost use Rattle.pg_ltl.specs.Mirrors.Views.{written};
ghost use Rattle.pg_ltl.specs.Mirrors.Notes.{fault_or, stop_fault};

use crate::fault::FormulaFault;
use crate::formula::Formula;
use crate::noting::{Stop, Text, text_of};
use crate::reading::{Misplaced, formula_of};
use crate::token::FormulaToken;
use std::alloc::Global;

fn is_operator(token: FormulaToken) -> bool
    ensures { result ≡ is_operator token }
{
    matches!(token, FormulaToken::Before(_) | FormulaToken::Between(_))
}

/// Counts the operators among the tokens.
fn operators(tokens: &[FormulaToken]) -> usize
    ensures { result ≡ count_by is_operator tokens.now }
{
    tokens.iter().filter(|token| is_operator(**token)).count()
}

/// Returns the fault of a text whose words stop at the byte `end` for this reason, if all words before it are in order.
fn stop_fault(stop: Stop, end: usize) -> FormulaFault
    ensures { result ≡ stop_fault stop end }
{
    match stop {
        Stop::Overfull => FormulaFault::TooManyNames,
        Stop::End => FormulaFault::Syntax(end),
        Stop::NoWord => FormulaFault::Syntax(end),
    }
}

/// Returns the fault of a text in which the token at `place`, counted from 0, is out of place, or which must not end after its last
/// token.
fn fault_at(text: &Text, place: usize) -> FormulaFault
    ensures { result ≡ fault_or text.now.stop text.now.end (slice_get text.now.tokens.offsets.items place) }
{
    match text.tokens.offsets.get(place) {
        Some(offset) => FormulaFault::Syntax(*offset),
        None => stop_fault(text.stop, text.end),
    }
}

/// Reads a formula in Spot's syntax, and returns it with the names of its propositions in order of first appearance. The syntax has
/// `! & | -> <-> xor`, `X F G U R W M`, `true`, `false`, brackets, and names, bare or in double quotes. `~`, `&&`, `||`, `=>`, `<=>`,
/// `^`, `[]`, `<>`, `V`, `1` and `0` are alternative spellings. `;` separates formulas that must all hold, and may also follow the last
/// one. A text has at most 65,535 names, and at most 4,096 operators, `;` included.
///
/// The text is read from left to right. `Syntax` gives the offset of the first word that is out of place, or of the first byte where no
/// word begins, or the text's length if more must follow. `TooManyNames` is returned at the 65,536th name, and `TooManyOperators` only
/// at the end of the text. `OutOfMemory` is returned if an allocation fails.
pub fn read_formula(alloc: Global, bytes: &[u8]) -> Result<(Vec<Vec<u8>>, Formula), FormulaFault>
    ensures found { IfOk result (λ x. Spelt bytes.now (map (λ v. v.items) x.0.items) (written x.1)) }
    // The names are valid names of an automaton's propositions, and the formula speaks of these propositions only.
    ensures names { IfOk result (λ x. AllByRecursion IsPropositionName (map (λ v. v.items) x.0.items)) }
    ensures speaks { IfOk result (λ x. SpeaksOf (length x.0.items) (written x.1)) }
    ensures few { IfOk result (λ x. length x.0.items ≤ 65535) }
    ensures refused { IfErr result (IsRefused bytes.now) }
{
    let text = text_of(alloc, bytes)?;
    match formula_of(alloc, &text.tokens.tokens) {
        Err(Misplaced::Memory) => Err(FormulaFault::OutOfMemory),
        Err(Misplaced::At(place)) => Err(fault_at(&text, place)),
        Ok(formula) => match text.stop {
            Stop::End => {
                if operators(&text.tokens.tokens) > 4096 {
                    Err(FormulaFault::TooManyOperators)
                } else {
                    Ok((text.tokens.names, formula))
                }
            }
            Stop::NoWord => Err(FormulaFault::Syntax(text.end)),
            Stop::Overfull => Err(FormulaFault::TooManyNames),
        },
    }
}
