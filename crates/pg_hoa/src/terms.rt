//! Labels with their literals combined: a product of literals becomes one term, which is evaluated once.

ghost use Rattle.std.specs.Prelude.{◌≡◌, ℕ, ◌<◌, ◌++◌, Bool, ◌&&◌, ◌||◌, true, false, List, [], ◌∷◌, if◌then◌else◌, IfSome, OnOk, IfNone};
ghost use Rattle.pg_hoa.specs.declared.terms.Instruction.TheVariants.{Put};
ghost use Rattle.pg_hoa.specs.Mirrors.Saying.{top, under, perform};
ghost use Rattle.pg_hoa.specs.Mirrors.Letters.{truth, on_at};
ghost use Rattle.pg_hoa.specs.Mirrors.Instructions.{fits, executed, Tells};

use crate::letters::mask;
use pg_hoa_syntax::Op;
use std::alloc::AllocError;

/// The letters at the bits of `word`, in the blocks whose number, masked by `care`, is `value`.
#[derive(Clone, Copy)]
pub struct Term {
    pub word: u64,
    pub care: u16,
    pub value: u16,
}

/// The effect of a part of a label on a stack of truths.
#[derive(Clone, Copy)]
pub enum Instruction {
    /// Pushes whether the letter fits the term.
    Put(Term),
    Not,
    Both,
    Either,
    /// Replaces the top by whether it is true and the letter fits the term.
    BothTerm(Term),
    /// Replaces the top by whether it is true or the letter fits the term.
    EitherTerm(Term),
}

/// The number of terms of a sum, besides the last, that are searched for one that speaks of the same blocks. Literals
/// alone make at most 21 different ones.
const FURTHER_TERMS: u32 = 31;

/// Returns the term of these letters in each block.
fn whole(word: u64) -> Term
    ensures { (b j : ℕ) → fits b j result ≡ truth word j }
{
    Term {
        word,
        care: 0,
        value: 0,
    }
}

/// Returns the term of the letters in which the proposition holds.
fn literal(proposition: u32) -> Term
    ensures { (b j : ℕ) → b < 1024 → j < 64 → fits b j result ≡ on_at b j proposition }
{
    if proposition < 6 {
        return whole(mask(0, proposition));
    }
    if proposition >= 16 {
        return whole(0);
    }
    let bit = 1 << (proposition - 6);
    Term {
        word: u64::MAX,
        care: bit,
        value: bit,
    }
}

/// Returns the term of the letters that don't fit, if one term can say it.
fn negated(term: Term) -> Option<Term>
    ensures { IfSome result (λ t. (b j : ℕ) → j < 64 → fits b j t ≡ (if fits b j term then false else true)) }
{
    if term.care == 0 && term.value == 0 {
        return Some(whole(!term.word));
    }
    let place = term.care.trailing_zeros();
    if term.word != u64::MAX || place >= 16 || term.care != 1 << place {
        return None;
    }
    if term.value == term.care {
        return Some(Term { value: 0, ..term });
    }
    if term.value == 0 {
        return Some(Term {
            value: term.care,
            ..term
        });
    }
    None
}

/// Returns the term of the letters that fit both terms, if one term can say it.
fn joined(left: Term, right: Term) -> Option<Term>
    ensures { IfSome result (λ t. (b j : ℕ) → fits b j t ≡ (fits b j left && fits b j right)) }
{
    let value = left.value | right.value;
    if value & left.care == left.value && value & right.care == right.value {
        return Some(Term {
            word: left.word & right.word,
            care: left.care | right.care,
            value,
        });
    }
    None
}

/// Adds the letters of the other term, if both speak of the same blocks. Returns whether it did.
fn add_letters(term: &mut Term, other: Term) -> bool
    ensures added { result ≡ true → (b j : ℕ) → fits b j term.new ≡ (fits b j term.old || fits b j other) }
    ensures kept { result ≡ false → term.new ≡ term.old }
{
    if term.care != other.care || term.value != other.value {
        return false;
    }
    term.word |= other.word;
    true
}

/// Removes the last instruction and returns its term, if it puts one.
fn take_term(instructions: &mut Vec<Instruction>) -> Option<Term>
    ensures some { IfSome result (λ t. instructions.old.items ≡ instructions.new.items ++ (Put t ∷ [])) }
    ensures none { IfNone result (instructions.new.items ≡ instructions.old.items) }
{
    let Some(Instruction::Put(term)) = instructions.last() else {
        return None;
    };
    let term = *term;
    instructions.pop();
    Some(term)
}

fn put_not(instructions: &mut Vec<Instruction>) -> Result<(), AllocError>
    ensures { OnOk result ((b j : ℕ) → j < 64 → executed instructions.new.items b j
        ≡ (if top (executed instructions.old.items b j) then false else true) ∷ under (executed instructions.old.items b j)) }
{
    let Some(term) = take_term(instructions) else {
        instructions.push(Instruction::Not)?;
        return Ok(());
    };
    match negated(term) {
        Some(other) => instructions.push(Instruction::Put(other))?,
        None => {
            instructions.push(Instruction::Put(term))?;
            instructions.push(Instruction::Not)?;
        }
    }
    Ok(())
}

fn put_both(instructions: &mut Vec<Instruction>) -> Result<(), AllocError>
    ensures { OnOk result ((b j : ℕ) → executed instructions.new.items b j
        ≡ (top (under (executed instructions.old.items b j)) && top (executed instructions.old.items b j)) ∷ under
        (under (executed instructions.old.items b j))) }
{
    let Some(right) = take_term(instructions) else {
        instructions.push(Instruction::Both)?;
        return Ok(());
    };
    let Some(left) = take_term(instructions) else {
        instructions.push(Instruction::BothTerm(right))?;
        return Ok(());
    };
    match joined(left, right) {
        Some(term) => instructions.push(Instruction::Put(term))?,
        None => {
            instructions.push(Instruction::Put(left))?;
            instructions.push(Instruction::BothTerm(right))?;
        }
    }
    Ok(())
}

/// Adds the letters of the term to the last term of the sum at the end of the instructions, or to one of at most
/// `further` terms before that, if one speaks of the same blocks. Returns whether it did.
fn add_to_sum(instructions: &mut [Instruction], term: Term, further: u32) -> bool
    ensures added { result ≡ true → (b j : ℕ) → executed instructions.new b j
        ≡ (top (executed instructions.old b j) || fits b j term) ∷ under (executed instructions.old b j) }
    ensures kept { result ≡ false → instructions.new ≡ instructions.old }
{
    let Some((last, before)) = instructions.split_last_mut() else {
        return false;
    };
    match last {
        Instruction::Put(other) => add_letters(other, term),
        Instruction::EitherTerm(other) => add_letters(other, term)
            || further > 0 && add_to_sum(before, term, further - 1),
        _ => false,
    }
}

fn put_either(instructions: &mut Vec<Instruction>) -> Result<(), AllocError>
    ensures { OnOk result ((b j : ℕ) → executed instructions.new.items b j
        ≡ (top (under (executed instructions.old.items b j)) || top (executed instructions.old.items b j)) ∷ under
        (under (executed instructions.old.items b j))) }
{
    let Some(right) = take_term(instructions) else {
        instructions.push(Instruction::Either)?;
        return Ok(());
    };
    if !add_to_sum(instructions, right, FURTHER_TERMS) {
        instructions.push(Instruction::EitherTerm(right))?;
    }
    Ok(())
}

/// Adds the effect of the operation to the instructions.
fn put(op: Op, instructions: &mut Vec<Instruction>) -> Result<(), AllocError>
    ensures { OnOk result ((b j : ℕ) → b < 1024 → j < 64
        → executed instructions.new.items b j ≡ perform op (on_at b j) (executed instructions.old.items b j)) }
{
    match op {
        Op::Yes => instructions.push(Instruction::Put(whole(u64::MAX)))?,
        Op::No => instructions.push(Instruction::Put(whole(0)))?,
        Op::Proposition(a) => instructions.push(Instruction::Put(literal(a)))?,
        Op::Inf(a) => instructions.push(Instruction::Put(literal(a)))?,
        Op::Fin(a) => {
            instructions.push(Instruction::Put(literal(a)))?;
            put_not(instructions)?;
        }
        Op::Not => put_not(instructions)?,
        Op::Both => put_both(instructions)?,
        Op::Either => put_either(instructions)?,
    }
    Ok(())
}

/// Replaces the instructions with those of the label.
pub fn instructions_of(label: &[Op], instructions: &mut Vec<Instruction>) -> Result<(), AllocError>
    ensures { OnOk result (Tells label.now instructions.new.items) }
{
    instructions.clear();
    for op in label {
        put(*op, instructions)?;
    }
    Ok(())
}
