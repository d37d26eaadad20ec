//! The letters to which a label says yes, one run of sixteen blocks of sixty-four letters at a time.

ghost use Rattle.std.specs.Prelude.{◌≡◌, ℕ, ◌+◌, ◌*◌, ◌<◌, ◌≤◌, ◌∷◌, Bool, ◌&&◌, ◌||◌, true, false, if◌then◌else◌};
ghost use Rattle.std.specs.Prelude.{get_or, bit_and, IfOk, OnOk};
ghost use Rattle.pg_hoa.specs.Mirrors.Saying.{top, under};
ghost use Rattle.pg_hoa.specs.Mirrors.Letters.{truth, truth_in, on_at, truths};
ghost use Rattle.pg_hoa.specs.Mirrors.Instructions.{fits, execute, Speaks};

use crate::terms::{Instruction, Term};
use std::alloc::AllocError;

/// Returns the letters of the block, sixty-four of them, in which the proposition holds.
pub fn mask(block: u32, proposition: u32) -> u64
    requires { block < 1024 }
    ensures { (j : ℕ) → j < 64 → truth result j ≡ on_at block j proposition }
{
    match proposition {
        0 => 0xaaaa_aaaa_aaaa_aaaa,
        1 => 0xcccc_cccc_cccc_cccc,
        2 => 0xf0f0_f0f0_f0f0_f0f0,
        3 => 0xff00_ff00_ff00_ff00,
        4 => 0xffff_0000_ffff_0000,
        5 => 0xffff_ffff_0000_0000,
        _ => high_mask(block, proposition),
    }
}

/// Returns the letters of the block in which a proposition from 6 on holds. All letters of a block agree on it.
fn high_mask(block: u32, proposition: u32) -> u64
    requires within { block < 1024 }
    requires high { 6 ≤ proposition }
    ensures { (j : ℕ) → j < 64 → truth result j ≡ on_at block j proposition }
{
    if proposition >= 16 {
        return 0;
    }
    let bit = (block >> (proposition - 6)) & 1;
    if bit == 1 { u64::MAX } else { 0 }
}

/// Returns the letters of the block that fit the term.
fn block_word(block: u32, term: Term) -> u64
    ensures { (j : ℕ) → truth result j ≡ fits block j term }
{
    if block & u32::from(term.care) == u32::from(term.value) {
        term.word
    } else {
        0
    }
}

/// Whether a block of the run may have letters that fit the term.
fn may_meet(run: u32, term: Term) -> bool
    ensures { result ≡ false → (k : ℕ) → k < 16 → bit_and (run * 16 + k) term.care ≡ term.value → ⊥ }
{
    run & u32::from(term.care >> 4) == u32::from(term.value >> 4)
}

/// Returns the letters of the run that fit the term.
fn term_words(run: u32, term: Term) -> [u64; 16]
    requires { run < 64 }
    ensures { (k j : ℕ) → k < 16 → truth_in result k j ≡ fits (run * 16 + k) j term }
{
    let mut words = [0; 16];
    if may_meet(run, term) {
        for k in 0..16 {
            words[k] = block_word(run * 16 + k as u32, term);
        }
    }
    words
}

fn turn(words: &mut [u64; 16])
    ensures { (k j : ℕ) → k < 16 → j < 64 → truth_in words.new k j ≡ (if truth_in words.old k j then false else true) }
{
    for k in 0..16 {
        words[k] = !words[k];
    }
}

fn keep_both(words: &mut [u64; 16], others: &[u64; 16])
    ensures { (k j : ℕ) → k < 16 → truth_in words.new k j ≡ (truth_in words.old k j && truth_in others.now k j) }
{
    for k in 0..16 {
        words[k] &= others[k];
    }
}

fn add(words: &mut [u64; 16], others: &[u64; 16])
    ensures { (k j : ℕ) → k < 16 → truth_in words.new k j ≡ (truth_in words.old k j || truth_in others.now k j) }
{
    for k in 0..16 {
        words[k] |= others[k];
    }
}

/// Takes the top words from the stack and returns them, or returns zeros if the stack is empty.
fn pop(stack: &mut Vec<[u64; 16]>) -> [u64; 16]
    ensures top { (k j : ℕ) → k < 16 → truth_in result k j ≡ top (truths k j stack.old.items) }
    ensures under { (k j : ℕ) → truths k j stack.new.items ≡ under (truths k j stack.old.items) }
{
    match stack.pop() {
        Some(words) => words,
        None => [0; 16],
    }
}

/// Executes the instruction on the top words and the stack below them.
fn execute(
    step: Instruction,
    run: u32,
    top: &mut [u64; 16],
    stack: &mut Vec<[u64; 16]>,
) -> Result<(), AllocError>
    requires { run < 64 }
    ensures { OnOk result ((k j : ℕ) → k < 16 → j < 64 → truth_in top.new k j ∷ truths k j stack.new.items
        ≡ execute step (run * 16 + k) j (truth_in top.old k j ∷ truths k j stack.old.items)) }
{
    match step {
        Instruction::Put(term) => {
            stack.push(*top)?;
            *top = term_words(run, term);
        }
        Instruction::Not => turn(top),
        Instruction::Both => keep_both(top, &pop(stack)),
        Instruction::Either => add(top, &pop(stack)),
        Instruction::BothTerm(term) => keep_both(top, &term_words(run, term)),
        Instruction::EitherTerm(term) => add(top, &term_words(run, term)),
    }
    Ok(())
}

/// Returns the letters of a run at which the instructions leave yes. The stack loses its contents.
pub fn words_of(
    instructions: &[Instruction],
    run: u32,
    stack: &mut Vec<[u64; 16]>,
) -> Result<[u64; 16], AllocError>
    requires { run < 64 }
    ensures { IfOk result (Speaks instructions.now run) }
{
    stack.clear();
    let mut top = [0; 16];
    for step in instructions {
        execute(*step, run, &mut top, stack)?;
    }
    Ok(top)
}
