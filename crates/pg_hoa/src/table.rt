//! The table of steps by state and letter.

ghost use Rattle.std.specs.Prelude.{◌≡◌, ℕ, true, ◌+◌, ◌*◌, ◌^◌, ◌<◌, ◌≤◌, List, [], ◌++◌, map, length, get_or, min, max, slice_get};
ghost use Rattle.std.specs.Prelude.{option_map};
ghost use Rattle.std.specs.Prelude.{false, Some, IfSome, IfOk, OnOk, IfErr};
ghost use Rattle.std.specs.List.{All, fold};
ghost use Rattle.pg_hoa_automaton.specs.Automata.{deciding};
ghost use Rattle.pg_list_lemmas.specs.Rising.{rising};
ghost use Rattle.pg_hoa_syntax.specs.declared.formula.Op.{Op};
ghost use Rattle.pg_hoa_syntax.specs.Mirrors.Kept.{edge_in, line_in};
ghost use Rattle.pg_hoa_automaton.specs.Mirrors.Tables.{numbered, next};
ghost use Rattle.pg_hoa.specs.Mirrors.Tables.{Stage, way_step, IsDecided, IsOf, IsRow, IsCovered, IsRegrouped, with_set, with_sets};
ghost use Rattle.pg_hoa.specs.Mirrors.Tables.{same_set, agree, Extends, IsPlaced};
ghost use Rattle.pg_hoa.specs.Mirrors.Tables.{stage, IsSplit, MayNumber, Adds, at_slot, at_word, at_letters, at_line, IsTableOf};
ghost use Rattle.pg_hoa.specs.Mirrors.Tables.{IsConflictOf};
ghost use Rattle.pg_hoa.specs.Mirrors.Letters.{truth, truth_in};
ghost use Rattle.pg_hoa.specs.Mirrors.Instructions.{SpeaksOf};

use crate::fault::Conflict;
use crate::letters::words_of;
use crate::terms::{Instruction, instructions_of};
use pg_hoa_automaton::{Shape, Stored, Table, numbered};
use pg_hoa_syntax::{Op, ReadEdge, ReadState};
use std::alloc::{AllocError, Global};
use std::collections::BTreeMap;

/// The slots of a state's letters: from `first` on, `blocks` blocks of `width` letters.
#[derive(Clone, Copy)]
pub struct Row {
    first: usize,
    blocks: u32,
    width: u32,
}

/// A step that goes into a row of a table of a shape. It leads to `target`, and `counts` is the set that counts among
/// those met on the way: `own`, the sets of the state, whose list is at `place`, and `more`, the sets of the edge.
#[derive(Drop)]
pub struct Way<'a> {
    shape: Shape,
    row: Row,
    target: u32,
    counts: Option<u32>,
    own: &'a [u32],
    place: u32,
    more: &'a [u32],
}

/// Letters of a state that have a step to this target, where this set counts: bit `j` of word `b` speaks of the slot
/// `first + 64 * b + j`.
#[derive(Drop)]
pub struct Covered {
    first: usize,
    target: u32,
    counts: Option<u32>,
    words: Vec<u64>,
}

/// A table that is being filled, with the place of each list of sets, the first slot whose steps don't agree, or the
/// number of slots if there is none, and the letters that are covered by edges like the current one.
#[derive(Drop)]
pub struct Filling {
    slots: Vec<u32>,
    steps: Vec<Stored>,
    lists: Vec<Vec<u32>>,
    known: BTreeMap<Vec<u32>, u32>,
    conflict: usize,
    covered: Covered,
}

/// Stacks for computing labels, kept from label to label.
#[derive(Drop)]
struct Stacks {
    instructions: Vec<Instruction>,
    words: Vec<[u64; 16]>,
}

/// Returns the set that counts, if there is one.
fn deciding(shape: Shape, sets: &[u32]) -> Option<u32>
    ensures { result ≡ deciding shape sets.now }
{
    match shape {
        Shape::MinEven => sets.first().copied(),
        Shape::MinOdd => sets.first().copied(),
        _ => sets.last().copied(),
    }
}

/// Whether the same set counts in both.
fn same_set(a: Option<u32>, b: Option<u32>) -> bool
    ensures { result ≡ same_set a b }
{
    match (a, b) {
        (None, None) => true,
        (Some(a), Some(b)) => a == b,
        _ => false,
    }
}

/// Returns the set that counts if one more set is met.
fn with_set(shape: Shape, counts: Option<u32>, set: u32) -> Option<u32>
    ensures { result ≡ with_set shape counts set }
{
    match counts {
        None => Some(set),
        Some(n) => match shape {
            Shape::MinEven => Some(n.min(set)),
            Shape::MinOdd => Some(n.min(set)),
            _ => Some(n.max(set)),
        },
    }
}

/// Returns the set that counts if all of these sets are met too.
fn counts_with(shape: Shape, counts: Option<u32>, sets: &[u32]) -> Option<u32>
    ensures { result ≡ with_sets shape counts sets.now }
{
    let mut found = counts;
    for set in sets {
        found = with_set(shape, found, *set);
    }
    found
}

/// Returns the sets of both lists, each once and the least first.
fn sets_of(alloc: Global, own: &[u32], more: &[u32]) -> Result<Vec<u32>, AllocError>
    ensures { IfOk result (λ v. v.items ≡ rising (own.now ++ more.now)) }
{
    let mut sets = Vec::from_slice(alloc, own)?;
    sets.extend_from_slice(more)?;
    sets.sort_unstable();
    sets.dedup();
    Ok(sets)
}

/// Whether the lists are the same. If the answer is no, they may still be.
fn is_same_list(a: &[u32], b: &[u32]) -> bool
    ensures { result ≡ true → a.now ≡ b.now }
{
    a == b
}

/// Returns the place of the list, if it is known.
fn known_place(filling: &Filling, sets: &[u32]) -> Option<u32>
    ensures { IfSome result (λ place. slice_get (stage filling.now).lists place ≡ Some sets.now) }
{
    let place = *filling.known.get(sets)?;
    let list = filling.lists.get(place as usize)?;
    if is_same_list(list.as_slice(), sets) {
        Some(place)
    } else {
        None
    }
}

/// Returns the place of the list, and appends it to the lists if it isn't known.
fn place_of(alloc: Global, filling: &mut Filling, sets: Vec<u32>) -> Result<u32, AllocError>
    ensures there { IfOk result (λ place. slice_get (stage filling.new).lists place ≡ Some sets.items) }
    ensures keeps { OnOk result (Extends (stage filling.old) (stage filling.new)) }
{
    if let Some(place) = known_place(filling, sets.as_slice()) {
        return Ok(place);
    }
    let place = filling.lists.len();
    if place >= u32::MAX as usize {
        return Err(AllocError);
    }
    filling
        .known
        .insert(Vec::from_slice(alloc, sets.as_slice())?, place as u32)?;
    filling.lists.push(sets)?;
    Ok(place as u32)
}

/// Returns the place of the list of the way's sets. If the edge has no sets of its own, that place is known.
fn list_of(alloc: Global, filling: &mut Filling, way: &Way<'_>) -> Result<u32, AllocError>
    requires placed { IsPlaced (stage filling.old) way.now }
    ensures there { IfOk result (λ place. slice_get (stage filling.new).lists place ≡ Some (way_step way.now).sets) }
    ensures keeps { OnOk result (Extends (stage filling.old) (stage filling.new)) }
{
    if way.more.is_empty() {
        return Ok(way.place);
    }
    let sets = sets_of(alloc, way.own, way.more)?;
    place_of(alloc, filling, sets)
}

/// Stores the way's step as a new one, and returns its number.
fn store(alloc: Global, filling: &mut Filling, way: &Way<'_>) -> Result<u32, AllocError>
    requires placed { IsPlaced (stage filling.old) way.now }
    ensures there { IfOk result (λ number. numbered (stage filling.new).steps (stage filling.new).lists number
        ≡ Some (way_step way.now)) }
    ensures keeps { OnOk result (Extends (stage filling.old) (stage filling.new)) }
{
    let list = list_of(alloc, filling, way)?;
    let number = filling.steps.len() + 1;
    if number > u32::MAX as usize {
        return Err(AllocError);
    }
    filling.steps.push(Stored {
        target: way.target,
        list,
    })?;
    Ok(number as u32)
}

/// Whether the step agrees with the one in the slot, if there is one.
fn compared(filling: &Filling, way: &Way<'_>, slot: usize) -> Option<bool>
    requires decided { IsDecided way.now }
    requires within { slot < length filling.now.slots.items }
    ensures { result ≡ option_map (λ s. agree way.now.shape s (way_step way.now))
        (numbered (stage filling.now).steps (stage filling.now).lists (get_or filling.now.slots.items slot 0)) }
{
    let (target, sets) = numbered(&filling.steps, &filling.lists, filling.slots[slot])?;
    Some(target == way.target && same_set(deciding(way.shape, sets), way.counts))
}

/// Gives the step to the slot. Takes and returns the number of the step, or 0 while it has none.
fn place(
    alloc: Global,
    filling: &mut Filling,
    way: &Way<'_>,
    slot: usize,
    number: u32,
) -> Result<u32, AllocError>
    requires decided { IsDecided way.now }
    requires within { slot < length filling.old.slots.items }
    requires placed { IsPlaced (stage filling.old) way.now }
    requires known { MayNumber (stage filling.old) number (way_step way.now) }
    ensures adds { OnOk result (Adds way.now.shape (at_slot slot (way_step way.now)) (stage filling.old)
        (stage filling.new)) }
    ensures known { IfOk result (λ n. MayNumber (stage filling.new) n (way_step way.now)) }
{
    match compared(filling, way, slot) {
        Some(true) => Ok(number),
        Some(false) => {
            if slot < filling.conflict {
                filling.conflict = slot;
                return Ok(number);
            }
            Ok(number)
        }
        None => {
            if number > 0 {
                filling.slots[slot] = number;
                return Ok(number);
            }
            let stored = store(alloc, filling, way)?;
            filling.slots[slot] = stored;
            Ok(stored)
        }
    }
}

/// Gives the step to the slots at the bits of the word.
fn place_word(
    alloc: Global,
    filling: &mut Filling,
    way: &Way<'_>,
    first: usize,
    width: u32,
    word: u64,
    mut number: u32,
) -> Result<u32, AllocError>
    requires decided { IsDecided way.now }
    requires within { first + width ≤ length filling.old.slots.items }
    requires narrow { width ≤ 64 }
    requires placed { IsPlaced (stage filling.old) way.now }
    requires known { MayNumber (stage filling.old) number (way_step way.now) }
    ensures adds { OnOk result (Adds way.now.shape (at_word first width word (way_step way.now)) (stage filling.old)
        (stage filling.new)) }
    ensures known { IfOk result (λ n. MayNumber (stage filling.new) n (way_step way.now)) }
{
    let mut at: u32 = 0;
    'bits: while at < width {
        let rest = word >> at;
        if rest == 0 {
            return Ok(number);
        }
        let next = at + rest.trailing_zeros();
        if next >= width {
            return Ok(number);
        }
        number = place(alloc, filling, way, first + next as usize, number)?;
        at = next + 1;
    }
    Ok(number)
}

/// Whether the covered letters are those of the way's state and key. If the answer is no, they may still be.
fn is_of(covered: &Covered, way: &Way<'_>) -> bool
    ensures { result ≡ true → IsOf covered.now way.now }
{
    covered.first == way.row.first
        && covered.target == way.target
        && same_set(covered.counts, way.counts)
}

fn clear(words: &mut [u64])
    ensures { (b j : ℕ) → truth (get_or words.new b 0) j ≡ false }
{
    words.fill(0);
}

/// Starts with no letter covered, if the way's state or key differs from the last one's.
fn begin(filling: &mut Filling, way: &Way<'_>)
    ensures { Adds way.now.shape (λ i. []) (stage filling.old) (stage filling.new) }
{
    if !is_of(&filling.covered, way) {
        clear(&mut filling.covered.words);
        filling.covered.first = way.row.first;
        filling.covered.target = way.target;
        filling.covered.counts = way.counts;
    }
}

/// Returns letters of the block that have a step of the way's key already.
fn covered_word(filling: &Filling, way: &Way<'_>, block: u32) -> u64
    ensures { (j : ℕ) → j < 64 → truth result j ≡ true → IsCovered way.now (stage filling.now) (way.now.row.first + (block * 64 + j)) }
{
    let at = block as usize;
    if at < filling.covered.words.len() && is_of(&filling.covered, way) {
        filling.covered.words[at]
    } else {
        0
    }
}

/// Notes that the letters of the block at the bits of the word have a step of the way's key, which they were given
/// last.
fn cover(filling: &mut Filling, way: &Way<'_>, block: u32, word: u64)
    requires { IsDecided way.now }
    ensures adds { (t : Stage) → Adds way.now.shape
        (at_word (way.now.row.first + block * way.now.row.width) way.now.row.width word (way_step way.now)) t (stage filling.old)
        → Adds way.now.shape (at_word (way.now.row.first + block * way.now.row.width) way.now.row.width word (way_step way.now)) t
        (stage filling.new) }
    ensures known { (n : ℕ) → MayNumber (stage filling.old) n (way_step way.now)
        → MayNumber (stage filling.new) n (way_step way.now) }
{
    let at = block as usize;
    if way.row.width == 64 && at < filling.covered.words.len() && is_of(&filling.covered, way) {
        filling.covered.words[at] |= word;
    }
}

/// Gives the step to the slots of the block at the bits of the word.
fn place_block(
    alloc: Global,
    filling: &mut Filling,
    way: &Way<'_>,
    block: u32,
    word: u64,
    number: u32,
) -> Result<u32, AllocError>
    requires decided { IsDecided way.now }
    requires row { IsRow (length filling.old.slots.items) way.now.row }
    requires within { block < way.now.row.blocks }
    requires placed { IsPlaced (stage filling.old) way.now }
    requires known { MayNumber (stage filling.old) number (way_step way.now) }
    ensures adds { OnOk result (Adds way.now.shape
        (at_word (way.now.row.first + block * way.now.row.width) way.now.row.width word (way_step way.now))
        (stage filling.old) (stage filling.new)) }
    ensures known { IfOk result (λ n. MayNumber (stage filling.new) n (way_step way.now)) }
{
    let rest = word & !covered_word(filling, way, block);
    if rest == 0 {
        return Ok(number);
    }
    let at = way.row.first + (block * way.row.width) as usize;
    let number = place_word(alloc, filling, way, at, way.row.width, rest, number)?;
    cover(filling, way, block, rest);
    Ok(number)
}

/// Whether each bit of the word is also a bit of the other one.
fn is_within(word: u64, known: u64) -> bool
    ensures { result ≡ true → (j : ℕ) → j < 64 → truth word j ≡ true → truth known j ≡ true }
{
    word & !known == 0
}

/// Whether all letters of the run at the bits of the words have a step of the way's key. If the answer is no, they may
/// still have one.
fn are_covered(filling: &Filling, way: &Way<'_>, run: u32, words: &[u64; 16]) -> bool
    ensures { result ≡ true → (k j : ℕ) → k < 16 → j < 64 → truth_in words.now k j ≡ true
        → IsCovered way.now (stage filling.now) (way.now.row.first + ((run * 16 + k) * 64 + j)) }
{
    let from = run as usize * 16;
    if !is_of(&filling.covered, way) || filling.covered.words.len() < from + 16 {
        return false;
    }
    for k in 0..16 {
        if !is_within(words[k], filling.covered.words[from + k]) {
            return false;
        }
    }
    true
}

/// Gives the step to the slots of the run at the bits of the words.
fn place_run(
    alloc: Global,
    filling: &mut Filling,
    way: &Way<'_>,
    run: u32,
    words: &[u64; 16],
    mut number: u32,
) -> Result<u32, AllocError>
    requires decided { IsDecided way.now }
    requires row { IsRow (length filling.old.slots.items) way.now.row }
    requires within { run * 16 < way.now.row.blocks }
    requires placed { IsPlaced (stage filling.old) way.now }
    requires known { MayNumber (stage filling.old) number (way_step way.now) }
    ensures adds { OnOk result ((label : List Op) (t : Stage) → SpeaksOf label run words.now
        → Adds way.now.shape (at_letters way.now.row.first (run * 16 * way.now.row.width) label (way_step way.now)) t (stage filling.old)
        → Adds way.now.shape (at_letters way.now.row.first (min way.now.row.blocks (run * 16 + 16) * way.now.row.width) label
        (way_step way.now))
        t (stage filling.new)) }
    ensures known { IfOk result (λ n. MayNumber (stage filling.new) n (way_step way.now)) }
{
    if are_covered(filling, way, run, words) {
        return Ok(number);
    }
    let end = way.row.blocks.min(run * 16 + 16);
    for block in run * 16..end {
        let word = words[(block % 16) as usize];
        number = place_block(alloc, filling, way, block, word, number)?;
    }
    Ok(number)
}

/// Returns the number of blocks of letters, and the number of letters in a block.
fn blocks_of(propositions: u32) -> (u32, u32)
    requires { propositions ≤ 16 }
    ensures { IsSplit propositions result.0 result.1 }
{
    if propositions < 6 {
        (1, 1 << propositions)
    } else {
        (1 << (propositions - 6), 64)
    }
}

/// Gives the step to the slots of the letters to which the label says yes.
fn add_edge(
    alloc: Global,
    filling: &mut Filling,
    stacks: &mut Stacks,
    way: &Way<'_>,
    label: &[Op],
) -> Result<(), AllocError>
    requires decided { IsDecided way.now }
    requires placed { IsPlaced (stage filling.old) way.now }
    requires row { IsRow (length filling.old.slots.items) way.now.row }
    ensures { OnOk result (Adds way.now.shape
        (at_letters way.now.row.first (way.now.row.blocks * way.now.row.width) label.now (way_step way.now))
        (stage filling.old) (stage filling.new)) }
{
    instructions_of(label, &mut stacks.instructions)?;
    begin(filling, way);
    let instructions = stacks.instructions.as_slice();
    let mut number = 0;
    for run in 0..way.row.blocks.div_ceil(16) {
        if way.row.first + (run * 16 * way.row.width) as usize >= filling.conflict {
            return Ok(());
        }
        let words = words_of(instructions, run, &mut stacks.words)?;
        number = place_run(alloc, filling, way, run, &words, number)?;
    }
    Ok(())
}

/// Returns the state that the edge leads to, and the set that counts on the edge, if without the edge's sets it is
/// `counts`.
fn key_of(shape: Shape, counts: Option<u32>, edge: &ReadEdge) -> (u32, Option<u32>)
    ensures { result ≡ (edge.now.target, with_sets shape counts edge.now.sets.items) }
{
    let counts = counts_with(shape, counts, edge.sets.as_slice());
    (edge.target, counts)
}

/// Returns the edges of a state, with the edges of one key side by side and in their order. `counts` is the set that
/// counts among the state's own sets.
fn regrouped<'a>(
    alloc: Global,
    shape: Shape,
    counts: Option<u32>,
    edges: &'a [ReadEdge],
) -> Result<Vec<&'a ReadEdge>, AllocError>
    ensures { IfOk result (λ order. (own : List ℕ) → counts ≡ deciding shape (rising own)
        → IsRegrouped shape own (map edge_in edges.now) (map (λ e. edge_in e.now) order.items)) }
{
    let mut order = Vec::new(alloc);
    for edge in edges {
        order.push(edge)?;
    }
    order.sort_by_key(|edge| key_of(shape, counts, edge))?;
    Ok(order)
}

/// Gives the steps of the line's edges to their slots.
fn add_line(
    alloc: Global,
    filling: &mut Filling,
    stacks: &mut Stacks,
    shape: Shape,
    propositions: u32,
    line: &ReadState,
) -> Result<(), AllocError>
    requires few { propositions ≤ 16 }
    requires within { line.now.state * 2 ^ propositions + 2 ^ propositions ≤ length filling.old.slots.items }
    ensures { OnOk result (Adds shape (at_line (2 ^ propositions) (line_in line.now)) (stage filling.old)
        (stage filling.new)) }
{
    let (blocks, width) = blocks_of(propositions);
    let row = Row {
        first: (line.state as usize) << propositions,
        blocks,
        width,
    };
    let own = line.sets.as_slice();
    let counts = counts_with(shape, None, own);
    let sets = sets_of(alloc, own, &[])?;
    let place = place_of(alloc, filling, sets)?;
    let order = regrouped(alloc, shape, counts, &line.edges)?;
    for edge in &order {
        let more = edge.sets.as_slice();
        let way = Way {
            shape,
            row,
            target: edge.target,
            counts: counts_with(shape, counts, more),
            own,
            place,
            more,
        };
        add_edge(alloc, filling, stacks, &way, edge.label.as_slice())?;
    }
    Ok(())
}

/// Returns the table of the steps that the lines give, for states below `states`, if the steps of each state and letter
/// agree. Otherwise it fails with the least state where they don't, and the least such letter there.
pub fn table_of(
    alloc: Global,
    shape: Shape,
    states: u32,
    propositions: u32,
    lines: &[ReadState],
) -> Result<Table, Conflict>
    requires few_states { states ≤ 65535 }
    requires few_propositions { propositions ≤ 16 }
    requires few_steps { states * 2 ^ propositions ≤ 16777216 }
    requires below { All (λ l. l.state < states) lines.now }
    ensures found { IfOk result (IsTableOf shape (map line_in lines.now) states (2 ^ propositions)) }
    ensures refused { IfErr result (IsConflictOf shape (map line_in lines.now) states (2 ^ propositions)) }
{
    let letters = 1usize << propositions;
    let total = states as usize * letters;
    let mut filling = Filling {
        slots: vec![in alloc; 0u32; total]?,
        steps: Vec::new(alloc),
        lists: Vec::new(alloc),
        known: BTreeMap::new(alloc),
        conflict: total,
        covered: Covered {
            first: 0,
            target: 0,
            counts: None,
            words: vec![in alloc; 0u64; letters.div_ceil(1024) * 16]?,
        },
    };
    let mut stacks = Stacks {
        instructions: Vec::new(alloc),
        words: Vec::new(alloc),
    };
    for line in lines {
        add_line(alloc, &mut filling, &mut stacks, shape, propositions, line)?;
    }
    if filling.conflict < total {
        let state = (filling.conflict / letters) as u32;
        let letter = (filling.conflict % letters) as u32;
        return Err(Conflict::NotDeterministic(state, letter));
    }
    Ok(Table {
        states,
        letters: letters as u32,
        slots: filling.slots,
        steps: filling.steps,
        lists: filling.lists,
    })
}
