//! The choices of each formula that a set can hold, at each letter, and the sets to which the choices of a set lead.

ghost use Rattle.pg_ltl.specs.Mirrors.Nodes.{AreNormalNodes};

use crate::product::Product;
use crate::proposal::SearchFault;
use pg_ltl::NormalNode;
use pg_means_look::{ParityAutomaton, Pool, are_below};
use pg_search_components::{NONE, NumberedLists, count, item, put};
use std::alloc::{AllocError, Global};

/// The most formulas that sets can hold, and the most sets, each times letters.
const MOST_PLACES: usize = 1 << 25;

#[derive(Drop)]
pub struct Tables {
    letters: usize,
    pool: Pool,
    /// For each formula, its column in a row, or `NONE` if no set can hold it.
    columns: Vec<u32>,
    /// The number of columns.
    width: usize,
    /// For each letter, a row: the numbers of the choices of each formula that a set can hold.
    rows: Vec<usize>,
    /// The columns of the set that was looked up last.
    looked_up: Vec<usize>,
    /// For each set and letter, the number of its moves, counted from 1, or 0 if it isn't known yet.
    known: Vec<u32>,
    /// For each list of choices, the number of its moves, counted from 1, or 0 if it isn't known yet.
    led: Vec<u32>,
    /// Lists of moves. Each move has the number of the set to which it leads, and that of the set of Untils that it puts off.
    moves: NumberedLists<u32>,
}

/// Returns the number at a place, where numbers are counted from 1 and 0 means none.
fn known_at(numbers: &[u32], place: usize) -> Option<u32> {
    match numbers.get(place) {
        Some(number) if *number > 0 => Some(*number - 1),
        _ => None,
    }
}

/// Stores a number at a place, counted from 1.
fn learn(numbers: &mut Vec<u32>, place: usize, number: u32) -> Result<(), AllocError> {
    for _ in numbers.len()..place.saturating_add(1) {
        numbers.push(0)?;
    }
    if place < numbers.len() && number < u32::MAX {
        numbers[place] = number + 1;
    }
    Ok(())
}

/// Returns the column of each formula that a set can hold: the whole formula, what is asked for at the next step, and each Until and
/// Release.
fn columns_of(alloc: Global, nodes: &[NormalNode], root: usize) -> Result<Vec<u32>, AllocError> {
    let mut is_asked = vec![in alloc; false; nodes.len()]?;
    put(&mut is_asked, count(root), true);
    for (place, node) in nodes.iter().enumerate() {
        match *node {
            NormalNode::Next(a) => put(&mut is_asked, count(a), true),
            NormalNode::Until(..) | NormalNode::Release(..) => {
                put(&mut is_asked, count(place), true);
            }
            _ => {}
        }
    }
    let mut columns = Vec::with_capacity(alloc, nodes.len())?;
    let mut width = 0;
    for is in &is_asked {
        columns.push(if *is { width } else { NONE })?;
        width = u32::wrapping_add(width, u32::from(*is));
    }
    Ok(columns)
}

/// Returns the rows of all letters.
fn rows_of(
    alloc: Global,
    pool: &mut Pool,
    automaton: &ParityAutomaton,
    nodes: &[NormalNode],
    columns: &[u32],
) -> Result<Vec<usize>, AllocError>
    requires { AreNormalNodes nodes.now }
{
    let mut rows = Vec::new(alloc);
    for letter in 0..automaton.letters {
        let row = pool.rows(alloc, nodes, &automaton.truths, letter)?;
        for (column, number) in columns.iter().zip(row.iter()) {
            if *column != NONE {
                rows.push(*number)?;
            }
        }
    }
    Ok(rows)
}

impl Tables {
    /// Looks up the choices at each letter of each formula that a set can hold. Fails with `TooLarge` if there are more than 33,554,432
    /// of these formulas times letters, and with `OutOfMemory` if an allocation fails.
    pub fn new(
        alloc: Global,
        automaton: &ParityAutomaton,
        nodes: &[NormalNode],
        root: usize,
    ) -> Result<Tables, SearchFault>
        requires { AreNormalNodes nodes.now }
    {
        let letters = automaton.letters as usize;
        let columns = columns_of(alloc, nodes, root)?;
        let width = columns.iter().filter(|column| **column != NONE).count();
        if width.saturating_mul(letters) > MOST_PLACES {
            return Err(SearchFault::TooLarge);
        }
        let mut pool = Pool::new(alloc);
        let rows = rows_of(alloc, &mut pool, automaton, nodes, &columns)?;
        Ok(Tables {
            letters,
            pool,
            columns,
            width,
            rows,
            looked_up: Vec::new(alloc),
            known: Vec::new(alloc),
            led: Vec::new(alloc),
            moves: NumberedLists::new(alloc),
        })
    }

    /// Returns the moves with this number: for each, the number of the set to which it leads, and that of the set of Untils that it puts
    /// off.
    pub fn moves(&self, number: u32) -> &[u32] {
        self.moves.list(number)
    }

    /// Returns the number of the moves to which the choices of a set at a letter lead.
    pub fn look_up(
        &mut self,
        alloc: Global,
        product: &mut Product,
        set: u32,
        letter: usize,
    ) -> Result<u32, SearchFault> {
        let place = (set as usize)
            .saturating_mul(self.letters)
            .saturating_add(letter);
        if let Some(number) = known_at(&self.known, place) {
            return Ok(number);
        }
        if place > MOST_PLACES {
            return Err(SearchFault::TooLarge);
        }
        let list = self.choices(alloc, product.sets.list(set), letter)?;
        let number = self.moves_of(alloc, product, list)?;
        learn(&mut self.known, place, number)?;
        Ok(number)
    }

    /// Returns the number of the choices of a set at a letter.
    fn choices(
        &mut self,
        alloc: Global,
        set: &[usize],
        letter: usize,
    ) -> Result<usize, SearchFault> {
        let begin = letter.saturating_mul(self.width).min(self.rows.len());
        let end = begin.saturating_add(self.width).min(self.rows.len());
        let rows = &self.rows[begin..end];
        self.looked_up.clear();
        for place in set {
            self.looked_up
                .push(item(&self.columns, count(*place), NONE) as usize)?;
        }
        if !are_below(&self.looked_up, rows.len()) {
            return Err(SearchFault::TooLarge);
        }
        Ok(self.pool.set(alloc, &self.looked_up, rows)?)
    }

    /// Returns the number of the moves to which the choices of a list lead.
    fn moves_of(
        &mut self,
        alloc: Global,
        product: &mut Product,
        list: usize,
    ) -> Result<u32, SearchFault> {
        if let Some(number) = known_at(&self.led, list) {
            return Ok(number);
        }
        let mut moves = Vec::new(alloc);
        for choice in self.pool.list(list) {
            moves.push(product.set(alloc, &choice.asks)?)?;
            moves.push(product.puts.number(&choice.puts)?)?;
        }
        let number = self.moves.number(&moves)?;
        learn(&mut self.led, list, number)?;
        Ok(number)
    }
}
