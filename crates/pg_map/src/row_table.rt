//! Rows of numbers in one list. Each holds a measure in the format of `pg_measure::row`.

ghost use Rattle.std.specs.Prelude.{◌≡◌, Some, None, ◌+◌, ◌-◌, ◌*◌, ◌<◌, ◌≤◌, length, replicate, slice_set, IfOk, MatchBool};
ghost use Rattle.pg_measure.specs.Measures.{Fits};
ghost use Rattle.pg_measure.specs.Mirrors.Rows.{measure_of, IsLeastCover};
ghost use Rattle.pg_map.specs.Maps.{measure_at};
ghost use Rattle.pg_map.specs.Mirrors.Tables.{table};

use pg_measure::row;
use std::alloc::{AllocError, Global};
use std::marker::Model;

/// Rows of equal width. In contracts a table is the measures of its rows. Only `zeros` allocates memory.
#[derive(Drop)]
pub(crate) struct RowTable {
    width: usize,
    count: usize,
    cells: Vec<u32>,
}

impl Model for RowTable {
    ghost use Rattle.pg_map.specs.Mirrors.Tables.{table, RowsValue, AreRows};

    ghost Value = { RowsValue };

    ghost view = { λ r. record { width = r.width; measures = table r.count r.width r.cells.items } };

    ghost invariant = { λ r. AreRows r.width r.count r.cells.items };
}

impl RowTable {
    /// Returns `count` rows of zeros. It fails only if memory runs out or the size of the list overflows.
    pub(crate) fn zeros(alloc: Global, width: usize, count: usize) -> Result<RowTable, AllocError>
        requires { 0 < width }
        ensures width { IfOk result (λ r. r.width ≡ width) }
        ensures zeros { IfOk result (λ r. r.measures ≡ replicate count (Some (replicate (width - 1) 0))) }
    {
        let Some(size) = count.checked_mul(width) else {
            return Err(AllocError);
        };
        let cells = vec![in alloc; 0; size]?;
        Ok(RowTable {
            width,
            count,
            cells,
        })
    }

    /// Returns the number of rows.
    #[inline(always)]
    pub(crate) fn len(&self) -> usize
        ensures { result ≡ length self.now.measures }
    {
        self.count
    }

    /// Returns the row at a place.
    #[inline(always)]
    pub(crate) fn row(&self, place: u32) -> &[u32]
        requires { place < length self.now.measures }
        ensures length { length result.now ≡ self.now.width }
        ensures value { measure_of result.now ≡ measure_at self.now.measures place }
    {
        let start = place as usize * self.width;
        &self.cells[start..start + self.width]
    }

    /// Whether the row at a place holds top.
    #[inline(always)]
    pub(crate) fn is_top(&self, place: u32) -> bool
        requires { place < length self.now.measures }
        ensures { MatchBool result (measure_at self.now.measures place ≡ None)
            (¬ (measure_at self.now.measures place ≡ None)) }
    {
        self.cells[place as usize * self.width] != 0
    }

    /// Writes into the row at `place` the least measure within the bounds that covers the measure of the row at `source` in the first
    /// `front` components.
    pub(crate) fn step(
        &mut self,
        source: u32,
        place: u32,
        bounds: &[(u32, u32)],
        front: usize,
        strict: bool,
    )
        requires width { self.old.width ≡ length bounds.now + 1 }
        requires source { source < length self.old.measures }
        requires fits { Fits bounds.now (measure_at self.old.measures source) }
        requires place { place < length self.old.measures }
        requires front { front ≤ length bounds.now }
        ensures width { self.new.width ≡ self.old.width }
        ensures step { IsLeastCover bounds.now strict front
            (measure_at self.old.measures source) (measure_at self.new.measures place) }
        ensures others { self.new.measures ≡ slice_set self.old.measures place (measure_at self.new.measures place) }
    {
        write_step(
            &mut self.cells,
            bounds,
            self.count,
            source as usize,
            place as usize,
            front,
            strict,
        );
    }

    /// Writes a list into the row at a place.
    pub(crate) fn set(&mut self, place: u32, list: &[u32])
        requires place { place < length self.old.measures }
        requires width { self.old.width ≡ length list.now + 1 }
        ensures width { self.new.width ≡ self.old.width }
        ensures measures { self.new.measures ≡ slice_set self.old.measures place (Some list.now) }
    {
        write_list(&mut self.cells, self.count, place as usize, list);
    }

    /// Writes top into the row at a place.
    pub(crate) fn set_top(&mut self, place: u32)
        requires { place < length self.old.measures }
        ensures width { self.new.width ≡ self.old.width }
        ensures measures { self.new.measures ≡ slice_set self.old.measures place None }
    {
        write_top(&mut self.cells, self.count, self.width, place as usize);
    }
}

/// Copies the row at `source` over the row at `place`, which may be the same.
fn copy_row(cells: &mut [u32], count: usize, width: usize, source: usize, place: usize)
    requires filled { length cells.old ≡ count * width }
    requires source { source < count }
    requires place { place < count }
    ensures filled { length cells.new ≡ count * width }
    ensures copied { table count width cells.new ≡ slice_set (table count width cells.old) place
        (measure_at (table count width cells.old) source) }
{
    if source == place {
        return;
    }
    let from = source * width;
    cells.copy_within(from..from + width, place * width);
}

/// Writes into the row at `place` the least measure within the bounds that covers the measure of the row at `source` in the first `front`
/// components.
fn write_step(
    cells: &mut [u32],
    bounds: &[(u32, u32)],
    count: usize,
    source: usize,
    place: usize,
    front: usize,
    strict: bool,
)
    requires filled { length cells.old ≡ count * (length bounds.now + 1) }
    requires source { source < count }
    requires place { place < count }
    requires front { front ≤ length bounds.now }
    requires fits { Fits bounds.now (measure_at (table count (length bounds.now + 1) cells.old) source) }
    ensures step { IsLeastCover bounds.now strict front
        (measure_at (table count (length bounds.now + 1) cells.old) source)
        (measure_at (table count (length bounds.now + 1) cells.new) place) }
    ensures others { table count (length bounds.now + 1) cells.new ≡ slice_set
        (table count (length bounds.now + 1) cells.old) place
        (measure_at (table count (length bounds.now + 1) cells.new) place) }
{
    let width = bounds.len() + 1;
    copy_row(cells, count, width, source, place);
    let start = place * width;
    row::step(&mut cells[start..start + width], bounds, front, strict);
}

/// Writes a list into the row at `place`.
fn write_list(cells: &mut [u32], count: usize, place: usize, list: &[u32])
    requires filled { length cells.old ≡ count * (length list.now + 1) }
    requires place { place < count }
    ensures { table count (length list.now + 1) cells.new ≡ slice_set
        (table count (length list.now + 1) cells.old) place (Some list.now) }
{
    let width = list.len() + 1;
    let start = place * width;
    set_row(&mut cells[start..start + width], list);
}

/// Writes a list into a row.
fn set_row(row: &mut [u32], list: &[u32])
    requires { length row.old ≡ length list.now + 1 }
    ensures length { length row.new ≡ length row.old }
    ensures value { measure_of row.new ≡ Some list.now }
{
    row[0] = 0;
    row[1..].copy_from_slice(list);
}

/// Writes top into the row at `place`.
fn write_top(cells: &mut [u32], count: usize, width: usize, place: usize)
    requires wide { 0 < width }
    requires filled { length cells.old ≡ count * width }
    requires place { place < count }
    ensures { table count width cells.new ≡ slice_set (table count width cells.old) place None }
{
    let start = place * width;
    mark_row(&mut cells[start..start + width]);
}

/// Writes top into a row.
fn mark_row(row: &mut [u32])
    requires { 0 < length row.old }
    ensures length { length row.new ≡ length row.old }
    ensures value { measure_of row.new ≡ None }
{
    row[0] = 1;
}
