//! Reads the measures of a frame one after another, from its bytes.
ghost use Rattle.std.specs.Prelude.{◌≡◌, ◌≢◌, ◌+◌, ◌*◌, ◌≤◌, ◌<◌, ℕ, List, None, IfSome, IfOk, IsOk, OnOk, OnErr, Ok, length, map};
ghost use Rattle.pg_wire.specs.declared.kind.ValueKind.{ValueKind};
ghost use Rattle.pg_wire.specs.declared.frame.Frame.{Frame};
ghost use Rattle.pg_wire.specs.Bytes.{Spells};
ghost use Rattle.pg_wire.specs.declared.kind.ValueKind.TheVariants.{Dense, Sparse};
ghost use Rattle.pg_wire.specs.Left.{IsLeft, IsNext};
ghost use Rattle.pg_wire.specs.Measured.{Measured, filled, nonzero, dense_value, sparse_form, kind_number, frame_of, TellsMeasures};
ghost use Rattle.pg_wire.specs.Mirrors.Reading.{Yields, Gives, made};
ghost use Rattle.pg_wire.specs.Mirrors.Formats.{all_components, so_many, places, measure};
ghost use Rattle.pg_wire.specs.Mirrors.Between.{IsListNext, IsNextVertex};

use crate::fault::{FieldFault, ReadFault};
use crate::fields::{WORDS, pair, within};
use crate::form::counted;
use crate::forms::{PlaceForm, value_head};
use crate::frame::{SparseValue, Value};
use crate::kind::ValueKind;
use crate::list::{Items, Numbers, Pairs};
use crate::reading::body_of;
use std::alloc::Global;

/// Reads the measures that are left of a frame.
#[derive(Clone, Copy)]
pub struct ValuesReader<'a> {
    kind: ValueKind,
    width: u32,
    bytes: &'a [u8],
}

/// Reads the next numbers into the row, one for each of its places, and returns the bytes after them.
pub fn read_numbers<'a>(bytes: &'a [u8], row: &mut [u32]) -> Result<&'a [u8], FieldFault>
    ensures read { Yields (λ x. (row.new, x.now)) result ((all_components (length row.old)).read bytes.now) }
    ensures less { IfOk result (λ x. length x.now ≤ length bytes.now) }
    ensures cut { OnErr result (length bytes.now < 4 * length row.old) }
{
    let mut rest = bytes;
    for place in row.iter_mut() {
        let (n, after) = within(0, WORDS, rest)?;
        *place = n;
        rest = after;
    }
    Ok(rest)
}

/// Reads the next `count` pairs, writes their numbers into the row at their places and 0 at all others, and returns the
/// bytes after the pairs.
fn read_places<'a>(
    width: u32,
    count: u32,
    bytes: &'a [u8],
    row: &mut [u32],
) -> Result<&'a [u8], FieldFault>
    requires { length row.old ≡ width }
    ensures read { Yields (λ x. (row.new, x.now)) result
        (made (filled width) (so_many (places width) count 0).read bytes.now) }
    ensures less { IfOk result (λ x. length x.now ≤ length bytes.now) }
{
    row.fill(0);
    let mut rest = bytes;
    let mut at = 0;
    for _ in 0..count {
        let ((place, n), after) = pair(width, at, rest)?;
        row[place as usize] = n;
        at = place as u64 + 1;
        rest = after;
    }
    Ok(rest)
}

/// Reads the next list into the row, and returns the bytes after it.
#[tactic(auto, unfolding(crate::specs::Mirrors::Formats::measure, crate::specs::Mirrors::Reading::counted_at))]
#[inline(always)]
fn read_list<'a>(
    kind: ValueKind,
    width: u32,
    bytes: &'a [u8],
    row: &mut [u32],
) -> Result<&'a [u8], FieldFault>
    requires { length row.old ≡ width }
    ensures read { Yields (λ x. (row.new, x.now)) result ((measure kind width).read bytes.now) }
    ensures less { IfOk result (λ x. length x.now ≤ length bytes.now) }
{
    match kind {
        ValueKind::Dense => read_numbers(bytes, row),
        ValueKind::Sparse => {
            let (count, rest) = within(0, width as u64 + 1, bytes)?;
            Ok(read_places(width, count, rest, row)?)
        }
    }
}

/// Returns the kind of frames of measures that has this number, if there is one.
fn kind_of(number: u8) -> Option<ValueKind>
    ensures found { IfSome result (λ kind. kind_number kind ≡ number) }
    ensures all { (kind : ValueKind) → kind_number kind ≡ number → result ≢ None }
{
    match number {
        3 => Some(ValueKind::Dense),
        7 => Some(ValueKind::Sparse),
        _ => None,
    }
}

impl<'a> ValuesReader<'a> {
    /// Returns a reader of the measures in a frame, or None if the bytes, all of them, don't spell a frame of measures. It
    /// takes no memory.
    pub fn open(bytes: &'a [u8]) -> Option<ValuesReader<'a>>
        ensures found { IfSome result (λ r. (ms : List Measured) × Spells (frame_of r.kind r.width ms) bytes.now
            × IsLeft r ms) }
        ensures all { (f : Frame) → TellsMeasures f → Spells f bytes.now → result ≢ None }
    {
        match body_of(bytes)? {
            [] => None,
            [number, rest @ ..] => {
                let kind = kind_of(*number)?;
                let Ok((width, list)) = within(0, WORDS, rest) else {
                    return None;
                };
                let Ok((_, bytes)) = within(0, WORDS, list) else {
                    return None;
                };
                Some(ValuesReader { kind, width, bytes })
            }
        }
    }

    /// Returns the kind of the frame.
    pub fn kind(&self) -> ValueKind
        ensures { result ≡ self.now.kind }
    {
        self.kind
    }

    /// Returns the width of the frame, which is the length of each list in it.
    pub fn width(&self) -> u32
        ensures { result ≡ self.now.width }
    {
        self.width
    }

    /// Reads the next vertex, and returns it with true if its measure is top. If it isn't, its list comes next. Returns None
    /// if no measure is left.
    #[inline(always)]
    fn next_vertex(&mut self) -> Option<(u32, bool)>
        ensures of { (self.new.kind ≡ self.old.kind) × (self.new.width ≡ self.old.width) }
        ensures less { IfSome result (λ _. length self.new.bytes.now < length self.old.bytes.now) }
        ensures next { (ms : List Measured) → IsLeft self.old ms → IsNextVertex ms self.new result }
    {
        let Ok((vertex, tag, rest)) = value_head(0, self.bytes) else {
            return None;
        };
        self.bytes = rest;
        Some((vertex, tag != 0))
    }

    /// Reads the list that comes next into the row, which must have as many places as the width.
    #[inline(always)]
    fn read_row(&mut self, row: &mut [u32]) -> Result<(), FieldFault>
        requires { length row.old ≡ self.old.width }
        ensures of { (self.new.kind ≡ self.old.kind) × (self.new.width ≡ self.old.width) }
        ensures less { length self.new.bytes.now ≤ length self.old.bytes.now }
        ensures row { (list : List ℕ) → (ms : List Measured) → IsListNext self.old list ms
            → IsOk result × (row.new ≡ list) × IsLeft self.new ms }
    {
        self.bytes = read_list(self.kind, self.width, self.bytes, row)?;
        Ok(())
    }

    /// Reads the next vertex, and returns it with true if its measure is top. If it isn't, the list is in the row, which
    /// must have as many places as the width. Returns None if no measure is left. In that case, and for top, the row stays
    /// as it was.
    #[inline(always)]
    pub fn next(&mut self, row: &mut [u32]) -> Option<(u32, bool)>
        requires { length row.old ≡ self.old.width }
        ensures of { (self.new.kind ≡ self.old.kind) × (self.new.width ≡ self.old.width) }
        ensures less { IfSome result (λ x. length self.new.bytes.now < length self.old.bytes.now) }
        ensures next { (ms : List Measured) → IsLeft self.old ms → IsNext ms self.new row.old row.new result }
    {
        let (vertex, is_top) = self.next_vertex()?;
        if !is_top && self.read_row(row).is_err() {
            return None;
        }
        Some((vertex, is_top))
    }

    /// Reads the list that comes next into a vector of its own.
    fn read_components(&mut self, alloc: Global) -> Result<Numbers, ReadFault>
        ensures of { (self.new.kind ≡ self.old.kind) × (self.new.width ≡ self.old.width) }
        ensures less { length self.new.bytes.now ≤ length self.old.bytes.now }
        ensures list { (list : List ℕ) → (ms : List Measured) → IsListNext self.old list ms
            → Gives (λ x. x) result (Ok list) × OnOk result (IsLeft self.new ms) }
    {
        let mut row = Vec::new(alloc);
        row.resize(self.width as usize, 0)?;
        self.read_row(row.as_mut_slice())?;
        Ok(Items::new(row))
    }

    /// Reads the list that comes next in a sparse frame, as pairs.
    fn read_pairs(&mut self, alloc: Global) -> Result<Pairs, ReadFault>
        ensures of { (self.new.kind ≡ self.old.kind) × (self.new.width ≡ self.old.width) }
        ensures less { length self.new.bytes.now ≤ length self.old.bytes.now }
        ensures list { (list : List ℕ) → (ms : List Measured) → self.old.kind ≡ Sparse → IsListNext self.old list ms
            → Gives (λ x. x) result (Ok (nonzero list)) × OnOk result (IsLeft self.new ms) }
    {
        let high = self.width as u64 + 1;
        let (pairs, rest) = counted::<PlaceForm>(alloc, self.width, 0, high, 0, self.bytes)?;
        self.bytes = rest;
        Ok(pairs)
    }
}

/// Collects all measures that a reader finds in the bytes, each as a list. `count` is their number.
pub fn read_values(
    alloc: Global,
    width: u32,
    count: u32,
    bytes: &[u8],
) -> Result<Items<Value>, ReadFault>
    ensures { (ms : List Measured) → IsLeft (record { kind = Dense; width = width; bytes = bytes.entry }) ms
        → Gives (λ x. x) result (Ok (map dense_value ms)) }
{
    let kind = ValueKind::Dense;
    let mut reader = ValuesReader { kind, width, bytes };
    let mut values = Vec::with_capacity(alloc, count as usize)?;
    'each: while let Some((vertex, is_top)) = reader.next_vertex() {
        let list = if is_top {
            None
        } else {
            Some(reader.read_components(alloc)?)
        };
        if values.push(Value { vertex, list }).is_err() {
            return Err(ReadFault::Memory);
        }
    }
    Ok(Items::new(values))
}

/// Collects all measures that a reader finds in the bytes, each as pairs. `count` is their number.
pub fn read_sparse_values(
    alloc: Global,
    width: u32,
    count: u32,
    bytes: &[u8],
) -> Result<Items<SparseValue>, ReadFault>
    ensures { (ms : List Measured) → IsLeft (record { kind = Sparse; width = width; bytes = bytes.entry }) ms
        → Gives (λ x. x) result (Ok (map sparse_form ms)) }
{
    let kind = ValueKind::Sparse;
    let mut reader = ValuesReader { kind, width, bytes };
    let mut values = Vec::with_capacity(alloc, count as usize)?;
    'each: while let Some((vertex, is_top)) = reader.next_vertex() {
        let pairs = if is_top {
            None
        } else {
            Some(reader.read_pairs(alloc)?)
        };
        if values.push(SparseValue { vertex, pairs }).is_err() {
            return Err(ReadFault::Memory);
        }
    }
    Ok(Items::new(values))
}
