//! Measures as they appear in frames.

ghost use Rattle.std.specs.Prelude.{◌≡◌, ◌↔◌, ◌≤◌, ℕ, List, Some, None, IsTrue, cond, length, IfOk, OnErr, IfSome};
ghost use Rattle.pg_measure.specs.Measures.{Fits};
ghost use Rattle.pg_measure.specs.Views.{measure_in};
ghost use Rattle.pg_wire.specs.Measured.{Measured};
ghost use Rattle.pg_wire.specs.Written.{IsWriting, IsAdded};

use pg_arena::Vertex;
use pg_map::View;
use pg_measure::{Bounds, row};
use pg_wire::ValuesWriter;
use std::alloc::AllocError;

/// Whether a borrowed measure fits the bounds.
pub fn fits(measure: View, bounds: &Bounds) -> bool
    ensures { IsTrue result ↔ Fits bounds.now (measure_in measure.entry) }
{
    match measure {
        View::Top => true,
        View::List(list) => row::fits(list, bounds.pairs()),
    }
}

/// Returns the measure of a row: top if `is_top`, and otherwise the list in the row.
pub fn lent_row(is_top: bool, row: &[u32]) -> View<'_>
    ensures { measure_in result ≡ cond is_top None (Some row.now) }
{
    if is_top { View::Top } else { View::List(row) }
}

/// Appends the measure of a vertex, which has at most 32,768 components, to a frame. Returns false if the frame would get
/// too long: more than 16,777,216 bytes after its length. If it returns false or memory runs out, the writer and the buffer
/// stay as they were.
pub fn push(
    writer: &mut ValuesWriter,
    v: Vertex,
    measure: View,
    out: &mut Vec<u8>,
) -> Result<bool, AllocError>
    requires { IfSome (measure_in measure) (λ xs. length xs ≤ 32768) }
    ensures of { (writer.new.kind ≡ writer.old.kind) × (writer.new.width ≡ writer.old.width) }
    ensures added { (before : List ℕ) (ms : List Measured) → IsWriting writer.old before ms out.old.items
        → IfOk result (λ fits. IsAdded fits writer.old writer.new before ms
        (v, measure_in measure.entry) out.old.items out.new.items) }
    ensures kept { OnErr result ((writer.new ≡ writer.old) × (out.new.items ≡ out.old.items)) }
{
    match measure {
        View::Top => writer.push_top(v.0, out),
        View::List(list) => writer.push_list(v.0, list, out),
    }
}
