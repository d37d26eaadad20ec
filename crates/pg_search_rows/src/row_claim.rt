//! Claims whose rows have no ranks yet.

/// The claim that each closed map has at least a row at a vertex. In an order of such claims, each leads to places before the sum
/// of its place and its span.
#[derive(Clone, Copy)]
pub struct RowClaim {
    pub vertex: u32,
    pub row: u32,
    pub span: u32,
}
