//! The kinds of frames that carry measures, and the number of bytes that a measure takes in them.
ghost use Rattle.std.specs.Prelude.{◌≡◌, ◌≢◌, ℕ, IsTrue, IsFalse, ◌≤◌, ◌+◌, ◌*◌, Some, None, length};
ghost use Rattle.pg_wire.specs.Measured.{nonzero, spelled_as};

/// A kind of frame that carries measures.
#[derive(Clone, Copy, Debug, PartialEq, Eq)]
pub enum ValueKind {
    /// `Values`, which has every component.
    Dense,
    /// `Sparse`, which has the components that aren't 0.
    Sparse,
}

/// Whether `Sparse` lists this component.
pub fn is_told(n: u32) -> bool
    ensures told { IsTrue result → n ≢ 0 }
    ensures untold { IsFalse result → n ≡ 0 }
{
    n != 0
}

/// Returns the number of components that aren't 0.
pub fn nonzero_len(list: &[u32]) -> usize
    ensures count { result ≡ length (nonzero list.now) }
    ensures few { result ≤ length list.now }
{
    let mut count = 0;
    for n in list {
        if is_told(*n) {
            count += 1;
        }
    }
    count
}

impl ValueKind {
    /// Returns the number of bytes that a frame of this kind uses for a vertex with this list of components, which has at
    /// most 32,768.
    pub fn list_size(self, list: &[u32]) -> usize
        requires { length list.now ≤ 32768 }
        ensures size { (vertex : ℕ) → result ≡ length (spelled_as self (vertex, Some list.now)) }
        ensures bound { result ≤ 9 + 8 * length list.now }
    {
        match self {
            ValueKind::Dense => 5 + 4 * list.len(),
            ValueKind::Sparse => 9 + 8 * nonzero_len(list),
        }
    }

    /// Returns the number of bytes that a frame of this kind uses for a vertex with top.
    pub fn top_size(self) -> usize
        ensures { (vertex : ℕ) → result ≡ length (spelled_as self (vertex, None)) }
    {
        5
    }
}
