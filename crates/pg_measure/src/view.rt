//! Borrowed measures.

/// A borrowed measure: top, or a list of components.
#[derive(Clone, Copy, Debug, PartialEq, Eq)]
pub enum View<'a> {
    /// The greatest measure.
    Top,
    /// The components, the one for the greatest priority first.
    List(&'a [u32]),
}
