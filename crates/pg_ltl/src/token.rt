//! The tokens of formulas.

use crate::formula::{Infix, Prefix};

/// A token of a formula. Names are replaced by propositions.
#[derive(Clone, Copy, Debug, PartialEq, Eq)]
pub enum FormulaToken {
    /// A proposition, by its number in the list of names.
    Proposition(u32),
    /// `true` or `false`.
    Constant(bool),
    /// An operator before its operand.
    Before(Prefix),
    /// An operator between its operands.
    Between(Infix),
    LeftParen,
    RightParen,
}
