//! Formulas as they are written.

ghost use Rattle.std.specs.Prelude.{◌<◌, length};
ghost use Rattle.pg_ltl.specs.Mirrors.Nodes.{AreFormulaNodes};

/// An operator before its operand.
#[derive(Clone, Copy, Debug, PartialEq, Eq)]
pub enum Prefix {
    /// `!`
    Not,
    /// `X`: at the next step.
    Next,
    /// `F`: at some step from here on.
    Finally,
    /// `G`: at each step from here on.
    Globally,
}

/// An operator between its two operands.
#[derive(Clone, Copy, Debug, PartialEq, Eq)]
pub enum Infix {
    /// `->`
    Implies,
    /// `<->`
    Equivalent,
    /// `|`
    Or,
    /// `xor`
    Exclusive,
    /// `&`
    And,
    /// `U`: the right operand holds at some step, and the left one until then.
    Until,
    /// `R`: the right operand holds as long as the left one hasn't held before.
    Release,
    /// `W`: the left operand holds as long as the right one hasn't held yet.
    Weak,
    /// `M`: the left operand holds at some step, and the right one until then and at that step too.
    Strong,
    /// `;`: both hold, as with `&`. It binds least, and never stands inside brackets.
    Also,
}

/// A part of a formula. Its operands are given by their places in the list of parts, and come before it.
#[derive(Clone, Copy, Debug, PartialEq, Eq)]
pub enum FormulaNode {
    /// `true` or `false`.
    Constant(bool),
    /// A proposition, by its number in a list of names.
    Proposition(u32),
    /// A formula in brackets.
    Bracket(usize),
    /// An operator before its operand.
    One(Prefix, usize),
    /// An operator between its operands, the left one first.
    Two(Infix, usize, usize),
}

/// A formula as it is written: a list of its parts, each after its operands, and the place of the whole formula in that list.
#[derive(Debug, Drop)]
pub struct Formula {
    pub nodes: Vec<FormulaNode>,
    pub root: usize,
    ghost ordered: { AreFormulaNodes nodes.items },
    ghost within: { root < length nodes.items },
}
