//! Negation normal form.

ghost use Rattle.std.specs.Prelude.{◌<◌, length};
ghost use Rattle.pg_ltl.specs.Mirrors.Nodes.{AreNormalNodes};

/// A part of a normal form. Its operands are given by their places in the list of parts, and come before it.
#[derive(Clone, Copy, Debug, PartialEq, Eq)]
pub enum NormalNode {
    /// Holds always.
    Top,
    /// Never holds.
    Bottom,
    /// A proposition, by its number: the proposition itself if the value is `true`, its negation if it is `false`.
    Literal(u32, bool),
    /// Both operands hold.
    Both(usize, usize),
    /// At least one of the operands holds.
    Either(usize, usize),
    /// The operand holds at the next step.
    Next(usize),
    /// The right operand holds at some step, and the left one until then.
    Until(usize, usize),
    /// The right operand holds as long as the left one hasn't held before.
    Release(usize, usize),
}

/// A formula in negation normal form: a list of its parts, each after its operands, and the place of the whole formula in that list.
#[derive(Debug, Drop)]
pub struct NormalForm {
    pub nodes: Vec<NormalNode>,
    pub root: usize,
    ghost ordered: { AreNormalNodes nodes.items },
    ghost within: { root < length nodes.items },
}
