//! The laws proved of formulas: each function's contract states a law, and its body does nothing.

ghost use Rattle.pg_ltl.specs.Laws.{Coverage, Duality, Normality, OneReading, OneStop, Pruning};

/// Wherever a formula holds, not all choices of its tableau are wrong.
pub fn coverage()
    ensures { Coverage }
{}

/// The dual of a formula holds exactly where the formula doesn't.
pub fn duality()
    ensures { Duality }
{}

/// The normal form holds where the formula as written is satisfied, and the normal form of the formula's negation holds where it isn't.
pub fn normality()
    ensures { Normality }
{}

/// A choice that asks for more than another one can be left out.
pub fn pruning()
    ensures { Pruning }
{}

/// A text spells at most one formula, and gives its propositions one list of names.
pub fn one_reading()
    ensures { OneReading }
{}

/// A text that spells no formula stops making sense at one byte at most.
pub fn one_stop()
    ensures { OneStop }
{}
