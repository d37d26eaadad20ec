//! Laws that follow from the definitions. Each function states one in its contract, takes no memory and does nothing.

ghost use Rattle.pg_aiger_reader.specs.Laws.{OneReading, OneRefusal, OneTie, TiedOrRefused};

/// A text spells at most one circuit, with one list of symbols.
pub fn one_reading()
    ensures { OneReading }
{}

/// The propositions of an automaton are tied to the inputs and outputs of a circuit in at most one way.
pub fn one_tie()
    ensures { OneTie }
{}

/// A text has at most one named fault, and none if it is read.
pub fn one_refusal()
    ensures { OneRefusal }
{}

/// A circuit that can be tied is refused only if memory runs out.
pub fn tied_or_refused()
    ensures { TiedOrRefused }
{}
