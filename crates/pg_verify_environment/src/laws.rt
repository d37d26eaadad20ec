//! Laws that follow from the definitions. Each function states one in its contract, takes no memory and does nothing.

ghost use Rattle.pg_verify_environment.specs.Laws.{CounterpartDecides};

/// Each word is accepted by exactly one of an automaton and its counterpart.
pub fn counterpart_decides()
    ensures { CounterpartDecides }
{}
