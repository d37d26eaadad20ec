//! Laws about texts of automata. Each function states one in its contract, and does nothing.

ghost use Rattle.pg_hoa.specs.Laws.{OneReading};

pub use pg_hoa_automaton::laws::{recurring_collected, shape_tells};

/// A text spells at most one automaton. If it is not deterministic, it spells none, and the first state and letter at
/// which it isn't are determined.
pub fn one_reading()
    ensures { OneReading }
{}
