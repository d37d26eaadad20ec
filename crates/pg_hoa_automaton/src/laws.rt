//! Laws about automata. Each function states one in its contract, and does nothing.

ghost use Rattle.pg_hoa_automaton.specs.Laws.{ShapeTells, RecurringCollected};

/// A condition of one of the six shapes holds for a collection of sets if and only if the least or greatest set in it
/// has the parity of the shape, or the collection is empty and the shape accepts that.
pub fn shape_tells()
    ensures { ShapeTells }
{}

/// The sets that recur on a word form a collection, up to double negation: a claim about every such collection is never
/// vacuous.
pub fn recurring_collected()
    ensures { RecurringCollected }
{}
