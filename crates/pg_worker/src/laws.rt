//! Laws about workers and sessions. Each function states one in its contract, and does nothing.

ghost use Rattle.std.specs.Prelude.{ℕ, List, Option};
ghost use Rattle.pg_measure.specs.Measures.{AreBounds};
ghost use Rattle.pg_wire.specs.declared.frame.Setup.{Setup};
ghost use Rattle.pg_wire.specs.Well.{IsSetup};
ghost use Rattle.pg_worker.specs.Laws.{StepsJoin, StepsStayUnder, ToldStayUnder, RepliesStayUnder};

/// The bounds in a valid set-up are the bounds of a map.
pub fn set_up_bounds()
    ensures { (s : Setup) → IsSetup s → AreBounds s.bounds }
{}

/// The measures with which a worker answers a Go are at most those of any map that is closed on the worker's part and
/// at least the worker's map.
pub fn told_stay_under()
    ensures { ToldStayUnder }
{}

/// A worker's map is the join of everything that it took and lifted, in whatever order.
pub fn steps_join()
    ensures { StepsJoin }
{}

/// A worker's map is at most any map that is closed on its part and at least every value that it took.
pub fn steps_stay_under()
    ensures { StepsStayUnder }
{}

/// From a set-up on, each measure in the replies of a session is at most that of any map that is closed at the vertices
/// sent since the set-up and at least the values sent since.
pub fn replies_stay_under()
    ensures { RepliesStayUnder }
{}
