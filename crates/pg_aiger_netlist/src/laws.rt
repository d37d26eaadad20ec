//! Laws that follow from the definitions. Each function states one in its contract, and does nothing.

ghost use Rattle.pg_aiger_netlist.specs.Laws.{OneRun};

/// A circuit without a cycle has exactly one run for each endless input word.
pub fn one_run()
    ensures { OneRun }
{}
