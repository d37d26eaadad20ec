//! Laws that follow from the definitions. Each function states one in its contract, and does nothing.

ghost use Rattle.pg_satisfies.specs.Laws.{SatisfiesDecides};

/// A right verdict says yes if and only if every endless run of the circuit satisfies the formula.
pub fn satisfies_decides()
    ensures { SatisfiesDecides }
{
    pg_aiger_netlist::laws::one_run();
}
