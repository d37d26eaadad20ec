//! Laws that follow from the definitions. Each function states one in its contract, and does nothing.

ghost use Rattle.pg_aiger.specs.Laws.{OneRun, OneStep, OneCircuit, CircuitFollows, CircuitReadsBack, NoneTooLarge};

/// A circuit whose variables are in order has exactly one run for each endless input word.
pub fn one_run()
    ensures { OneRun }
{}

/// A circuit whose variables are in order has exactly one valuation for each step.
pub fn one_step()
    ensures { OneStep }
{}

/// A machine has exactly one circuit.
pub fn one_circuit()
    ensures { OneCircuit }
{}

/// The circuit of a machine has exactly one run for each endless input word, and the word of that run is the machine's.
pub fn circuit_follows()
    ensures { CircuitFollows }
{}

/// The text of a circuit spells that circuit and the names of the automaton's propositions, and nothing else.
pub fn circuit_reads_back()
    ensures { CircuitReadsBack }
{}

/// No machine has a circuit over the limit, so `circuit_of` fails only if memory runs out.
pub fn none_too_large()
    ensures { NoneTooLarge }
{}
