//! The laws proved of certificates: each function's contract states a law, and its body does nothing.

ghost use Rattle.pg_means_look.specs.Laws.{Emptiness, Sameness, Meaning};

/// If a certificate says so, no word whose greatest recurring priority has the parity satisfies the formula.
pub fn emptiness()
    ensures { Emptiness }
{}

/// Two certificates show that an automaton accepts exactly the words on which a normal form holds.
pub fn sameness()
    ensures { Sameness }
{}

/// Two certificates show that an automaton accepts exactly the words that satisfy a formula as written.
pub fn meaning()
    ensures { Meaning }
{}
