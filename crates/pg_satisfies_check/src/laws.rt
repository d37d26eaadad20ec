//! The laws proved of certificates: each function's contract states a law, and its body does nothing.

ghost use Rattle.pg_satisfies_check.specs.Laws.{Emptiness, Inheritance, Satisfaction};

/// If a certificate says so, no endless run of the circuit satisfies the normal form.
pub fn emptiness()
    ensures { Emptiness }
{}

/// If no endless run of a part of a circuit satisfies a normal form, no endless run of the whole circuit does.
pub fn inheritance()
    ensures { Inheritance }
{}

/// If no endless run satisfies the normal form of a formula's negation, every endless run satisfies the formula as written.
pub fn satisfaction()
    ensures { Satisfaction }
{}
