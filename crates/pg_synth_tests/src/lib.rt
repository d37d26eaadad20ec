//! Tests of `pg_hoa`, `pg_synth` and `pg_aiger`: an automaton that is read, its game, a machine and its circuit. All values
//! were worked out by hand.
#![tactic(auto)]

#[cfg(test)]
mod automata;
#[cfg(test)]
mod circuits;
