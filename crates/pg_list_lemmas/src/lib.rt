//! Common parts of texts, games and automata: numbers put in order, and runs of bytes. There is no code, only
//! definitions and lemmas.
#![tactic(auto)]
