//! Tests of `pg_ltl` and `pg_means`: a formula that is read, and whether an automaton says the same. `tests/formulas.py`
//! shows more formulas, in many spellings, and formulas that are refused.
#![tactic(auto)]

#[cfg(test)]
mod formulas;
#[cfg(test)]
mod verdicts;
