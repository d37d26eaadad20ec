//! Tests of `pg_measure`, `pg_map` and `pg_solver`, and of the crates between them: `pg_map_ranks`, `pg_map_claims` and
//! `pg_search`. Measures and claims were worked out by hand. Whatever is proposed, the measures are the least ones, as the
//! contracts say. `tests/certified.py` shows that proposals for larger games are accepted.
#![tactic(auto)]

#[cfg(test)]
mod maps;
#[cfg(test)]
mod measures;
#[cfg(test)]
mod proposals;
