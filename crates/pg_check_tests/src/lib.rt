//! Tests of `pg_check`: a solution of maps and its checks, and a play.
#![tactic(auto)]

#[cfg(test)]
mod plays;
#[cfg(test)]
mod solutions;
#[cfg(test)]
mod tools;
