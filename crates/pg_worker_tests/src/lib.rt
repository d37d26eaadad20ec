//! Tests of `pg_worker`: a worker on a game of two vertices of Even with the priorities 1 and 3, each leading to the first,
//! `parity 1; 0 1 0 0; 1 3 0 0;`; sessions on bytes; cuts. The expected values were worked out by hand. The rows of
//! `replay` show worlds, and the scripts of their events.
#![tactic(auto)]

#[cfg(test)]
mod cuts;
#[cfg(test)]
mod serving;
#[cfg(test)]
mod texts;
#[cfg(test)]
mod workers;
