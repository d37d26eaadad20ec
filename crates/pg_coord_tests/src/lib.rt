//! Tests of `pg_coord` and of links to workers, on a game of two vertices of Even with the priorities 1 and 3, each leading
//! to the first: `parity 1; 0 1 0 0; 1 3 0 0;`. Its least progress measure is top at both. Where a link tells its replies,
//! the game is `parity 1; 0 1 0 0,1; 1 2 1 0;`, whose least progress measure is `0 1; 1 0;`. The expected values were
//! worked out by hand.
#![tactic(auto)]

#[cfg(test)]
mod answering;
#[cfg(test)]
mod failing;
#[cfg(test)]
mod hostile;
#[cfg(test)]
mod memory;
#[cfg(test)]
mod rising;
#[cfg(test)]
mod socket;
#[cfg(test)]
mod solving;
#[cfg(test)]
mod told;
#[cfg(test)]
mod tools;
