//! Tests of `pg_arena` and `pg_text`: a game that is built, and texts that are read and printed. `tests/reading.py` shows
//! more texts that are read. Rows of the program, `tests/refused.py` and `tests/limits.py` show texts that are refused, and
//! the limits from both sides. All values were worked out by hand.
#![tactic(auto)]

#[cfg(test)]
mod games;
#[cfg(test)]
mod texts;
