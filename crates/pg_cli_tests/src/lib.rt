//! Tests of the commands: workers and links, streams that fail, circuits that are proposed, and the words of the command line. Rows of the
//! program show what each command answers, and the lines of faults.
#![tactic(auto)]

#[cfg(test)]
mod failures;
#[cfg(test)]
mod links;
#[cfg(test)]
mod proposals;
#[cfg(test)]
mod streams;
#[cfg(test)]
mod words;
