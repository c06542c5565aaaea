//! Tests of each reader by bytes that nobody would send: every prefix of a worked source, each of its bytes replaced by
//! another, and 4,096 random bytes. A row has how many of them have each outcome, and the sum of the lines of their
//! faults, as `tools/hostile_counts.py` works them out by the rules of `docs/`.
#![tactic(auto)]

#[cfg(test)]
mod administrators;
#[cfg(test)]
mod files;
#[cfg(test)]
mod inputs;
#[cfg(test)]
mod made;
#[cfg(test)]
mod maps;
#[cfg(test)]
mod requests;
#[cfg(test)]
mod tally;
