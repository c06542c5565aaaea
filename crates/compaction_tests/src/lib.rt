//! Tests of batches that are compacted, by public calls alone.
#![tactic(auto)]

#[cfg(test)]
mod left;
#[cfg(test)]
mod long;
