//! Tests of the map machine and of connections, by their public calls alone. Each test checks a value that was worked
//! by hand, or that no clause can state.
#![tactic(auto)]

#[cfg(test)]
mod exchanges;
#[cfg(test)]
mod long_batches;
#[cfg(test)]
mod map_replies;
#[cfg(test)]
mod messages;
#[cfg(test)]
mod narrow;
#[cfg(test)]
mod refusals;
#[cfg(test)]
mod request_heads;
#[cfg(test)]
mod sinks_and_sources;
