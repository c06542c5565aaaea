//! Tests of the crates that read queries, by their public calls alone: each test checks a value that was worked by
//! hand, or that no clause can say.
#![tactic(auto)]

#[cfg(test)]
mod axis_orders;
#[cfg(test)]
mod messages;
#[cfg(test)]
mod queries;
#[cfg(test)]
mod service_exceptions;
