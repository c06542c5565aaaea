//! Tests of the shared map, of its administration and of workers, by their public calls alone. Each test checks a value
//! that was worked by hand, or that no clause can state. None depends on which thread runs when, and each ends without
//! help.
#![tactic(auto)]

#[cfg(test)]
mod calls;
#[cfg(test)]
mod commands;
#[cfg(test)]
mod counts;
#[cfg(test)]
mod crowds;
#[cfg(test)]
mod kept_commands;
#[cfg(test)]
mod maps;
#[cfg(test)]
mod meeting;
#[cfg(test)]
mod memory;
#[cfg(test)]
mod published;
#[cfg(test)]
mod worked_connections;
