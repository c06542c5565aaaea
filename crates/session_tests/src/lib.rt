//! Tests of what the program does for its arguments: of its command line, its sessions, the files that it reads, its
//! ports and its host, by public calls alone. Each test checks a value that was worked by hand, or that no clause can
//! state.
#![tactic(auto)]

#[cfg(test)]
mod batches_over_a_port;
#[cfg(test)]
mod command_lines;
#[cfg(test)]
mod connections;
#[cfg(test)]
mod cuts;
#[cfg(test)]
mod endings;
#[cfg(test)]
mod hosts;
#[cfg(test)]
mod journals;
#[cfg(test)]
mod lives;
#[cfg(test)]
mod long_inputs;
#[cfg(test)]
mod memory;
#[cfg(test)]
mod parts;
#[cfg(test)]
mod ports;
#[cfg(test)]
mod shelf;
#[cfg(test)]
mod shelf_log;
#[cfg(test)]
mod stops;
#[cfg(test)]
mod taped_host;
#[cfg(test)]
mod texts;
#[cfg(test)]
mod timed_streams;
#[cfg(test)]
mod transcripts;
