//! Tests of the turns of connections, and of the event loop over them, by their public calls alone. Each test checks a value that was worked by hand,
//! or that no clause can state.
#![tactic(auto)]

#[cfg(test)]
mod clients;
#[cfg(test)]
mod cut_streams;
#[cfg(test)]
mod event_loop;
#[cfg(test)]
mod fairness;
#[cfg(test)]
mod fakes;
#[cfg(test)]
mod hints;
#[cfg(test)]
mod logs;
#[cfg(test)]
mod room;
#[cfg(test)]
mod slow_answers;
#[cfg(test)]
mod stopping;
#[cfg(test)]
mod times;
#[cfg(test)]
mod two_workers;
#[cfg(test)]
mod waking;
#[cfg(test)]
mod ways_out;
