//! Tests of the crates that read mapfiles, by their public calls alone: each test checks a value that was worked
//! by hand, or that no clause can say.
#![tactic(auto)]

#[cfg(test)]
mod block_keywords;
#[cfg(test)]
mod discs;
#[cfg(test)]
mod explained;
#[cfg(test)]
mod faults;
#[cfg(test)]
mod file_messages;
#[cfg(test)]
mod fonts;
#[cfg(test)]
mod keywords;
#[cfg(test)]
mod layer_tables;
#[cfg(test)]
mod limits;
#[cfg(test)]
mod map;
#[cfg(test)]
mod messages;
#[cfg(test)]
mod pixmaps;
#[cfg(test)]
mod results;
#[cfg(test)]
mod said;
#[cfg(test)]
mod small_bitmaps;
#[cfg(test)]
mod styles;
#[cfg(test)]
mod unused;
#[cfg(test)]
mod warned;
