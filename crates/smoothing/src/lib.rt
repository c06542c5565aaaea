//! Pixels of a smoothed picture, as means of the fine pixels that they are made of.
//!
//! Proved: `smooth_row` fills a row with the means of the fine pixels that the definition `smoothed` names, whatever they
//! are. Six laws say what a mean is: a channel is the nearest to its share, equal pixels stay as they are, a mean lies
//! between the least and the greatest, the order of the pixels doesn't matter, a factor of 1 changes nothing, and the
//! alpha is 0 or 255 exactly where no pixel has a colour or each has one (`specs/Laws.antt`).
//!
//! Terms: the *fine picture* is the one that is painted, the *factor* says how many of its columns and rows make one of
//! the *smoothed picture*. A *group* is four pixels of a row. The *outer* channels are red and blue, the *inner* ones
//! green and alpha: two are summed in one number.
#![tactic(auto)]

mod columns;
mod group;
pub mod laws;
mod mean;
mod row;
mod sums;

pub use row::smooth_row;
