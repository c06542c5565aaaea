//! Class expressions: from the text of a Logic to a tree, and whether a class's rule is true of a feature.
//!
//! Proved: `read` gives the tree to which the grammar relates a text, by its clause `tree`, and refuses
//! exactly the texts that the grammar relates to none, by `fault`. What it gives is within the limits of
//! a class, by `limits`. `laws` states that no text has two trees. `holds` says whether a rule is true of
//! a feature, and `item_value` gives the value of an item.
//!
//! Terms: a *part* is what stands between ANDs or between ORs. An *operand*, or side, stands on either side of a
//! *comparison*. The *nesting* of a text counts the brackets and NOTs within one another.
#![tactic(auto)]

mod fault;
pub mod laws;
mod logic;
mod operand;
mod truth;
mod word;

pub use fault::{ExprError, ExprFault};
pub use logic::read;
pub use truth::{holds, item_value};
