//! The keywords of mapfiles and their values: what a token means in a block, and after a keyword.
//!
//! Proved: `Keyword::at` finds the keyword that a token is, `role_of` what it does in a block, and
//! `value_step` reads the next token of its value. Each gives what the definition of its name has for the
//! token, by its clause. `ParseKind::number` is the number of the kind in its table. Two laws say more of
//! the definitions: that a colour is read as it is written (`laws::hex_digits_are_colour`,
//! `laws::counts_are_colour`).
//!
//! What takes no memory fails with a `Fault` alone.
//!
//! Terms: a *keyword* is a bare word of a block. A *block* opens with its keyword and closes with END. The
//! *role* of a keyword is what it does in its block. A *value* comes after the keyword that takes it. What
//! is *expected* is the value, or the next token of it.
#![tactic(auto)]

mod block_keywords;
mod capped;
mod colour;
mod config;
mod count;
mod extent;
mod fault;
mod font;
mod keyword;
mod label;
pub mod laws;
mod named;
mod number;
mod offer;
mod role;
mod rule;
mod setting;
mod smoothing;
mod symbol;
mod table;
mod texts;
mod value;

pub use block_keywords::{role_in, role_of};
pub use capped::Capped;
pub use config::font_name_at;
pub use count::Count;
pub use extent::Extent;
pub use fault::{Fault, ParseFault, ParseKind, fault_of, missing};
pub use font::FontKey;
pub use keyword::{Keyword, is_end};
pub use named::Named;
pub use role::{Block, Expected, Role};
pub use rule::ClassRule;
pub use setting::pair_expects;
pub use smoothing::Smoothing;
pub use symbol::{SymbolType, is_early_end};
pub use table::{ColourKeyword, CountKeyword, FlagKeyword, OnlyWord, ScaleKeyword, TextKeyword};
pub use texts::texts_of;
pub use value::{Value, ValueStep, coordinate_in, is_value, value_step};
