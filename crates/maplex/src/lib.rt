//! Cuts the bytes of a mapfile into tokens.
//!
//! Proved: `Tokens::new` has the tokens and the tail that the definition `lexed` finds in the source.
//! `Tokens::next` takes the first token that is left, by its clause `token`, or reports what comes after the
//! last one, by `tail`. From then on it reports an end on that line, by `after`. `laws` states that `lexed`
//! finds the one reading of the source by its grammar, in which blanks, comments and tokens make up the source.
//! `byte_fault` finds what is wrong with a bad byte where one is the first fault of a source.
//!
//! Terms: a *separator* is a space, tab, LF, CR or form feed. A *bare word* (`Shape::Word`) is a token
//! without quotes and brackets, a *quoted text* (`Shape::Text`) one between quotes. A *logical expression*
//! (`Shape::Logic`) is one between round brackets, and a *list* (`Shape::List`) one between curly
//! brackets. A *position* in a source is the bytes that are left there, and their line. The *tail* is what
//! comes after the last token: the end of the source, or its first *fault*.
#![tactic(auto)]

mod bad_byte;
mod byte;
mod cursor;
mod extent;
mod fault;
pub mod laws;
mod logic;
mod text;
mod token;
mod tokens;

pub use bad_byte::{ByteFault, byte_fault};
pub use fault::{LexFault, LexKind, Tail};
pub use token::{Shape, TOKEN_LIMIT, Token};
pub use tokens::Tokens;
