//! Reads mapfiles: from the bytes of a source to what its blocks say, as a tree, or to its first fault.
//!
//! Proved: `read` gives the tree or the fault that the definition `tree_of` has for the source, by its
//! clauses `tree` and `fault`. `tree_of` is what the blocks of the source say. A block is the list of its
//! entries, and what a token says depends on the entries of its own block and of the parent alone.
//! `mapwords` says what a single token means. Three laws say more of the definitions. A mapfile that is
//! written out from what it says is read as that (`laws::written_mapfile_is_read`). What follows a fault
//! doesn't change it (`laws::first_fault_is_reported`). Where the definition of reading bounds the tokens
//! that it reads, a bound beyond those that there are changes nothing (`laws::count_is_enough`). The
//! reader goes over the tokens once, with a draft for each kind of block; that this gives what the blocks
//! say is a theorem (`proofs/OnePass`).
//!
//! `Drafts::read_token` is the step of that reader, for those that read up to a fault and look at what is open.
//!
//! What takes no memory fails with a `Fault` alone.
//!
//! Terms: a *context* is what a token is read as: a keyword of a block, a value, or a latitude. The
//! *drafts* are what was read of the open blocks, and the *tree* is the whole mapfile as it is written.
//! The *tail* is what comes after the last token.
#![tactic(auto)]

mod context;
mod draft;
mod end;
mod files;
pub mod laws;
mod mapfile;
mod outline;
mod parts;
mod reader;
mod smoothing;
mod step;
mod symbol;
mod tree;

pub use context::{Context, Move};
pub use draft::Drafts;
pub use mapfile::read;
pub use mapwords::{Capped, ClassRule, Extent, FontKey, Named, ParseFault, ParseKind};
pub use outline::outline_width_of;
pub use parts::Parts;
pub use smoothing::factor_in;
pub use symbol::symbol_of;
pub use tree::{ClassTree, FeatureTree, LayerBody, LayerTree, MapTree, SymbolTree, UsedFile};
