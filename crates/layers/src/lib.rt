//! The layers of a map as they are served: switched, extended and emptied, and searched for features in a window.
//!
//! Proved: `switch`, `append` and `clear` of `Layers` change the layer with a name as their clauses
//! say and nothing else, or are refused and change nothing. So do the changes of a `Draft`, whose
//! `into_layers` gives the layers with all of them. `copy` gives equal layers of their own.
//! `Layers` keeps the law of `Near`: the candidates of a layer are all features whose box meets the
//! window.
//!
//! Terms: a row of a table is *fitted* to a layer where it has a value for each item of the layer. The *box* of a
//! feature is that of its points. Each layer has a *grid* of the boxes of its features. In a draft, features *wait*
//! beside the layer that they are to be added to.
#![tactic(auto)]

mod boxes;
mod draft;
mod fault;
mod grids;
mod layers;
mod values;

pub use draft::Draft;
pub use fault::{ChangeError, Refusal};
pub use layers::Layers;
