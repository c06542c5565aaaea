//! What a query means: a request, or the first fault by the order of refusal.
//!
//! Proved: `read` gives the request that a query makes of a map at a sequence (clause `request`), or the
//! fault of the first parameter that is refused (`fault`). What a request names exists: its layers are in
//! the map, its area is one within the world, its pixel is in the picture (`within`). A query means one
//! request or one fault (`laws::one_meaning`). The fault doesn't depend on the parameters that come after its
//! own in the order of refusal (`laws::later_parameters_change_nothing`). A query that is written out from a
//! request means it (`laws::written_requests`).
//!
//! Terms: a *pair* is a name and a value of a query. The *text* of a parameter is the value of the first pair
//! with its name. It *means* a value, or a code refuses it. The *order of refusal* of an operation is the order in
//! which its parameters are checked. The first that is refused is at fault.
#![tactic(auto)]

mod error;
mod exception;
mod fault;
mod information;
pub mod laws;
mod lists;
mod picture;
mod query;
mod request;
mod texts;
mod values;

pub use error::QueryError;
pub use exception::report;
pub use fault::{Code, Parameter, WmsFault};
pub use lists::MAX_NAMES;
pub use query::read;
pub use request::{Format, InformationRequest, MapRequest, Request};
