//! The operations of a web map service, and the mime types of their answers (OGC 06-042, 7.2 to 7.4).
//!
//! Proved: `Operation::name` gives the name by which a query requests an operation, and by which the
//! capabilities document lists it; `Mime::text` the type as answers and that document have it.
#![tactic(auto)]

mod mime;
mod operation;

pub use mime::Mime;
pub use operation::Operation;
