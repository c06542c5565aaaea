//! From the world to the picture: where a place lies on the picture that shows a part of the world.
//!
//! Proved: `View::device` gives the device point of a place, rounded down to a sixteenth of a pixel,
//! and `View::pixel` the pixel that it lies in. `laws::sixteenths` says what rounded down means.
//! A place outside of the area has its device point too, off the picture. `Projection` gives the same
//! points and pixels, by a product and a shift where a view divides: `laws::products` says why that is
//! the quotient. `View::window` gives the part of the world that the canvas and a margin show, and
//! `laws::window` says which places lie in it. `Fine` is the picture that shows the same so many times
//! as fine, and its blocks are views, too: by `laws::blocks` their points are those of the whole, moved.
//!
//! Terms: the *area* of a view is the part of the world that it shows, its *columns* and *rows* the
//! sides of the whole picture in pixels, and its *width* and *height* those of its *canvas*, which is a
//! block of that picture: it begins with the column *left* and the row *top*. A map's pixel is *factor*
//! pixels of the picture in both directions. A *projection* is a view that has divided once for each of its two
//! *axes*, and serves many places.
#![tactic(auto)]

mod axis;
mod fine;
mod heights;
pub mod laws;
mod projection;
mod view;

pub use fine::{Fine, Stretch};
pub use heights::Heights;
pub use projection::Projection;
pub use view::{MAX_MARGIN, View};
