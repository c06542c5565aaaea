//! Numbers, places and pixels: the ground that every other crate stands on.
//!
//! Proved: `Micro::read` reads the number that a decimal text means, by its clause `value`, and
//! `laws::nearest` states that this is the nearest number of millionths. `Device::pixel` rounds down,
//! `Micro::write` writes the one text of its form that means the number (`laws::one_text`),
//! and `Edge::crosses_at_or_left` decides the crossings that the even-odd rule counts. Seven laws say what
//! that rule means for edges that are turned, for rings and for two polygons (`specs/Laws.antt`).
//! `PxBox::meets` says whether two boxes share a pixel, `WorldBox::meets` whether they share a place.
//!
//! Terms: a *coordinate* is a longitude or a latitude, in millionths of a degree. A *place* is a point
//! of the world, of longitude `x` and latitude `y`. A *device point* is a point of the picture in
//! sixteenths of a pixel, from the upper left corner, to the right and down. A *pixel* is named by its
//! column `i` and its row `j`. A *side* is that of a picture or a box, an *edge* that of a ring.
#![tactic(auto)]

mod coordinate;
mod decimal;
mod device;
mod edge;
mod factor;
pub mod laws;
mod micro;
mod natural;
mod pxbox;
mod side;
mod world;
mod writing;

pub use coordinate::{Coordinate, GREATEST_COORDINATE, LEAST_COORDINATE};
pub use device::{Device, Pixel, row_centre};
pub use edge::Edge;
pub use factor::{Factor, MAX_FACTOR};
pub use micro::{COORDINATE_LIMIT, Micro, NUMBER_LIMIT, NumberFault};
pub use natural::read_digits;
pub use pxbox::PxBox;
pub use side::{MAX_PICTURE_SIDE, PictureSide};
pub use world::{World, WorldBox};
