//! Pixmaps: read from Netpbm's P6 format, stamped on the picture, and pictures written in that format and in
//! that of arbitrary maps, P7.
//!
//! Proved: `read` gives the pixmap that some bytes are or their first fault, by its clauses `pixmap` and `fault`, which
//! cite `pixmap_of`. `Stamp` is a cover, transparent where the pixmap is 255 0 255, and `Stamp::colour` the pixmap's
//! colour there; `Stamp::row_pixels` gives what falls into a row at once. `write_ppm` and `write_pam` give the bytes of
//! a picture, `write_smooth_ppm` and `write_smooth_pam` those of a smoothed one. `laws::files` states that a file is
//! read as the parts that it is made of. `laws::pictures` states that a small picture is read as it was written,
//! `laws::maps` that an arbitrary map shows the picture that it is of.
//!
//! Terms: a *pixmap* is the picture of a symbol. To *stamp* it is to lay it on the picture round a pixel.
//! *Blanks* are the white space and the comments between two numbers of a header.
#![tactic(auto)]

mod fault;
mod header;
pub mod laws;
mod netpbm;
mod pam;
mod pixels;
mod smooth;
mod stamp;

pub use fault::PixFault;
pub use netpbm::write_ppm;
pub use pam::write_pam;
pub use pixels::read;
pub use smooth::{write_smooth_pam, write_smooth_ppm};
pub use stamp::{RowPixels, Stamp, is_transparent};

// How many pixels are written at once: so many that their bytes are added in few steps a pixel.
const BLOCK: usize = 32;
