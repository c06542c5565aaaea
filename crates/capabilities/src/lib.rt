//! The document that says what the service offers.
//!
//! Proved: `document` gives the document of the map at a sequence, byte by byte, by its clause. Whatever
//! the texts of the map are, its tags and attributes are those of the map with empty texts
//! (`laws::texts_change_no_tags`). A reader of XML finds in it the titles and the names of the map, and no
//! others (`laws::titles_are_read`, `laws::names_are_read`).
//!
//! Terms: an *element* is a name, a content between its tags, and the end of the line.
#![tactic(auto)]

mod element;
pub mod laws;
mod layer;
mod markup;
mod page;
mod world;

pub use page::document;
