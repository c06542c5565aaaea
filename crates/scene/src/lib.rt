//! The input of drawing: a map, the view that shows a part of the world, and the scale of that picture.
//!
//! Proved: `Scene` gives what a picture and feature information need of the three together. These are a layer and a
//! symbol by their indices, whether a layer shows at the scale, and the class of a feature there (`class_of` of
//! `mapdefs`). `Scene` also gives where places and the parts of a feature lie on the picture (`device_point` of
//! `viewport`). Its value is the record of the three (`SceneValue`).
//!
//! Terms: a *scene* borrows its map, and owns a projection of the view. It is made once for a picture, and once for each
//! layer whose features are requested.
#![tactic(auto)]

mod classes;
mod parts;
mod scene;

pub use scene::Scene;
