ghost use Rattle.std.specs.Prelude.{◌≡◌, ◌<◌, ◌≤◌, Some, IfOk, length, map, slice_get, vec_items};
ghost use Rattle.std.specs.Option.{option_copied};
ghost use Rattle.geom.specs.Device.{pixel_of};
ghost use Rattle.scene.specs.Classes.{class_of, is_visible_layer};
ghost use Rattle.viewport.specs.View.{IsView, device_point, points_of, window};
ghost use Rattle.viewport.specs.declared.view.TheConstants.{MAX_MARGIN};

use crate::classes::first_class;
use crate::parts::points_of_parts;
use geom::{Device, Factor, Pixel, World, WorldBox};
use mapdefs::{ClassFields, FeatureFields, Font, LayerFields, Map, Part, Symbol};
use scaledenom::Scale;
use std::alloc::{AllocError, Global};
use std::marker::Model;
use viewport::{Projection, View};

/// The input of drawing: a map, the view of a picture, and the scale at which layers and classes show.
#[derive(Drop)]
pub struct Scene<'a> {
    map: &'a Map,
    projection: Projection,
    scale: Scale,
}

impl<'a> Model for Scene<'a> {
    ghost use Rattle.mapdefs.specs.contracts.expr.Expr as expr;
    ghost use Rattle.std.specs.Coded.{codes};
    ghost use Rattle.scene.specs.Scene.{SceneValue};

    ghost Value = { SceneValue };

    ghost coded = { Prim.hlevel (codes, expr.the_row.coded) };

    ghost view = { λ s. record { map = s.map.now; view = s.projection; scale = s.scale } };
}

impl<'a> Scene<'a> {
    /// The scene of a map in a view, at a scale.
    pub fn new(map: &'a Map, view: View, scale: Scale) -> Self
        ensures { result ≡ record { map = map.now; view = view; scale = scale } }
    {
        Scene {
            map,
            projection: Projection::new(view),
            scale,
        }
    }

    /// The view, prepared for many places.
    pub fn projection(&self) -> &Projection
        ensures { result.now ≡ self.now.view }
    {
        &self.projection
    }

    /// How many pixels of the picture a map's pixel is, in both directions.
    pub fn factor(&self) -> Factor
        ensures { result ≡ self.now.view.factor }
    {
        self.projection.factor()
    }

    /// The layer of an index in the map.
    pub fn layer(&self, index: usize) -> &'a LayerFields
        requires { index < length self.now.map.layers }
        ensures { slice_get self.now.map.layers index ≡ Some result.now }
    {
        self.map.get().layers.as_slice()[index].get()
    }

    /// The fonts of the map's labels.
    pub fn fonts(&self) -> &'a [Font]
        ensures { result.now ≡ self.now.map.fonts }
    {
        self.map.get().fonts.as_slice()
    }

    /// The symbols of the map.
    pub fn symbols(&self) -> &[Symbol]
        ensures { result.now ≡ self.now.map.symbols }
    {
        self.map.get().symbols.as_slice()
    }

    /// The part of the world that the canvas shows, and `margin` pixels on each side of it.
    pub fn window(&self, margin: u16) -> WorldBox
        requires { margin ≤ MAX_MARGIN }
        ensures value { result ≡ window self.now.view margin }
        ensures limits { IsView self.now.view }
    {
        self.projection.window(margin)
    }

    /// The symbol of an index in the map, if there is one.
    pub fn symbol(&self, index: usize) -> Option<&Symbol>
        ensures { option_copied result ≡ slice_get self.now.map.symbols index }
    {
        self.map.get().symbols.as_slice().get(index)
    }

    /// Whether the layer shows at the scale.
    pub fn shows(&self, layer: &LayerFields) -> bool
        ensures { result ≡ is_visible_layer self.now.scale layer.now }
    {
        self.scale.within(layer.min, layer.max)
    }

    /// The class of a feature of the layer at the scale: the first one that it may be of.
    pub fn class_of<'l>(
        &self,
        layer: &'l LayerFields,
        feature: &FeatureFields,
    ) -> Option<&'l ClassFields>
        ensures { option_copied result ≡ class_of self.now.scale layer.now feature.now }
    {
        first_class(self.scale, layer, feature)
    }

    /// The pixel that a place lies in, in the picture or off it.
    pub fn pixel(&self, place: World) -> Pixel
        ensures { result ≡ pixel_of (device_point self.now.view place) }
    {
        self.projection.pixel(place)
    }

    /// The parts of a feature on the picture: each vertex at its device point.
    pub fn points_of(&self, alloc: Global, parts: &[Part]) -> Result<Vec<Vec<Device>>, AllocError>
        ensures { IfOk result (λ points. map vec_items points.items ≡ points_of self.now.view parts.now) }
    {
        points_of_parts(alloc, &self.projection, parts)
    }
}
