ghost use Rattle.std.specs.Prelude.{◌≡◌, All, IfOk, length, slice_get, Some, ◌<◌};
ghost use Rattle.std.specs.Option.{option_copied};
ghost use Rattle.geom.specs.Device.{pixel_of};
ghost use Rattle.labelcache.specs.Candidate.{IsTextCorner};
ghost use Rattle.scene.specs.Classes.{class_of, is_visible_layer};
ghost use Rattle.viewport.specs.View.{IsView, device_point, whole_of, window};
ghost use Rattle.compose.specs.Labels.{ArePlaced};

use geom::{Factor, Pixel, World, WorldBox};
use labelcache::{Cache, Placed};
use mapdefs::{ClassFields, FeatureFields, Font, LayerFields};
use scene::Scene;
use std::alloc::AllocError;
use std::marker::Model;

/// A scene, and the sides of what its labels are placed on, from the first pixel of its canvas on: those of the canvas, or
/// of the whole picture.
#[derive(Drop)]
pub struct LabelScene<'s, 'a> {
    scene: &'s Scene<'a>,
    columns: u16,
    rows: u16,
}

impl<'s, 'a> Model for LabelScene<'s, 'a> {
    ghost use Rattle.mapdefs.specs.contracts.expr.Expr as expr;
    ghost use Rattle.std.specs.Coded.{codes};
    ghost use Rattle.scene.specs.Scene.{SceneValue};
    ghost use Rattle.viewport.specs.View.{IsView};

    ghost Value = { SceneValue };

    ghost coded = { Prim.hlevel (codes, expr.the_row.coded) };

    ghost view = { λ s. record s.scene.now { view = record s.scene.now.view { width = s.columns; height = s.rows } } };

    ghost invariant = { λ s. IsView (record s.scene.now.view { width = s.columns; height = s.rows }) };
}

impl<'s, 'a> LabelScene<'s, 'a> {
    /// A scene whose labels are placed on its canvas.
    pub fn of_canvas(scene: &'s Scene<'a>) -> Self
        ensures { result ≡ scene.now }
    {
        let projection = scene.projection();
        // its contract says that the view is within the limits of views
        let _columns = projection.columns();
        LabelScene {
            scene,
            columns: projection.width().pixels(),
            rows: projection.height().pixels(),
        }
    }

    /// A scene whose labels are placed on the whole picture, with whose first pixel its canvas begins.
    pub fn of_whole(scene: &'s Scene<'a>) -> Self
        requires left { scene.now.view.left ≡ 0 }
        requires top { scene.now.view.top ≡ 0 }
        ensures { result ≡ record scene.now { view = whole_of scene.now.view } }
    {
        let projection = scene.projection();
        LabelScene {
            scene,
            columns: projection.columns(),
            rows: projection.rows(),
        }
    }

    /// How many columns labels are placed on.
    pub fn columns(&self) -> u16
        ensures { result ≡ self.now.view.width }
    {
        self.columns
    }

    /// How many rows labels are placed on.
    pub fn rows(&self) -> u16
        ensures { result ≡ self.now.view.height }
    {
        self.rows
    }

    /// How many pixels a map's pixel is, in both directions.
    pub fn factor(&self) -> Factor
        ensures { result ≡ self.now.view.factor }
    {
        self.scene.factor()
    }

    /// The pixel that a place lies in.
    pub fn pixel(&self, place: World) -> Pixel
        ensures { result ≡ pixel_of (device_point self.now.view place) }
    {
        self.scene.pixel(place)
    }

    /// The part of the world that shows where labels are placed.
    pub fn window(&self) -> WorldBox
        ensures value { result ≡ window self.now.view 0 }
        ensures limits { IsView self.now.view }
    {
        self.scene.projection().window_of(self.columns, self.rows)
    }

    /// The layer of an index in the map.
    pub fn layer(&self, index: usize) -> &'a LayerFields
        requires { index < length self.now.map.layers }
        ensures { slice_get self.now.map.layers index ≡ Some result.now }
    {
        self.scene.layer(index)
    }

    /// The fonts of the map's labels.
    pub fn fonts(&self) -> &'a [Font]
        ensures { result.now ≡ self.now.map.fonts }
    {
        self.scene.fonts()
    }

    /// Whether the layer shows at the scale.
    pub fn shows(&self, layer: &LayerFields) -> bool
        ensures { result ≡ is_visible_layer self.now.scale layer.now }
    {
        self.scene.shows(layer)
    }

    /// The class of a feature of the layer at the scale, if it has one.
    pub fn class_of<'l>(
        &self,
        layer: &'l LayerFields,
        feature: &FeatureFields,
    ) -> Option<&'l ClassFields>
        ensures { option_copied result ≡ class_of self.now.scale layer.now feature.now }
    {
        self.scene.class_of(layer, feature)
    }

    /// The placement of labels.
    pub fn place(&self, labels: &Cache<'_>) -> Result<Vec<Placed>, AllocError>
        ensures corners { IfOk result (λ placed. All (λ label. IsTextCorner label.at) placed.items) }
        ensures placed { IfOk result (λ placed. ArePlaced self.now.view self.now.map.fonts labels.now placed.items) }
    {
        labels.place(self.columns, self.rows, self.scene.fonts())
    }
}
