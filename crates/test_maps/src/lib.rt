//! Maps of tests: places, and the fields of a layer and of a map, which hold nothing but the arguments. A
//! test changes the fields that it is about. `InWindow` shows for which window features are asked.
#![tactic(auto)]

mod in_window;

ghost use Rattle.std.specs.Prelude.{◌≡◌, [], ◌∷◌, None, true, false, pos, IfOk};
ghost use Rattle.mapdefs.specs.declared.layer.Geometry.TheVariants as kind;

use geom::{Coordinate, Factor, GREATEST_COORDINATE, LEAST_COORDINATE, Micro, World, WorldBox};
pub use in_window::InWindow;
use mapdefs::{Feature, Geometry, Items, Layer, LayerFields, MapFields, SharedItems, Text};
use std::alloc::{AllocError, Global};

// A text without characters.
fn no_text(alloc: Global) -> Text
    ensures { result ≡ [] }
{
    Text::of(String::new(alloc))
}

/// The fields of a layer of polygons of that name, which is switched on and has nothing else.
pub fn layer_fields(alloc: Global, name: Text) -> LayerFields
    ensures { result ≡ record {
      name = name;
      title = [];
      kind = kind.Polygon;
      on = true;
      classitem = None;
      labelitem = None;
      items = [];
      csv_x = [];
      csv_y = [];
      queryable = false;
      tolerance = 0;
      min = None;
      max = None;
      classes = [];
      features = [];
    } }
{
    LayerFields {
        name,
        title: no_text(alloc),
        kind: Geometry::Polygon,
        on: true,
        classitem: None,
        labelitem: None,
        items: Items::new(alloc),
        csv_x: no_text(alloc),
        csv_y: no_text(alloc),
        queryable: false,
        tolerance: 0,
        min: None,
        max: None,
        classes: SharedItems::empty(),
        features: SharedItems::empty(),
    }
}

/// The features of a layer that has this one alone.
pub fn one_feature(alloc: Global, feature: Feature) -> Result<SharedItems<Feature>, AllocError>
    ensures { IfOk result (λ features. features ≡ feature ∷ []) }
{
    let mut features = Items::new(alloc);
    features.push(feature)?;
    SharedItems::new(alloc, features)
}

/// The fields of a map of four degrees by four, from the place without longitude and latitude on, with these
/// layers and nothing else.
pub fn map_fields(alloc: Global, layers: Items<Layer>) -> MapFields
    ensures { result ≡ record {
      title = [];
      url = [];
      extent = record { minx = pos 0; miny = pos 0; maxx = pos 4000000; maxy = pos 4000000 };
      png = false;
      mercator = false;
      smoothing = 1;
      fonts = [];
      symbols = [];
      layers = layers;
    } }
{
    let (zero, four) = (Micro::new(0), Micro::new(4_000_000));
    MapFields {
        title: no_text(alloc),
        url: no_text(alloc),
        extent: WorldBox::new(zero, zero, four, four),
        png: false,
        mercator: false,
        smoothing: Factor::of(1),
        fonts: SharedItems::empty(),
        symbols: SharedItems::empty(),
        layers,
    }
}

/// The place of these millionths of a degree. That of a row is within the limits.
pub fn place([x, y]: [i64; 2]) -> World {
    let x = Coordinate::new(Micro::new(x.clamp(LEAST_COORDINATE, GREATEST_COORDINATE)));
    let y = Coordinate::new(Micro::new(y.clamp(LEAST_COORDINATE, GREATEST_COORDINATE)));
    World::new(x, y)
}
