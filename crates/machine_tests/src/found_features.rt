ghost use Rattle.std.specs.Prelude.{◌≡◌, length};

use crate::maps::map_of;
use featureinfo::{LayerHits, LayerQuery, hits, text};
use geom::{Micro, PictureSide, WorldBox};
use mapdefs::{Items, Map, Shared};
use scaledenom::Scale;
use std::alloc::{AllocError, Global};
use test_maps::InWindow;
use test_tables::{TableFault, check_rows};
use viewport::{Heights, MAX_MARGIN, View};

// A layer of three points in one pixel, with the default tolerance of a layer of points.
const POINTS: &str = "\
MAP
  LAYER
    NAME p
    TYPE POINT
    TEMPLATE t
    PROCESSING \"ITEMS=name\"
    CLASS END
    FEATURE ITEMS x POINTS 1.5 2.5 END END
    FEATURE ITEMS y POINTS 1.5 2.5 END END
    FEATURE ITEMS z POINTS 1.5 2.5 END END
  END
END
";

// The indices of features.
fn indices(alloc: Global, features: &[u32]) -> Result<String, AllocError> {
    let mut text = String::new(alloc);
    for index in features {
        let index = format!(in alloc; "{index} ")?;
        text.push_str(index.as_str())?;
    }
    Ok(text)
}

// The first hits of the layer at a pixel of four degrees by four in four pixels by four, where features are found in the
// window of that margin alone.
fn hits_in_window(alloc: Global, map: &Map, margin: u16, count: u32) -> Result<String, AllocError>
    requires { length map.now.layers ≡ 1 }
{
    let four = Micro::new(4_000_000);
    let side = PictureSide::new(4).unwrap();
    let view = View::new(
        Heights::Latitudes,
        WorldBox::new(Micro::new(0), Micro::new(0), four, four),
        side,
        side,
    );
    let window = view.window(margin.min(MAX_MARGIN));
    let near = InWindow::new(alloc, map, window);
    let scale = Scale::of(4_000_000, side);
    let query = LayerQuery {
        layer: 0,
        column: 1,
        row: 1,
        count,
    };
    match hits(alloc, map, &near, view, scale, query) {
        Ok(found) => indices(alloc, found.as_slice()),
        Err(_) => format!(in alloc; "no memory"),
    }
}

// The same for a row: a margin, and how many features are requested.
fn hits_of_row(alloc: Global, row: &str) -> Result<String, AllocError> {
    let (margin, count) = row.split_once(' ').unwrap_or(("", ""));
    let map = map_of(alloc, POINTS)?;
    if map.get().layers.len() != 1 {
        return Err(AllocError);
    }
    hits_in_window(
        alloc,
        &map,
        margin.parse().unwrap_or(0),
        count.parse().unwrap_or(0),
    )
}

// A pixel more than the tolerance, a pixel less than that, and more: up to the most, which is wider than the world.
const WINDOWS: &str = "\
0 1 =4 2
0 1 2 =4 3
0 1 2 =4 4
no memory=3 2
no memory=5 2
no memory=4096 2";

#[test]
fn features_are_looked_for_a_pixel_beyond_the_tolerance(rt: HostRuntime) -> Result<(), TableFault> {
    check_rows(rt.alloc(), WINDOWS, '=', 6, hits_of_row)
}

// The hits of a code: the index of a layer, a colon and the digits of the features.
fn hits_of(alloc: Global, code: &str) -> Result<LayerHits, AllocError> {
    let (layer, digits) = code.split_once(':').unwrap_or(("", ""));
    let mut features = Items::new(alloc);
    for digit in digits.as_bytes() {
        features.push(u32::from(digit.saturating_sub(b'0')))?;
    }
    Ok(LayerHits {
        layer: layer.parse().unwrap_or(9),
        features: Shared::new(alloc, features)?,
    })
}

// The text of the hits of a row, its line ends as `~`.
fn text_of_row(alloc: Global, row: &str) -> Result<String, AllocError> {
    let mut found = Vec::new(alloc);
    for code in row.split(' ') {
        found.push(hits_of(alloc, code)?)?;
    }
    let map = map_of(alloc, POINTS)?;
    let bytes = text(alloc, &map, &found)?;
    match str::from_utf8(bytes.as_slice()) {
        Ok(text) => text.replace(alloc, '\n', "~"),
        Err(_) => format!(in alloc; "not UTF-8"),
    }
}

// The first is the answer to a query for two of the features.
const TEXTS: &str = "\
GetFeatureInfo results:~Layer 'p'~  Feature 0:~    name = 'x'~  Feature 1:~    name = 'y'~|0:01
GetFeatureInfo results:~Layer 'p'~  Feature 2:~    name = 'z'~Layer 'p'~  Feature 0:~    name = 'x'~|0:2 0: 0:0
# a layer and a feature that the map doesn't have
GetFeatureInfo results:~Layer 'p'~  Feature 1:~    name = 'y'~|0:31 1:0";

#[test]
fn hits_have_the_lines_of_their_items(rt: HostRuntime) -> Result<(), TableFault> {
    check_rows(rt.alloc(), TEXTS, '|', 3, text_of_row)
}
