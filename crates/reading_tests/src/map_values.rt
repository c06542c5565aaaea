ghost use Rattle.std.specs.Prelude.{◌≡◌, ◌≤◌, [], length, All};
ghost use Rattle.mapdefs.specs.MapLimits.{LayerNamesSymbolsOf};
ghost use Rattle.mapdefs.specs.declared.limits.TheConstants.{MAX_LAYERS};

use geom::PictureSide;
use mapdefs::{
    Items, Layer, MAX_BUFFER, MAX_CLASSES, MAX_DISTANCE, MAX_FEATURES, MAX_GLYPH_SIDE, MAX_GLYPHS,
    MAX_ITEMS, MAX_LAYERS, MAX_LINE_WIDTH, MAX_NESTING, MAX_PRIORITY, MAX_SQUARE, MAX_STYLES,
    MAX_SYMBOL_SIDE, MAX_SYMBOLS, MAX_TOLERANCE, MAX_VERTICES, Map, Picture, PictureFields,
    PixelColour, Rgb, Text,
};
use std::alloc::{AllocError, Global};
use test_maps::{layer_fields, map_fields};
use test_tables::{TableFault, check_rows};

fn layer(alloc: Global, name: Text) -> Layer
    ensures { result.classes ≡ [] }
{
    Layer::new(layer_fields(alloc, name))
}

fn map_of(alloc: Global, layers: Vec<Layer>) -> Map
    requires count { length layers.items ≤ MAX_LAYERS }
    requires symbols { All (LayerNamesSymbolsOf 0) layers.items }
{
    Map::new(map_fields(alloc, Items::of(layers)))
}

// A map of the layers `rivers`, `roads`, `rivers` again, and one without a name.
fn test_map(alloc: Global) -> Result<Map, AllocError> {
    let rivers = Text::from_str(alloc, "rivers")?;
    let roads = Text::from_str(alloc, "roads")?;
    let others = Text::from_str(alloc, "rivers")?;
    let unnamed = Text::of(String::new(alloc));
    let layers = vec![in alloc;
        layer(alloc, rivers),
        layer(alloc, roads),
        layer(alloc, others),
        layer(alloc, unnamed),
    ]?;
    Ok(map_of(alloc, layers))
}

// The index of a layer in that map.
fn found(alloc: Global, name: &str) -> Result<String, AllocError> {
    let map = test_map(alloc)?;
    let index = map.find(name.as_bytes());
    drop(map);
    format!(in alloc; "{index:?}")
}

// The indices at which names are found.
const NAMES: &str = "\
Some(0)=rivers
Some(1)=roads
Some(3)=
None=Rivers
None=rivers\x20
None=river";

#[test]
fn layers_are_found_by_the_first_of_their_names(rt: HostRuntime) -> Result<(), TableFault> {
    check_rows(rt.alloc(), NAMES, '=', 6, found)
}

// A pixel of a colour with this much red and green.
fn pixel(red: u8, green: u8) -> PixelColour {
    PixelColour::new(Some(Rgb {
        red,
        green,
        blue: 30,
    }))
}

// What the pixels of a picture of three columns and two rows have, column by column.
fn columns(alloc: Global) -> Result<[Option<Rgb>; 6], AllocError> {
    let pixels = Vec::from_array(
        alloc,
        [
            pixel(10, 20),
            pixel(11, 20),
            pixel(12, 20),
            pixel(10, 21),
            PixelColour::new(None),
            pixel(12, 21),
        ],
    )?;
    let picture = Picture::new(PictureFields {
        width: PictureSide::new(3).unwrap(),
        height: PictureSide::new(2).unwrap(),
        pixels: Items::of(pixels),
    });
    Ok([
        picture.at(0, 0),
        picture.at(0, 1),
        picture.at(1, 0),
        picture.at(1, 1),
        picture.at(2, 0),
        picture.at(2, 1),
    ])
}

// The colours of the columns, each with its two rows.
const PIXELS: &str = "10 20 30, 10 21 30, 11 20 30, nothing, 12 20 30, 12 21 30, =";

fn colours_of_columns(alloc: Global, _row: &str) -> Result<String, AllocError> {
    let mut text = String::new(alloc);
    for pixel in columns(alloc)? {
        match pixel {
            Some(Rgb { red, green, blue }) => write!(text, "{red} {green} {blue}, ")?,
            None => text.push_str("nothing, ")?,
        }
    }
    Ok(text)
}

#[test]
fn pictures_are_read_by_column_and_row(rt: HostRuntime) -> Result<(), TableFault> {
    check_rows(rt.alloc(), PIXELS, '=', 1, colours_of_columns)
}

// A definition cites the same constant as the code, so only a test can find a wrong limit. Counts, and
// lengths in pixels with the priority.
const LIMITS: &str = "\
[128, 64, 64, 64, 200000, 16, 64, 65536, 65536]=counts
[64, 32, 256, 256, 10, 64, 4096, 64]=pixels";

fn limits(alloc: Global, name: &str) -> Result<String, AllocError> {
    if name == "counts" {
        let counts = [
            MAX_LAYERS,
            MAX_SYMBOLS,
            MAX_CLASSES,
            MAX_ITEMS,
            MAX_FEATURES,
            MAX_STYLES,
            MAX_NESTING,
            MAX_VERTICES,
            MAX_GLYPHS,
        ];
        format!(in alloc; "{counts:?}")
    } else {
        let pixels = [
            u16::from(MAX_TOLERANCE),
            u16::from(MAX_LINE_WIDTH),
            MAX_SQUARE,
            MAX_SYMBOL_SIDE,
            u16::from(MAX_PRIORITY),
            u16::from(MAX_BUFFER),
            MAX_DISTANCE,
            u16::from(MAX_GLYPH_SIDE),
        ];
        format!(in alloc; "{pixels:?}")
    }
}

#[test]
fn limits_have_their_numbers(rt: HostRuntime) -> Result<(), TableFault> {
    check_rows(rt.alloc(), LIMITS, '=', 2, limits)
}
