use crate::said::said;
use std::alloc::{AllocError, Global};
use test_tables::{TableFault, check_rows};

// What a map with one layer says before its kind.
const PREFIX: &str = "\
map WMS http://localhost/wms? -180000000 -90000000 180000000 90000000 None 0
layer a a ";

// What it says between the kind and the colours of the first style.
const BEFORE_COLOURS: &str = "Polygon true - - x y false 0 - -
class all - -
style ";

// What it says after them.
const AFTER_COLOURS: &str = ", 1 1 None
style none, none, 1 1 None
";

fn cut_colours(said: &str) -> Option<&str> {
    let colours = said.strip_prefix(PREFIX)?.strip_prefix(BEFORE_COLOURS)?;
    colours.strip_suffix(AFTER_COLOURS)
}

// The map of a class with this STYLE and an empty one has these colours for the first: its colour and that
// of its outline. Any other value is shown where it differs.
fn colours_of(alloc: Global, style: &str) -> Result<String, AllocError> {
    let source = format!(in alloc;
        "MAP LAYER NAME a TYPE POLYGON CLASS STYLE {style} END STYLE END END END END"
    )?;
    let text = said(alloc, source.as_str())?;
    match cut_colours(text.as_str()) {
        Some(colours) => String::from_str(alloc, colours),
        None => Ok(text),
    }
}

// The colours of a style, a colon and what stands in the STYLE.
const COLOURS: &str = "\
none, none:
10 20 30, none:COLOR 10 20 30
10 20 30, none:color '10' \"20\" 30
0 255 254, none:COLOR 0 255 254
11 44 77, none:COLOR \"#0b2c4d\"
161 240 233, none:COLOR '#A1f0E9'
none, 10 20 30:OUTLINECOLOR 10 20 30
none, 11 44 77:outlinecolor '#0B2c4d'
40 50 60, 70 80 90:OUTLINECOLOR 70 80 90 COLOR 40 50 60
# A half goes away from zero.
0 2 3, none:COLOR 0.4 1.5 2.6
0 255 7, none:COLOR -0.4 254.6 +7
none, 1 3 255:OUTLINECOLOR 0.5 '2.6' 255.4
none, none:COLOR -1 20 30
none, none:COLOR 10 -1 30
none, none:COLOR 10 20 -1.4
none, none:OUTLINECOLOR -1 20 30
none, none:OUTLINECOLOR 10 -1.4 30
none, none:OUTLINECOLOR 10 20 -0.5
# The last one counts.
40 50 60, none:COLOR 1 2 3 COLOR 40 50 60
11 44 77, none:COLOR 1 2 3 COLOR '#0B2C4D'
none, none:COLOR '#010203' COLOR 4 5 -1
1 2 3, none:COLOR 4 5 -1 COLOR '#010203'
4 5 6, 40 50 60:OUTLINECOLOR 1 2 3 COLOR 4 5 6 OUTLINECOLOR 40 50 60
4 5 6, none:COLOR 4 5 6 OUTLINECOLOR '#010203' OUTLINECOLOR 7 8 -1
none, 1 2 3:COLOR 4 5 -1 OUTLINECOLOR 7 8 -1 OUTLINECOLOR '#010203'";

#[test]
fn styles_have_their_colours(rt: HostRuntime) -> Result<(), TableFault> {
    check_rows(rt.alloc(), COLOURS, ':', 25, colours_of)
}

fn cut_kind(said: &str) -> Option<(&str, &str)> {
    let layer = said.strip_prefix(PREFIX)?.strip_suffix(" - -\n")?;
    layer.split_once(" true - - x y false ")
}

// The kind and the tolerance of the layer with these keywords. Any other value of its map is shown where it is
// another.
fn kind_of(alloc: Global, keywords: &str) -> Result<String, AllocError> {
    let source = format!(in alloc; "MAP LAYER NAME a {keywords} END END")?;
    let text = said(alloc, source.as_str())?;
    match cut_kind(text.as_str()) {
        Some((kind, tolerance)) => format!(in alloc; "{kind} {tolerance}"),
        None => Ok(text),
    }
}

// The kind of a layer and its tolerance, a colon and what stands in the LAYER.
const KINDS: &str = "\
Point 3:TYPE POINT
Line 3:TYPE line
Polygon 0:TYPE Polygon
Point 3:TYPE 'Point'
Line 3:TYPE POLYGON TYPE LINE
Point 9:TOLERANCE 9 TYPE POINT
Line 0:TYPE LINE TOLERANCE 0
Polygon 8:TYPE POINT TOLERANCE 8 TYPE POLYGON";

#[test]
fn layers_have_their_kinds_and_tolerances(rt: HostRuntime) -> Result<(), TableFault> {
    check_rows(rt.alloc(), KINDS, ':', 8, kind_of)
}
