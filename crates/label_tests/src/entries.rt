ghost use Rattle.std.specs.Prelude.{◌≤◌, ◌^◌};
ghost use Rattle.collide.specs.declared.marks.TheConstants.{MAX_SIDE};
ghost use Rattle.geom.specs.Range.{IsBelow};
ghost use Rattle.labelcache.specs.Candidate.{IsAnchor};

use bdffont::is_short;
use geom::{Factor, PictureSide, Pixel};
use labelcache::{Cache, Candidate, MAX_SIDE, Placed};
use mapdefs::{Font, Label, LabelFields, Position, Rgb};
use std::alloc::{AllocError, Global};

/// A candidate as a test has it, with a label of its own, where a pixel of the map is so many pixels.
#[derive(Drop)]
pub(crate) struct Entry {
    pub(crate) text: &'static str,
    pub(crate) i: i64,
    pub(crate) j: i64,
    pub(crate) label: Label,
    pub(crate) factor: Factor,
}

impl Entry {
    /// So many pixels of the map, in pixels.
    pub(crate) fn fine(&self, pixels: i64) -> i64 {
        i64::from(self.factor.times()).wrapping_mul(pixels)
    }
}

/// The defaults of a label in the first font, in the middle round its anchor.
pub(crate) fn plain_label() -> LabelFields {
    LabelFields {
        colour: Some(Rgb {
            red: 10,
            green: 20,
            blue: 30,
        }),
        outline: None,
        outline_width: 1,
        font: Some(0),
        lacks_font: false,
        priority: 1,
        position: Position::Centre,
        buffer: 0,
        mindistance: 0,
        partials: false,
        force: false,
    }
}

/// The label of fields, which are brought within the limits.
pub(crate) fn label_of(fields: LabelFields) -> Label {
    Label::new(LabelFields {
        outline_width: fields.outline_width.clamp(1, 8),
        priority: fields.priority.clamp(1, 10),
        buffer: fields.buffer.min(64),
        mindistance: fields.mindistance.min(4_096),
        ..fields
    })
}

/// The side of a picture. That of a row is within the limits.
pub(crate) fn side(pixels: i64) -> PictureSide {
    PictureSide::new(pixels.clamp(1, 2_048) as u16).unwrap()
}

/// The side of what labels are placed on. That of a row is within the limits.
pub(crate) fn page_side(pixels: i64) -> u16
    ensures { result ≤ MAX_SIDE }
{
    (pixels.clamp(1, 8_192) as u16).min(MAX_SIDE)
}

// A column or a row of an anchor. That of a row is within the limits.
fn within(index: i64) -> i64
    ensures { IsBelow (2 ^ 32) result }
{
    index.clamp(-4_294_967_295, 4_294_967_295)
}

// The anchor of a column and a row.
fn anchor(i: i64, j: i64) -> Pixel
    requires column { IsBelow (2 ^ 32) i }
    requires row { IsBelow (2 ^ 32) j }
    ensures { IsAnchor result }
{
    Pixel::new(i, j)
}

// Adds a candidate, if its text is short.
fn add_one<'a>(
    cache: &mut Cache<'a>,
    text: &'a str,
    at: Pixel,
    entry: &'a Entry,
) -> Result<(), AllocError>
    requires at { IsAnchor at }
{
    if is_short(text) {
        cache.add(Candidate::new(text, at, entry.label.get(), entry.factor))?;
    }
    Ok(())
}

/// Adds each entry as a candidate.
pub(crate) fn add_all<'a>(cache: &mut Cache<'a>, entries: &'a [Entry]) -> Result<(), AllocError> {
    for entry in entries {
        add_one(
            cache,
            entry.text,
            anchor(within(entry.i), within(entry.j)),
            entry,
        )?;
    }
    Ok(())
}

/// The labels of the entries that are placed, in their fonts of these, on a picture of that width and height.
pub(crate) fn placed_of(
    alloc: Global,
    width: u16,
    height: u16,
    fonts: &[Font],
    entries: &[Entry],
) -> Result<Vec<Placed>, AllocError>
    requires width { width ≤ MAX_SIDE }
    requires height { height ≤ MAX_SIDE }
{
    let mut cache = Cache::new(alloc);
    add_all(&mut cache, entries)?;
    cache.place(width, height, fonts)
}
