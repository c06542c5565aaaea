ghost use Rattle.std.specs.Prelude.{◌≡◌, ◌++◌, ◌*◌, IfOk, OnOk};
ghost use Rattle.std.specs.Fmt.{decimal};
ghost use Rattle.std.specs.List.{flat_map};
ghost use Rattle.mapwarnings.specs.Bitmap.{least_of};
ghost use Rattle.mapwarnings.specs.Lines.{bitmap_line, factor_words, found_size, keyword_of, least_words, marked, shown_size, side_of, size_message, subject_of, wanted_size, wanted_words, warning_line, warning_lines};

use crate::bitmap::{Bitmap, SmallBitmap, small_bitmaps};
use crate::warning::{Warning, warnings};
use itoa::Buffer;
use mapdefs::{Items, Map};
use std::alloc::{AllocError, Global};

// Adds a number in decimal digits.
fn add_number(out: &mut Vec<u8>, number: u16) -> Result<(), AllocError>
    ensures { OnOk result (out.new.items ≡ out.old.items ++ decimal number) }
{
    out.extend_from_slice(Buffer::new().format(number).as_bytes())
}

// Adds what a warning is about.
#[tactic(auto, unfolding(crate::specs::Lines::subject_of))]
fn add_subject(out: &mut Vec<u8>, layer: Option<usize>) -> Result<(), AllocError>
    ensures { OnOk result (out.new.items ≡ out.old.items ++ subject_of layer) }
{
    match layer {
        Some(number) => {
            out.extend_from_slice(b"LAYER ")?;
            out.extend_from_slice(Buffer::new().format(number).as_bytes())
        }
        None => out.extend_from_slice(b"the service"),
    }
}

// The bytes between the name of a mapfile and a warning.
#[tactic(auto, unfolding(crate::specs::Lines::marked))]
fn mark() -> &'static str
    ensures { result.now ≡ marked }
{
    ": warning: "
}

// Adds the line of a warning on the service or a layer.
#[tactic(auto, unfolding(crate::specs::Lines::warning_line))]
fn add_line(out: &mut Vec<u8>, name: &str, warning: Warning) -> Result<(), AllocError>
    ensures { OnOk result (out.new.items ≡ out.old.items ++ warning_line name.now warning) }
{
    out.extend_from_slice(name.as_bytes())?;
    out.extend_from_slice(mark().as_bytes())?;
    add_subject(out, warning.layer)?;
    out.extend_from_slice(warning.concern.message().as_bytes())?;
    out.extend_from_slice(b"\n")
}

// Adds the lines of warnings on the service and layers.
fn add_lines(out: &mut Vec<u8>, name: &str, warnings: &[Warning]) -> Result<(), AllocError>
    ensures { OnOk result (out.new.items ≡ out.old.items ++ flat_map (warning_line name.now) warnings.now) }
{
    for warning in warnings {
        add_line(out, name, *warning)?;
    }
    Ok(())
}

// Adds the keyword of a bitmap, and its number where there are several.
#[tactic(auto, unfolding(crate::specs::Lines::keyword_of))]
fn add_keyword(out: &mut Vec<u8>, bitmap: Bitmap) -> Result<(), AllocError>
    ensures { OnOk result (out.new.items ≡ out.old.items ++ keyword_of bitmap) }
{
    match bitmap {
        Bitmap::Symbol(number) => {
            out.extend_from_slice(b"SYMBOL ")?;
            out.extend_from_slice(Buffer::new().format(number).as_bytes())
        }
        Bitmap::OnlyFont => out.extend_from_slice(b"LABELFONT"),
        Bitmap::Font(number) => {
            out.extend_from_slice(b"LABELFONT ")?;
            out.extend_from_slice(Buffer::new().format(number).as_bytes())
        }
    }
}

// Which side of a bitmap is measured, in a message.
#[tactic(auto, unfolding(crate::specs::Lines::side_of))]
fn side(bitmap: Bitmap) -> &'static str
    ensures { result.now ≡ side_of bitmap }
{
    match bitmap {
        Bitmap::OnlyFont | Bitmap::Font(_) => " pixels high",
        Bitmap::Symbol(_) => " pixels long",
    }
}

// Adds how large a bitmap is.
#[tactic(auto, unfolding(crate::specs::Lines::found_size))]
fn add_found_size(out: &mut Vec<u8>, small: SmallBitmap) -> Result<(), AllocError>
    ensures { OnOk result (out.new.items ≡ out.old.items ++ found_size small) }
{
    out.extend_from_slice(b" is ")?;
    add_number(out, small.size)?;
    out.extend_from_slice(side(small.bitmap).as_bytes())
}

// The words before the factor of a map, in a message on a bitmap.
#[tactic(auto, unfolding(crate::specs::Lines::factor_words))]
fn factor_words() -> &'static str
    ensures { result.now ≡ factor_words }
{
    ", which WMS_SMOOTHING "
}

// The words before the size below which it is shown.
#[tactic(auto, unfolding(crate::specs::Lines::least_words))]
fn least_words() -> &'static str
    ensures { result.now ≡ least_words }
{
    " shows as less than "
}

// The words before the size that would do.
#[tactic(auto, unfolding(crate::specs::Lines::wanted_words))]
fn wanted_words() -> &'static str
    ensures { result.now ≡ wanted_words }
{
    ": bring one of "
}

// Adds what a map makes of a bitmap.
fn add_shown_size(out: &mut Vec<u8>, small: SmallBitmap) -> Result<(), AllocError>
    ensures { OnOk result (out.new.items ≡ out.old.items ++ shown_size small) }
{
    out.extend_from_slice(factor_words().as_bytes())?;
    add_number(out, u16::from(small.factor))?;
    out.extend_from_slice(least_words().as_bytes())?;
    add_number(out, small.bitmap.least())
}

// Adds the size that would do.
#[tactic(auto, unfolding(crate::specs::Lines::wanted_size))]
fn add_wanted_size(out: &mut Vec<u8>, small: SmallBitmap) -> Result<(), AllocError>
    ensures { OnOk result (out.new.items ≡ out.old.items ++ wanted_size small) }
{
    out.extend_from_slice(wanted_words().as_bytes())?;
    add_number(out, u16::from(small.factor) * small.bitmap.least())?;
    out.extend_from_slice(b" or more")
}

// Adds the message on a bitmap that is shown too small.
fn add_size(out: &mut Vec<u8>, small: SmallBitmap) -> Result<(), AllocError>
    ensures { OnOk result (out.new.items ≡ out.old.items ++ size_message small) }
{
    add_found_size(out, small)?;
    add_shown_size(out, small)?;
    add_wanted_size(out, small)
}

// Adds the line of a bitmap that is shown too small.
#[tactic(auto, unfolding(crate::specs::Lines::bitmap_line))]
fn add_bitmap_line(out: &mut Vec<u8>, name: &str, small: SmallBitmap) -> Result<(), AllocError>
    ensures { OnOk result (out.new.items ≡ out.old.items ++ bitmap_line name.now small) }
{
    out.extend_from_slice(name.as_bytes())?;
    out.extend_from_slice(mark().as_bytes())?;
    add_keyword(out, small.bitmap)?;
    add_size(out, small)?;
    out.extend_from_slice(b"\n")
}

// Adds the lines of bitmaps that are shown too small.
fn add_bitmap_lines(
    out: &mut Vec<u8>,
    name: &str,
    bitmaps: &[SmallBitmap],
) -> Result<(), AllocError>
    ensures { OnOk result (out.new.items ≡ out.old.items ++ flat_map (bitmap_line name.now) bitmaps.now) }
{
    for small in bitmaps {
        add_bitmap_line(out, name, *small)?;
    }
    Ok(())
}

/// The lines of the warnings on a map, each with the name of the mapfile before it: on the service, on its layers, and on
/// its bitmaps. The error is that memory was refused.
pub fn warning_lines(alloc: Global, name: &str, map: &Map) -> Result<Items<u8>, AllocError>
    ensures { IfOk result (λ text. text ≡ warning_lines name.now map.now) }
{
    let warnings = warnings(alloc, map)?;
    let bitmaps = small_bitmaps(alloc, map)?;
    let mut out = Vec::new(alloc);
    add_lines(&mut out, name, &warnings)?;
    add_bitmap_lines(&mut out, name, &bitmaps)?;
    Ok(Items::of(out))
}
