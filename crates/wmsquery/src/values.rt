ghost use Rattle.std.specs.Prelude.{◌≡◌, ◌≤◌, ◌<◌, ◌^◌, IfOk, IfSome};
ghost use Rattle.std.specs.Option.{option_copied, option_map};
ghost use Rattle.geom.specs.Natural.{number_in, up_to};
ghost use Rattle.geom.specs.Side.{picture_side};
ghost use Rattle.geom.specs.World.{IsExtent};
ghost use Rattle.mapdefs.specs.declared.limits.TheConstants.{MAX_FEATURES};
ghost use Rattle.wmsquery.specs.Values.{fixed, service_of, operation_named, operation_of, version_of, system_of, area_of, metres_of, side_of, format_of, transparent_of, colour_of, background_of, background_for, info_format_of, count_within, feature_count_of, index_below, pixel_of, is_behind, sequence_of};

use crate::fault::Code;
use crate::lists::absent;
use crate::request::Format;
use crsaxes::{Crs, crs_of};
use geom::{PictureSide, WorldBox, read_digits};
use hex::FromHex;
use mapdefs::{MAX_FEATURES, Rgb};
use operations::Operation;

// The number that a text of digits alone stands for. A number above 2^64 counts as 2^64, which is past every limit.
fn read_number(text: &str) -> Option<u128>
    ensures { result ≡ option_map (up_to (2 ^ 64)) (number_in text.now) }
{
    read_digits(text.as_bytes(), 1 << 64)
}

// Refuses a text other than this one.
fn fixed(expected: &str, refusal: Code, text: &str) -> Result<(), Code>
    ensures { result ≡ fixed expected.now refusal text.now }
{
    if text == expected {
        Ok(())
    } else {
        Err(refusal)
    }
}

/// What SERVICE means.
pub fn service(text: Option<&str>) -> Result<(), Code>
    ensures { result ≡ service_of (option_copied text.entry) }
{
    match text {
        Some(text) => fixed("WMS", Code::InvalidParameterValue, text),
        None => Ok(()),
    }
}

// The operation with a name.
fn operation_named(name: &str) -> Option<Operation>
    ensures { result ≡ operation_named name.now }
{
    if name == Operation::Capabilities.name() {
        Some(Operation::Capabilities)
    } else if name == Operation::Map.name() {
        Some(Operation::Map)
    } else if name == Operation::Information.name() {
        Some(Operation::Information)
    } else {
        None
    }
}

/// The operation that REQUEST means.
pub fn operation(text: Option<&str>) -> Result<Operation, Code>
    ensures { result ≡ operation_of (option_copied text.entry) }
{
    let Some(name) = text else {
        return Err(Code::MissingParameterValue);
    };
    operation_named(name).ok_or(Code::OperationNotSupported)
}

/// What VERSION means.
pub fn version(text: Option<&str>) -> Result<(), Code>
    ensures { result ≡ version_of (option_copied text.entry) }
{
    match text {
        Some(text) => fixed("1.3.0", Code::InvalidParameterValue, text),
        None => Err(Code::MissingParameterValue),
    }
}

/// The coordinate reference system that CRS means, of a map that offers web mercator or doesn't.
pub fn system(mercator: bool, text: Option<&str>) -> Result<Crs, Code>
    ensures { result ≡ system_of mercator (option_copied text.entry) }
{
    match text {
        Some(name) => crs_of(mercator, name).ok_or(Code::InvalidCrs),
        None => Err(Code::MissingParameterValue),
    }
}

/// The area that BBOX means in the axis order of a system.
pub fn area(crs: Crs, text: Option<&str>) -> Result<WorldBox, Code>
    ensures value { result ≡ area_of crs (option_copied text.entry) }
    ensures extent { IfOk result IsExtent }
{
    let Some(text) = text else {
        return Err(Code::MissingParameterValue);
    };
    match crs.bbox(text) {
        Ok(area) => Ok(area),
        Err(_) => Err(Code::InvalidParameterValue),
    }
}

/// How wide the area that BBOX means is in millionths of a metre, in a system of metres.
pub fn metres(crs: Crs, text: Option<&str>) -> Option<u64>
    ensures { result ≡ metres_of crs (option_copied text.entry) }
{
    match text {
        Some(text) => crs.metres_across(text),
        None => None,
    }
}

// The side with that many pixels, if a picture may have it.
fn side_within(pixels: u128) -> Option<PictureSide>
    ensures { result ≡ picture_side pixels }
{
    match u16::try_from(pixels) {
        Ok(pixels) => PictureSide::new(pixels),
        Err(_) => None,
    }
}

/// The side that WIDTH or HEIGHT means.
pub fn side(text: Option<&str>) -> Result<PictureSide, Code>
    ensures { result ≡ side_of (option_copied text.entry) }
{
    let Some(text) = text else {
        return Err(Code::MissingParameterValue);
    };
    let Some(pixels) = read_number(text) else {
        return Err(Code::InvalidParameterValue);
    };
    side_within(pixels).ok_or(Code::InvalidParameterValue)
}

/// The format that FORMAT means, of a map that offers PNG or doesn't.
pub fn format(png: bool, operation: Operation, text: Option<&str>) -> Result<Format, Code>
    ensures { result ≡ format_of png operation (option_copied text.entry) }
{
    let Some(name) = text else {
        return absent(operation, Format::Pixmap);
    };
    if name == "image/x-portable-pixmap" {
        Ok(Format::Pixmap)
    } else if name == "image/x-portable-arbitrarymap" {
        Ok(Format::ArbitraryMap)
    } else if png && name == "image/png" {
        Ok(Format::Png)
    } else {
        Err(Code::InvalidFormat)
    }
}

/// Whether TRANSPARENT is TRUE.
pub fn transparent(text: Option<&str>) -> Result<bool, Code>
    ensures { result ≡ transparent_of (option_copied text.entry) }
{
    let Some(text) = text else {
        return Ok(false);
    };
    if text.eq_ignore_ascii_case("TRUE") {
        Ok(true)
    } else if text.eq_ignore_ascii_case("FALSE") {
        Ok(false)
    } else {
        Err(Code::InvalidParameterValue)
    }
}

// The colour that a text `0xrrggbb` stands for.
fn colour_of(text: &str) -> Option<Rgb>
    ensures { result ≡ colour_of text.now }
{
    let [b'0', b'x' | b'X', digits @ ..] = text.as_bytes() else {
        return None;
    };
    let [red, green, blue] = <[u8; 3] as FromHex>::from_hex(digits).ok()?;
    Some(Rgb { red, green, blue })
}

/// The colour that BGCOLOR means.
pub fn background(text: Option<&str>) -> Result<Rgb, Code>
    ensures { result ≡ background_of (option_copied text.entry) }
{
    match text {
        Some(text) => colour_of(text).ok_or(Code::InvalidParameterValue),
        None => Ok(Rgb {
            red: 255,
            green: 255,
            blue: 255,
        }),
    }
}

/// The background of a picture: none where the format can be transparent and the query requests that, else the
/// colour.
pub fn background_for(format: Format, transparent: bool, colour: Rgb) -> Option<Rgb>
    ensures { result ≡ background_for format transparent colour }
{
    match format {
        Format::Png | Format::ArbitraryMap if transparent => None,
        Format::Png | Format::ArbitraryMap | Format::Pixmap => Some(colour),
    }
}

/// What INFO_FORMAT means.
pub fn info_format(text: Option<&str>) -> Result<(), Code>
    ensures { result ≡ info_format_of (option_copied text.entry) }
{
    match text {
        Some(text) => fixed("text/plain", Code::InvalidFormat, text),
        None => Err(Code::MissingParameterValue),
    }
}

// The count of features that a number means.
fn count_within(number: u128) -> Option<u32>
    ensures value { result ≡ count_within number }
    ensures some { IfSome result (λ count. 1 ≤ count) }
    ensures most { IfSome result (λ count. count ≤ MAX_FEATURES) }
{
    if number == 0 {
        None
    } else {
        Some(number.min(MAX_FEATURES as u128) as u32)
    }
}

/// The count of features that FEATURE_COUNT means.
pub fn feature_count(text: Option<&str>) -> Result<u32, Code>
    ensures value { result ≡ feature_count_of (option_copied text.entry) }
    ensures some { IfOk result (λ count. 1 ≤ count) }
    ensures most { IfOk result (λ count. count ≤ MAX_FEATURES) }
{
    let Some(text) = text else {
        return Ok(1);
    };
    let Some(number) = read_number(text) else {
        return Err(Code::InvalidParameterValue);
    };
    count_within(number).ok_or(Code::InvalidParameterValue)
}

// The index of a pixel that a number means on a side of a picture.
fn index_below(side: PictureSide, number: u128) -> Option<u16>
    ensures value { result ≡ index_below side number }
    ensures within { IfSome result (λ index. index < side) }
{
    if number < u128::from(side.pixels()) {
        Some(number as u16)
    } else {
        None
    }
}

/// The column that I means in a picture of that width, or the row that J means in one of that height.
pub fn pixel(side: PictureSide, text: Option<&str>) -> Result<u16, Code>
    ensures value { result ≡ pixel_of side (option_copied text.entry) }
    ensures within { IfOk result (λ index. index < side) }
{
    let Some(text) = text else {
        return Err(Code::MissingParameterValue);
    };
    let Some(number) = read_number(text) else {
        return Err(Code::InvalidPoint);
    };
    index_below(side, number).ok_or(Code::InvalidPoint)
}

// Refuses a client that has the document of the present sequence, or of a later one.
fn is_behind(present: u64, number: u128) -> Result<(), Code>
    ensures { result ≡ is_behind present number }
{
    if number == u128::from(present) {
        Err(Code::CurrentUpdateSequence)
    } else if number < u128::from(present) {
        Ok(())
    } else {
        Err(Code::InvalidUpdateSequence)
    }
}

/// What UPDATESEQUENCE means at a sequence.
pub fn update_sequence(present: u64, text: Option<&str>) -> Result<(), Code>
    ensures { result ≡ sequence_of present (option_copied text.entry) }
{
    let Some(text) = text else {
        return Ok(());
    };
    let Some(number) = read_number(text) else {
        return Err(Code::InvalidUpdateSequence);
    };
    is_behind(present, number)
}
