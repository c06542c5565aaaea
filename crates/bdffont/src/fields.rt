ghost use Rattle.std.specs.Prelude.{◌≡◌, ◌≤◌};
ghost use Rattle.geom.specs.Decimal.{signed};
ghost use Rattle.mapdefs.specs.declared.limits.TheConstants.{MAX_FINE_GLYPH_SIDE};
ghost use Rattle.bdffont.specs.Fields.{is_small, are_small, box_of, numbers_at, box_at, encoding_at, advance_at, count_at};

use crate::fault::FontKind;
use crate::number::{WholeNumber, number_at};
use crate::small_box::SmallBox;
use mapdefs::BitmapBox;

/// The encoding of a glyph.
#[derive(Clone, Copy)]
pub enum Encoding {
    /// A number that no character has, below 0 or past 32 bits: the glyph is no character of the font.
    NoCharacter,
    /// A character's number.
    Character(u32),
}

// Whether a side or an offset is within its limit.
fn is_small(most: u8, number: WholeNumber) -> bool
    ensures { result ≡ is_small most number }
{
    number.size <= u64::from(most)
}

// A number as an offset.
fn offset_of(number: WholeNumber) -> i16
    requires { number.size ≤ MAX_FINE_GLYPH_SIDE }
    ensures { result ≡ signed number.is_negative number.size }
{
    let size = number.size as i16;
    if number.is_negative { -size } else { size }
}

// The numbers of a box.
#[derive(Clone, Copy)]
struct BoxNumbers {
    width: WholeNumber,
    height: WholeNumber,
    xoff: WholeNumber,
    yoff: WholeNumber,
}

// Whether all four are within their limit.
fn are_small(most: u8, numbers: BoxNumbers) -> bool
    ensures { result ≡ are_small most numbers }
{
    is_small(most, numbers.width)
        && is_small(most, numbers.height)
        && is_small(most, numbers.xoff)
        && is_small(most, numbers.yoff)
}

// The box of a width, a height and two offsets, with this limit.
fn box_of(most: u8, numbers: BoxNumbers) -> Result<SmallBox, FontKind>
    ensures { result ≡ box_of most numbers }
{
    if numbers.width.is_negative || numbers.height.is_negative {
        return Err(FontKind::Field);
    }
    if are_small(most, numbers) {
        Ok(SmallBox::new(BitmapBox {
            width: numbers.width.size as u8,
            height: numbers.height.size as u8,
            xoff: offset_of(numbers.xoff),
            yoff: offset_of(numbers.yoff),
        }))
    } else {
        Err(FontKind::Limit)
    }
}

// The numbers of a line's box, if all four are there.
fn numbers_at(line: &[u8]) -> Option<BoxNumbers>
    ensures { result ≡ numbers_at line.now }
{
    Some(BoxNumbers {
        width: number_at(line, 1)?,
        height: number_at(line, 2)?,
        xoff: number_at(line, 3)?,
        yoff: number_at(line, 4)?,
    })
}

/// The box that the four words after the keyword give, with sides and offsets of at most so many pixels.
pub fn box_at(most: u8, line: &[u8]) -> Result<SmallBox, FontKind>
    ensures { result ≡ box_at most line.now }
{
    match numbers_at(line) {
        Some(numbers) => box_of(most, numbers),
        None => Err(FontKind::Field),
    }
}

/// The encoding that the word after the keyword gives.
pub fn encoding_at(line: &[u8]) -> Result<Encoding, FontKind>
    ensures { result ≡ encoding_at line.now }
{
    match number_at(line, 1) {
        Some(number) if number.is_negative || number.size >= 1 << 32 => Ok(Encoding::NoCharacter),
        Some(number) => Ok(Encoding::Character(number.size as u32)),
        None => Err(FontKind::Field),
    }
}

/// The advance that the first of the two words after the keyword gives.
pub fn advance_at(line: &[u8]) -> Result<u8, FontKind>
    ensures { result ≡ advance_at line.now }
{
    match (number_at(line, 1), number_at(line, 2)) {
        (Some(across), Some(_)) if !across.is_negative && across.size < 256 => {
            Ok(across.size as u8)
        }
        _ => Err(FontKind::Field),
    }
}

/// The count that the word after the keyword gives.
pub fn count_at(line: &[u8]) -> Result<u64, FontKind>
    ensures { result ≡ count_at line.now }
{
    match number_at(line, 1) {
        Some(number) if !number.is_negative => Ok(number.size),
        _ => Err(FontKind::Field),
    }
}
