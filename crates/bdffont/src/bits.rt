ghost use Rattle.std.specs.Prelude.{◌≡◌, ◌+◌, ◌<◌, ◌++◌, ◌∷◌, List, Bool, take, IsTrue, OnOk, IfOk};
ghost use Rattle.std.specs.List.{list_all};
ghost use Rattle.std.specs.Char.{is_ascii_hexdigit};
ghost use Rattle.bdffont.specs.Bits.{hex_value, bits_of, is_row, row_pixels};

use mapdefs::Items;
use std::alloc::AllocError;

// The value of a hexadecimal digit.
fn hex_value(digit: u8) -> u8
    requires { IsTrue (is_ascii_hexdigit digit) }
    ensures value { result ≡ hex_value digit }
    ensures range { result < 16 }
{
    match digit {
        b'0'..=b'9' => digit - b'0',
        b'A'..=b'F' => digit - b'A' + 10,
        _ => digit - b'a' + 10,
    }
}

// Whether all bytes are hexadecimal digits.
fn is_hexadecimal(line: &[u8]) -> bool
    ensures { result ≡ list_all is_ascii_hexdigit line.now }
{
    line.iter().all(|digit| digit.is_ascii_hexdigit())
}

/// Whether a line is a row of so many pixels: two hexadecimal digits for each eight pixels, or part of
/// them, and nothing else.
pub fn is_row(line: &[u8], width: u8) -> bool
    ensures { result ≡ is_row width line.now }
{
    line.len() == (usize::from(width) + 7) / 8 * 2 && is_hexadecimal(line)
}

// Adds a pixel, unless the row is full, and returns how many remain.
fn push_pixel(pixels: &mut Items<bool>, left: u8, ink: bool) -> Result<u8, AllocError>
    ensures { IfOk result (λ n. (others : List Bool) → pixels.new ++ take n others ≡ pixels.old ++ take left (ink ∷ others)) }
{
    if left == 0 {
        return Ok(0);
    }
    pixels.push(ink)?;
    Ok(left - 1)
}

// Adds the four pixels of a digit's value, the highest bit first, as far as the row has room for them,
// and returns how many remain.
fn push_bits(pixels: &mut Items<bool>, left: u8, value: u8) -> Result<u8, AllocError>
    ensures { IfOk result (λ n. (others : List Bool) → pixels.new ++ take n others ≡ pixels.old ++ take left (bits_of value ++ others)) }
{
    let left = push_pixel(pixels, left, value / 8 % 2 == 1)?;
    let left = push_pixel(pixels, left, value / 4 % 2 == 1)?;
    let left = push_pixel(pixels, left, value / 2 % 2 == 1)?;
    push_pixel(pixels, left, value % 2 == 1)
}

/// Adds the pixels of a row to those of the rows above it.
pub fn push_row(pixels: &mut Items<bool>, line: &[u8], width: u8) -> Result<(), AllocError>
    requires { IsTrue (is_row width line.now) }
    ensures { OnOk result (pixels.new ≡ pixels.old ++ row_pixels width line.now) }
{
    let mut left = width;
    for digit in line {
        left = push_bits(pixels, left, hex_value(*digit))?;
    }
    Ok(())
}
