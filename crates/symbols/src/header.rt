ghost use Rattle.std.specs.Prelude.{◌≡◌, ◌≤◌, false, true, length, IfSome};
ghost use Rattle.std.specs.Char.{is_ascii_digit};
ghost use Rattle.std.specs.List.{list_all, prefix_len};
ghost use Rattle.geom.specs.Decimal.{number_of};
ghost use Rattle.symbols.specs.Format.{capped, blanks_len, has_space_at, header_of, is_space, number_at};

use geom::read_digits;

/// A number of a header.
#[derive(Clone, Copy)]
pub struct HeaderNumber {
    /// The number, or 1,000 where it is greater.
    pub value: u16,
    /// The index after its digits.
    pub end: usize,
}

/// What a header says.
#[derive(Clone, Copy)]
pub struct HeaderFields {
    /// The width in pixels.
    pub width: u16,
    /// The height in pixels.
    pub height: u16,
    /// The index of the first pixel's first byte.
    pub start: usize,
}

/// The header of a pixmap, from its magic number on, if it has one.
pub fn header_of(bytes: &[u8]) -> Option<HeaderFields>
    ensures value { result ≡ header_of bytes.now }
    ensures start { IfSome result (λ header. header.start ≤ length bytes.now) }
{
    if !has_space_at(bytes, 2) {
        return None;
    }
    let width = number_at(bytes, 2)?;
    let height = number_at(bytes, width.end)?;
    let greatest = number_at(bytes, height.end)?;
    if greatest.value == 255
        && width.value > 0
        && height.value > 0
        && has_space_at(bytes, greatest.end)
    {
        Some(HeaderFields {
            width: width.value,
            height: height.value,
            start: greatest.end + 1,
        })
    } else {
        None
    }
}

// Whether white space is at the index.
fn has_space_at(bytes: &[u8], at: usize) -> bool
    ensures { result ≡ has_space_at bytes.now at }
{
    at < bytes.len() && is_space(bytes[at])
}

// Whether the byte is white space.
fn is_space(byte: u8) -> bool
    ensures { result ≡ is_space byte }
{
    byte == b' ' || (9..=13).contains(&byte)
}

// The number after the blanks from an index on, if one is there.
fn number_at(bytes: &[u8], at: usize) -> Option<HeaderNumber>
    requires { at ≤ length bytes.now }
    ensures value { result ≡ number_at bytes.now at }
    ensures end { IfSome result (λ number. number.end ≤ length bytes.now) }
{
    let rest = &bytes[at..];
    let rest = &rest[blanks_len(rest)..];
    let digits = digits_len(rest);
    if digits == 0 {
        return None;
    }
    Some(HeaderNumber {
        value: value_of(&rest[..digits]),
        end: bytes.len() - rest.len() + digits,
    })
}

// How many bytes of white space and comments some bytes begin with.
fn blanks_len(bytes: &[u8]) -> usize
    ensures value { result ≡ blanks_len false bytes.now }
    ensures bound { result ≤ length bytes.now }
{
    let mut in_comment = false;
    for i in 0..bytes.len() {
        let byte = bytes[i];
        if in_comment {
            in_comment = !(byte == b'\n' || byte == b'\r');
        } else if byte == b'#' {
            in_comment = true;
        } else if !is_space(byte) {
            return i;
        }
    }
    bytes.len()
}

// How many digits some bytes begin with.
fn digits_len(bytes: &[u8]) -> usize
    ensures value { result ≡ prefix_len is_ascii_digit bytes.now }
    ensures bound { result ≤ length bytes.now }
{
    for i in 0..bytes.len() {
        if !bytes[i].is_ascii_digit() {
            return i;
        }
    }
    bytes.len()
}

// The number of some digits, or 1,000 where it is greater.
#[tactic(auto, unfolding(crate::specs::Format::capped))]
fn value_of(digits: &[u8]) -> u16
    requires { list_all is_ascii_digit digits.now ≡ true }
    ensures { result ≡ capped (number_of digits.now) }
{
    let Some(value) = read_digits(digits, 1_000) else {
        unreachable!()
    };
    value as u16
}
