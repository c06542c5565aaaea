//! What the fields of a head mean for its connection.

ghost use Rattle.std.specs.Prelude.{◌≡◌, ℕ, ◌≤◌, length, reverse, map, All, codes};
ghost use Rattle.std.specs.List.{list_any, position_or_len};
ghost use Rattle.httparse.specs.Grammar.{skip_ows, trim_ows};
ghost use Rattle.httparse.specs.Spans.{IsHeaderWithin, header_bytes};
ghost use Rattle.httpedge.specs.Fields.{is_alike, is_comma, is_close, parts, says_close, says_body};

use httparse::spans::HeaderSpan;

// Whether two texts are equal but for the case of letters.
fn is_alike(a: &[u8], b: &[u8]) -> bool
    ensures { result ≡ is_alike a.now b.now }
{
    a.eq_ignore_ascii_case(b)
}

// The bytes from the first that is no space and no tab.
fn trim_start(mut bytes: &[u8]) -> &[u8]
    ensures { result.now ≡ skip_ows bytes.now }
{
    while let [first, rest @ ..] = bytes
        && (*first == b' ' || *first == b'\t')
    {
        bytes = rest;
    }
    bytes
}

// The bytes up to the last that is no space and no tab.
fn trim_end(mut bytes: &[u8]) -> &[u8]
    ensures { result.now ≡ reverse (skip_ows (reverse bytes.now)) }
{
    while let [rest @ .., last] = bytes
        && (*last == b' ' || *last == b'\t')
    {
        bytes = rest;
    }
    bytes
}

// Whether a part, with the spaces and tabs at its ends, is `close`.
fn is_close(part: &[u8]) -> bool
    ensures { result ≡ is_close (trim_ows part.now) }
{
    is_alike(trim_end(trim_start(part)), b"close")
}

// How many bytes are before the first comma.
fn part_len(value: &[u8]) -> usize
    ensures value { result ≡ position_or_len is_comma value.now }
    ensures bound { result ≤ length value.now }
{
    value.iter().take_while(|byte| **byte != b',').count()
}

// Whether one of the parts of a value is `close`.
fn has_close(value: &[u8]) -> bool
    ensures { result ≡ list_any is_close (parts value.now) }
{
    let mut rest = value;
    loop {
        let (part, after) = rest.split_at(part_len(rest));
        if is_close(part) {
            return true;
        }
        let Some((_, others)) = after.split_first() else {
            return false;
        };
        rest = others;
    }
}

// Whether a field says `close`.
fn says_close(name: &[u8], value: &[u8]) -> bool
    ensures { result ≡ says_close (name.now, value.now) }
{
    is_alike(name, b"connection") && has_close(value)
}

// Whether a field announces a body.
fn says_body(name: &[u8], value: &[u8]) -> bool
    ensures { result ≡ says_body (name.now, value.now) }
{
    is_alike(name, b"transfer-encoding")
        || (is_alike(name, b"content-length") && value != b"0".as_slice())
}

/// Whether one of these fields of the bytes says `close`.
pub fn has_closing(bytes: &[u8], fields: &[HeaderSpan]) -> bool
    requires within { All (IsHeaderWithin (length bytes.now)) fields.now }
    ensures { result ≡ list_any says_close (map (header_bytes bytes.now) fields.now) }
{
    for field in fields {
        if says_close(field.name.of(bytes), field.value.of(bytes)) {
            return true;
        }
    }
    false
}

/// Whether one of these fields of the bytes announces a body.
pub fn has_body(bytes: &[u8], fields: &[HeaderSpan]) -> bool
    requires within { All (IsHeaderWithin (length bytes.now)) fields.now }
    ensures { result ≡ list_any says_body (map (header_bytes bytes.now) fields.now) }
{
    for field in fields {
        if says_body(field.name.of(bytes), field.value.of(bytes)) {
            return true;
        }
    }
    false
}
