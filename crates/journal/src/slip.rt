//! Byte stuffing and frames (RFC 1055, "SLIP").

ghost use Rattle.std.specs.Prelude.{◌≡◌, ◌↔◌, IsTrue, ◌<◌, ◌++◌, ℕ, List, [], ◌∷◌, length, IfOk, IfSome, OnOk, MatchOption};
ghost use Rattle.journal.specs.Slip.{escaped, stuffed, HasNoEnd};

use std::alloc::{AllocError, Global};

// The byte before and after each frame.
pub(crate) const END: u8 = 192;

const ESC: u8 = 219;

const ESC_END: u8 = 220;

const ESC_ESC: u8 = 221;

// Whether two lists of bytes are equal.
pub(crate) fn is_equal(one: &[u8], other: &[u8]) -> bool
    ensures { IsTrue result ↔ (one.now ≡ other.now) }
{
    one == other
}

// Adds a byte in its form in a frame.
fn push_escaped(out: &mut Vec<u8>, byte: u8) -> Result<(), AllocError>
    ensures ok { OnOk result (out.new.items ≡ out.old.items ++ escaped byte []) }
{
    match byte {
        END => out.extend_from_slice(&[ESC, ESC_END]),
        ESC => out.extend_from_slice(&[ESC, ESC_ESC]),
        byte => Ok(out.push(byte)?),
    }
}

// Adds bytes in their form in a frame.
pub(crate) fn push_stuffed(out: &mut Vec<u8>, bytes: &[u8]) -> Result<(), AllocError>
    ensures ok { OnOk result (out.new.items ≡ out.old.items ++ stuffed bytes.now) }
{
    for byte in bytes {
        push_escaped(out, *byte)?;
    }
    Ok(())
}

// The byte of an ESC and the bytes after it, and the bytes that follow.
fn after_escape(bytes: &[u8]) -> Option<(u8, &[u8])>
    ensures byte { MatchOption result ((v : List ℕ) → 219 ∷ bytes.now ≡ stuffed v → ⊥) (λ r. 219 ∷ bytes.now ≡ escaped r.0 r.1.now) }
    ensures shorter { IfSome result (λ r. length r.1.now < length bytes.now) }
{
    let [code, rest @ ..] = bytes else {
        return None;
    };
    let code = *code;
    if code == ESC_END {
        return Some((END, rest));
    }
    if code == ESC_ESC {
        return Some((ESC, rest));
    }
    None
}

// The first byte of the contents of a frame, and the bytes that follow.
fn first_byte(bytes: &[u8]) -> Option<(u8, &[u8])>
    ensures byte { MatchOption result ((v : List ℕ) → bytes.now ≡ stuffed v → bytes.now ≡ []) (λ r. bytes.now ≡ escaped r.0 r.1.now) }
    ensures shorter { IfSome result (λ r. length r.1.now < length bytes.now) }
{
    let [byte, rest @ ..] = bytes else {
        return None;
    };
    match *byte {
        END => None,
        ESC => after_escape(rest),
        byte => Some((byte, rest)),
    }
}

// The bytes that are stuffed in some bytes, if these are stuffed.
pub(crate) fn unstuff(alloc: Global, bytes: &[u8]) -> Result<Option<Vec<u8>>, AllocError>
    ensures { IfOk result (λ found. MatchOption found ((v : List ℕ) → bytes.now ≡ stuffed v → ⊥) (λ v. bytes.now ≡ stuffed v.items)) }
{
    let mut out = Vec::new(alloc);
    let mut rest = bytes;
    while !rest.is_empty() {
        let Some((byte, after)) = first_byte(rest) else {
            return Ok(None);
        };
        out.push(byte)?;
        rest = after;
    }
    Ok(Some(out))
}

/// The bytes before the first END, and those after it.
pub fn first_frame(bytes: &[u8]) -> Option<(&[u8], &[u8])>
    ensures { MatchOption result (HasNoEnd bytes.now) (λ r. HasNoEnd r.0.now × (bytes.now ≡ r.0.now ++ 192 ∷ r.1.now)) }
{
    for at in 0..bytes.len() {
        if bytes[at] == END {
            return Some((&bytes[..at], &bytes[at + 1..]));
        }
    }
    None
}
