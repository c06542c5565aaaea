ghost use Rattle.std.specs.Prelude.{◌≡◌, ◌≤◌, length, IfOk};
ghost use Rattle.std.specs.List.Sorted.{IsNonDecreasingBy};
ghost use Rattle.bdffont.specs.File.{AreFirstsOf, follows};

use mapdefs::Glyph;
use std::alloc::{AllocError, Global};

// Whether an encoding is above the last one, if there is one.
fn follows(last: Option<u32>, encoding: u32) -> bool
    ensures { result ≡ follows last encoding }
{
    match last {
        Some(last) => last < encoding,
        None => true,
    }
}

// For glyphs whose encodings don't fall, the first glyph of each encoding.
fn firsts(alloc: Global, glyphs: Vec<Glyph>) -> Result<Vec<Glyph>, AllocError>
    requires { IsNonDecreasingBy (λ (glyph : Glyph). glyph.encoding) glyphs.items }
    ensures firsts { IfOk result (λ kept. AreFirstsOf glyphs.items kept.items) }
    ensures fewer { IfOk result (λ kept. length kept.items ≤ length glyphs.items) }
{
    let mut kept = Vec::new(alloc);
    let mut last = None;
    for glyph in glyphs {
        if follows(last, glyph.encoding) {
            last = Some(glyph.encoding);
            kept.push(glyph)?;
        }
    }
    Ok(kept)
}

/// The glyphs by rising encodings, the first of each. The sort visits glyphs that already rise once. A second
/// visit finds that none has the encoding of the one before it.
pub fn by_encoding(alloc: Global, glyphs: Vec<Glyph>) -> Result<Vec<Glyph>, AllocError>
    ensures firsts { IfOk result (λ kept. AreFirstsOf glyphs.items kept.items) }
    ensures fewer { IfOk result (λ kept. length kept.items ≤ length glyphs.items) }
{
    let mut glyphs = glyphs;
    glyphs.sort_by_key(|glyph| glyph.encoding)?;
    Ok(firsts(alloc, glyphs)?)
}
