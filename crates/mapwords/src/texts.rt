ghost use Rattle.std.specs.Prelude.{◌≡◌, map, length, IfOk};
ghost use Rattle.std.specs.List.{slice_split};
ghost use Rattle.mapwords.specs.Rule.{is_comma};

use mapdefs::Text;
use std::alloc::{AllocError, Global};

/// How many parts a text has between commas. It takes no memory.
pub fn comma_count(text: &str) -> usize
    ensures { result ≡ length (slice_split is_comma text.now) }
{
    text.split(',').count()
}

/// The parts of a text between commas.
pub fn comma_parts(text: &str, alloc: Global) -> Result<Vec<&str>, AllocError>
    ensures { IfOk result (λ found. map (λ x. x.now) found.items ≡ slice_split is_comma text.now) }
{
    text.split(',').collect(alloc)
}

/// Texts of their own from parts of a source, in their order.
pub fn texts_of(parts: &[&str], alloc: Global) -> Result<Vec<Text>, AllocError>
    ensures { IfOk result (λ made. made.items ≡ map (λ x. x.now) parts.now) }
{
    let mut texts = Vec::with_capacity(alloc, parts.len())?;
    for part in parts {
        texts.push(Text::from_str(alloc, part)?)?;
    }
    Ok(texts)
}
