ghost use Rattle.std.specs.Prelude.{◌≡◌, map, IfOk};
ghost use Rattle.std.specs.List.{slice_split};
ghost use Rattle.mapparse.specs.Mapping.{is_semicolon};

use std::alloc::{AllocError, Global};

/// The parts of a text between semicolons.
pub fn semicolon_parts(text: &str, alloc: Global) -> Result<Vec<&str>, AllocError>
    ensures { IfOk result (λ found. map (λ x. x.now) found.items ≡ slice_split is_semicolon text.now) }
{
    text.split(';').collect(alloc)
}
