ghost use Rattle.std.specs.Prelude.{◌≡◌};
ghost use Rattle.mapwords.specs.Count.{number_in};

use geom::{Micro, NUMBER_LIMIT};

/// The number that the text means.
pub fn read_number(text: &str) -> Option<Micro>
    ensures { result ≡ number_in text.now }
{
    Micro::read(text.as_bytes(), NUMBER_LIMIT).ok()
}
