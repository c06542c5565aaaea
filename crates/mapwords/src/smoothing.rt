ghost use Rattle.std.specs.Prelude.{◌≡◌};
ghost use Rattle.mapwords.specs.Smoothing.{factor_of, read_smoothing};

use geom::Factor;

/// How smooth a map's pictures are.
#[derive(Clone, Copy)]
pub struct Smoothing {
    /// How many times as fine the pictures are of which a map's pictures are the means.
    pub factor: Factor,
    /// The line that says so, counted from 1.
    pub line: u64,
}

// The factor that a text is: 1, 2, 3 or 4, as this one digit.
fn factor_of(text: &str) -> Option<Factor>
    ensures { result ≡ factor_of text.now }
{
    if text == "1" {
        Some(Factor::of(1))
    } else if text == "2" {
        Some(Factor::of(2))
    } else if text == "3" {
        Some(Factor::of(3))
    } else if text == "4" {
        Some(Factor::of(4))
    } else {
        None
    }
}

impl Smoothing {
    /// The smoothing that a text of a line is.
    pub fn read(text: &str, line: u64) -> Option<Smoothing>
        ensures { result ≡ read_smoothing text.now line }
    {
        let factor = factor_of(text)?;
        Some(Smoothing { factor, line })
    }
}
