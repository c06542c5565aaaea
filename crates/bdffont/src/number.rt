ghost use Rattle.std.specs.Prelude.{◌≡◌};
ghost use Rattle.bdffont.specs.Number.{size_of, number_of, number_at};

use crate::line::word;
use geom::read_digits;

// The cap of a size as it is read: it is past every limit of a font.
const MOST_READ: u128 = 1 << 32;

/// A whole number: whether it is below 0, and its size, which is at most 2^32.
#[derive(Clone, Copy)]
pub struct WholeNumber {
    pub is_negative: bool,
    pub size: u64,
}

// The size that some digits stand for.
fn size_of(digits: &[u8]) -> Option<u64>
    ensures { result ≡ size_of digits.now }
{
    if digits.is_empty() {
        return None;
    }
    let size = read_digits(digits, MOST_READ)?;
    Some(size as u64)
}

// The number that a word stands for: digits, with a minus before them or none.
fn number_of(word: &[u8]) -> Option<WholeNumber>
    ensures { result ≡ number_of word.now }
{
    let (has_minus, digits) = match word {
        [b'-', digits @ ..] => (true, digits),
        _ => (false, word),
    };
    let size = size_of(digits)?;
    Some(WholeNumber {
        is_negative: has_minus && size > 0,
        size,
    })
}

/// The number that the word of a line with this index stands for.
pub fn number_at(line: &[u8], index: usize) -> Option<WholeNumber>
    ensures { result ≡ number_at index line.now }
{
    number_of(word(line, index)?)
}
