ghost use Rattle.std.specs.Prelude.{◌≡◌, ◌+◌, ◌^◌, ◌<◌, ◌≤◌, length, IfSome};
ghost use Rattle.maplex.specs.Logic.{opened_after, logic_size};

use crate::byte::is_quote;

/// What is open within a logical expression, besides its own bracket.
#[derive(Clone, Copy)]
pub struct Opened {
    /// How many brackets are open.
    pub brackets: usize,
    /// The quote of the quoted part that is open, if one is.
    pub quote: Option<u8>,
}

impl Opened {
    // What is open after the byte. It is `None` where the byte closes the expression.
    fn after(self, byte: u8) -> Option<Opened>
        requires room { self.brackets + 1 < 2 ^ 64 }
        ensures next { result ≡ opened_after self byte }
        ensures grows { IfSome result (λ next. next.brackets ≤ self.brackets + 1) }
    {
        let brackets = self.brackets;
        match self.quote {
            Some(quote) if byte == quote => Some(Opened {
                brackets,
                quote: None,
            }),
            Some(_) => Some(self),
            None if is_quote(byte) => Some(Opened {
                brackets,
                quote: Some(byte),
            }),
            None if byte == b'(' => Some(Opened {
                brackets: brackets + 1,
                quote: None,
            }),
            None if byte != b')' => Some(self),
            None if brackets > 0 => Some(Opened {
                brackets: brackets - 1,
                quote: None,
            }),
            None => None,
        }
    }
}

/// How many bytes the logical expression has whose opening bracket comes before these bytes. Both
/// of its brackets count. It is `None` where no byte closes the expression.
pub fn logic_size(bytes: &[u8]) -> Option<usize>
    ensures size { result ≡ logic_size bytes.now }
    ensures within { IfSome result (λ size. size ≤ 1 + length bytes.now) }
{
    let mut opened = Opened {
        brackets: 0,
        quote: None,
    };
    for (i, byte) in bytes.iter().enumerate() {
        match opened.after(*byte) {
            Some(next) => opened = next,
            None => return Some(i + 2),
        }
    }
    None
}
