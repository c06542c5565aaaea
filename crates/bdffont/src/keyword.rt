ghost use Rattle.std.specs.Prelude.{◌≡◌};
ghost use Rattle.bdffont.specs.Keyword.{spelling, is_spelt, keyword_of, keyword_in};

use crate::line::word;

/// The keywords that are read.
#[derive(Clone, Copy)]
pub enum Keyword {
    StartFont,
    StartProperties,
    EndProperties,
    FontBoundingBox,
    Chars,
    StartChar,
    Encoding,
    Dwidth,
    Bbx,
    Bitmap,
    EndChar,
    EndFont,
}

// All keywords.
const KEYWORDS: [Keyword; 12] = [
    Keyword::StartFont,
    Keyword::StartProperties,
    Keyword::EndProperties,
    Keyword::FontBoundingBox,
    Keyword::Chars,
    Keyword::StartChar,
    Keyword::Encoding,
    Keyword::Dwidth,
    Keyword::Bbx,
    Keyword::Bitmap,
    Keyword::EndChar,
    Keyword::EndFont,
];

impl Keyword {
    // How the keyword is written.
    #[tactic(auto, unfolding(crate::specs::Keyword::spelling))]
    fn spelling(self) -> &'static [u8]
        ensures { result.now ≡ spelling self }
    {
        match self {
            Keyword::StartFont => b"STARTFONT",
            Keyword::StartProperties => b"STARTPROPERTIES",
            Keyword::EndProperties => b"ENDPROPERTIES",
            Keyword::FontBoundingBox => b"FONTBOUNDINGBOX",
            Keyword::Chars => b"CHARS",
            Keyword::StartChar => b"STARTCHAR",
            Keyword::Encoding => b"ENCODING",
            Keyword::Dwidth => b"DWIDTH",
            Keyword::Bbx => b"BBX",
            Keyword::Bitmap => b"BITMAP",
            Keyword::EndChar => b"ENDCHAR",
            Keyword::EndFont => b"ENDFONT",
        }
    }

    // Whether the word is the keyword, byte by byte.
    fn is_spelt(self, word: &[u8]) -> bool
        ensures { result ≡ is_spelt word.now self }
    {
        word == self.spelling()
    }

    // The keyword that the word is.
    #[tactic(auto, unfolding(crate::specs::Keyword::keyword_of))]
    fn of(word: &[u8]) -> Option<Keyword>
        ensures { result ≡ keyword_of word.now }
    {
        KEYWORDS
            .iter()
            .copied()
            .find(|keyword| keyword.is_spelt(word))
    }

    /// The keyword that the first word of the line is.
    pub fn at(line: &[u8]) -> Option<Keyword>
        ensures { result ≡ keyword_in line.now }
    {
        Keyword::of(word(line, 0)?)
    }
}
