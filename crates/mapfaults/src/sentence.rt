ghost use Rattle.std.specs.Prelude.{◌≡◌, string_bytes, IfOk, IfSome};
ghost use Rattle.maplex.specs.ByteFault.{byte_fault};
ghost use Rattle.mapfaults.specs.OnBytes.{byte_message, IsOnKind, IsOnLex, IsOnSource};

use crate::expected_text::expected_text;
use crate::finding::{Explained, Finding, explain};
use crate::foreign::advice;
use crate::openings::Opening;
use expressions::{ExprError, read};
use mapdefs::{
    MAX_CLASSES, MAX_FEATURES, MAX_FONT_NAMES, MAX_ITEMS, MAX_LAYERS, MAX_OUTLINE_WIDTH,
    MAX_STYLES, MAX_SYMBOLS, MAX_VERTICES, Text,
};
use maplex::{ByteFault, LexKind, Shape, Token, byte_fault};
use maptree::Context;
use mapwords::{Block, Expected, Keyword, ParseKind};
use std::alloc::{AllocError, Global};

/// The most characters that are shown of a word.
pub const SHOWN: usize = 40;

/// A text as it is shown: so many characters of it at most, and none of them a control character.
pub fn cut(alloc: Global, word: &str, most: usize) -> Result<String, AllocError> {
    let mut text = String::new(alloc);
    for (i, character) in word.chars().enumerate() {
        if i == most {
            text.push_str("..")?;
            return Ok(text);
        }
        text.push(if character.is_control() {
            '?'
        } else {
            character
        })?;
    }
    Ok(text)
}

// A token as it is shown, with its quotes or brackets round its text.
fn found(alloc: Global, token: &Token) -> Result<String, AllocError> {
    let text = cut(alloc, token.text, SHOWN)?;
    match token.shape {
        Shape::Word | Shape::Logic => Ok(text),
        Shape::Text => format!(in alloc; "\"{text}\""),
        Shape::List => format!(in alloc; "{{{text}}}"),
    }
}

// A word that opened something: a keyword as it is spelt, else as it is shown.
fn opener(alloc: Global, word: &str) -> Result<String, AllocError> {
    match Keyword::of(word) {
        Some(keyword) => String::from_str(alloc, keyword.spelling()),
        None => cut(alloc, word, SHOWN),
    }
}

// The innermost block of what is open.
fn block_in<'a, 'b>(openings: &'b [Opening<'a>]) -> Option<&'b Opening<'a>> {
    openings.iter().rev().find(|opening| opening.is_block())
}

// A block with its line.
fn block(alloc: Global, openings: &[Opening]) -> Result<String, AllocError> {
    match block_in(openings) {
        Some(opening) => {
            let (name, line) = (opener(alloc, opening.word)?, opening.line);
            format!(in alloc; "{name} of line {line}")
        }
        None => String::from_str(alloc, "the mapfile"),
    }
}

// The message on a keyword of MapServer that isn't read in a block. There is none on another token.
fn foreign_word(
    alloc: Global,
    context: &Context,
    token: &Token,
    shown: &str,
) -> Result<Option<String>, AllocError> {
    let (Context::Keywords(block), Shape::Word) = (context, token.shape) else {
        return Ok(None);
    };
    if token.text.starts_with("/*") {
        let message = format!(in alloc;
            "{shown} begins a comment of MapServer, which isn't supported: begin each of its lines with #"
        )?;
        return Ok(Some(message));
    }
    match advice(alloc, *block, token.text)? {
        Some(advice) => {
            let message = format!(in alloc; "{shown} is MapServer's and isn't supported{advice}")?;
            Ok(Some(message))
        }
        None => Ok(None),
    }
}

// The message on a token that is no keyword of a block.
fn no_keyword(alloc: Global, opening: &Opening, token: &Token) -> Result<String, AllocError> {
    let shown = found(alloc, token)?;
    let name = opener(alloc, opening.word)?;
    match foreign_word(alloc, &opening.context, token, shown.as_str())? {
        Some(message) => Ok(message),
        None => format!(in alloc; "{shown} is no keyword of {name}"),
    }
}

// The message on a token that is where none of its kind may be.
fn unknown_word(alloc: Global, e: &Explained, token: &Token) -> Result<String, AllocError> {
    match block_in(e.openings.as_slice()) {
        Some(opening) => no_keyword(alloc, opening, token),
        None => {
            let shown = found(alloc, token)?;
            if e.hints.begun {
                format!(in alloc; "{shown} stands after the END of MAP")
            } else if token.text.starts_with('\u{FEFF}') {
                String::from_str(
                    alloc,
                    "the mapfile begins with a byte order mark: save it without one",
                )
            } else {
                format!(in alloc; "{shown} stands where MAP has to begin")
            }
        }
    }
}

// What is left of the text of an expression where no reading of it can go on.
fn unread(alloc: Global, text: &str) -> Option<&str> {
    match read(alloc, text.as_bytes()) {
        Err(ExprError::Fault(fault)) => text.get(fault.at..),
        Ok(_) | Err(ExprError::NoMemory) => None,
    }
}

// The message on what isn't read as a rule.
fn no_expression(alloc: Global, token: &Token, shown: &str) -> Result<String, AllocError> {
    if token.shape == Shape::Word {
        return format!(in alloc;
            "{shown} is no expression: regular expressions are MapServer's and aren't supported"
        );
    }
    let Some(rest) = unread(alloc, token.text) else {
        return format!(in alloc; "{shown} is no expression");
    };
    if rest.is_empty() {
        return format!(in alloc; "{shown} is no expression: it ends too early");
    }
    if rest.starts_with('~') {
        return format!(in alloc; "{shown} is no expression: ~ is MapServer's and isn't supported");
    }
    let rest = cut(alloc, rest, SHOWN)?;
    format!(in alloc; "{shown} is no expression: nothing is read from {rest} on")
}

// The message on the END of a MAP that isn't as its styles, discs and labels need it.
fn wrong_map(alloc: Global, missing: Option<&str>) -> Result<String, AllocError> {
    match missing {
        Some("WMS_SMOOTHING") => String::from_str(
            alloc,
            "this WMS_SMOOTHING smooths nothing, and a SYMBOL of TYPE ELLIPSE needs one above 1",
        ),
        Some(_) => String::from_str(alloc, "this SYMBOL names no symbol of MAP"),
        None => {
            format!(in alloc;
                "this OUTLINEWIDTH is no count from 1 to {MAX_OUTLINE_WIDTH}, which a smoothed map requires"
            )
        }
    }
}

// The message on a token that is no value.
fn wrong_value(
    alloc: Global,
    e: &Explained,
    inner: &Opening,
    token: &str,
) -> Result<String, AllocError> {
    let name = opener(alloc, inner.word)?;
    match &inner.context {
        Context::Values(_, expected) => {
            let expected = expected_text(alloc, expected)?;
            format!(in alloc; "{token} is no value of {name}, which takes {expected}")
        }
        Context::Keywords(Block::Points) => {
            format!(in alloc; "{token} is no longitude in {name}: a number from -1000 to 1000")
        }
        Context::Latitude(_) => {
            format!(in alloc; "{token} is no latitude in {name}: a number from -1000 to 1000")
        }
        Context::Keywords(Block::Map) => wrong_map(alloc, e.hints.missing),
        Context::Keywords(Block::Layer) => {
            String::from_str(alloc, "DATA needs a LAYER of TYPE POINT")
        }
        Context::Keywords(Block::Symbol) => {
            String::from_str(alloc, "IMAGE needs a SYMBOL of TYPE PIXMAP")
        }
        Context::Keywords(_) => format!(in alloc; "{token} is no key of {name}"),
    }
}

// The message on an END before a value.
fn no_value(alloc: Global, expected: &Expected, name: &str) -> Result<String, AllocError> {
    match *expected {
        Expected::Green(..)
        | Expected::Blue(..)
        | Expected::South(..)
        | Expected::East(..)
        | Expected::North(..)
        | Expected::Radii(1) => format!(in alloc; "{name} has too few values"),
        Expected::Unused(_) => format!(in alloc; "{name} lacks a value"),
        _ => format!(in alloc; "{name} has no value"),
    }
}

// The message on an END before a required keyword or value.
fn missing_value(alloc: Global, e: &Explained, inner: &Opening) -> Result<String, AllocError> {
    let block = block(alloc, e.openings.as_slice())?;
    match &inner.context {
        Context::Values(_, expected) => {
            let name = opener(alloc, inner.word)?;
            no_value(alloc, expected, name.as_str())
        }
        Context::Latitude(_) => { format!(in alloc; "the last vertex of {block} has no latitude") }
        Context::Keywords(_) => {
            let missing = e.hints.missing.unwrap_or("value");
            format!(in alloc; "{block} has no {missing}")
        }
    }
}

// How many blocks of a keyword a block may have, where that is one number.
fn most_blocks(keyword: Option<Keyword>) -> Option<usize> {
    match keyword {
        Some(Keyword::Symbol) => Some(MAX_SYMBOLS),
        Some(Keyword::Layer) => Some(MAX_LAYERS),
        Some(Keyword::Class) => Some(MAX_CLASSES),
        Some(Keyword::Style) => Some(MAX_STYLES),
        Some(Keyword::Feature) => Some(MAX_FEATURES),
        _ => None,
    }
}

// The message on one inner block more than a block may have.
fn more_blocks(alloc: Global, block: &str, word: &str) -> Result<String, AllocError> {
    let name = opener(alloc, word)?;
    match most_blocks(Keyword::of(word)) {
        Some(most) => format!(in alloc; "{block} has more than {most} {name} blocks"),
        None => format!(in alloc; "{block} has one {name} too many"),
    }
}

// The message on what is more than a map may have.
fn limit(alloc: Global, e: &Explained, inner: &Opening, word: &str) -> Result<String, AllocError> {
    match (&inner.context, e.openings.as_slice()) {
        (Context::Values(_, Expected::ConfigKey), openings) => {
            let block = block(alloc, openings)?;
            format!(in alloc; "{block} has more than {MAX_FONT_NAMES} fonts with names")
        }
        (Context::Values(..), _) => {
            let name = opener(alloc, inner.word)?;
            format!(in alloc; "{name} names more than {MAX_ITEMS} items")
        }
        (Context::Latitude(_) | Context::Keywords(Block::Points), [outer @ .., _]) => {
            let block = block(alloc, outer)?;
            format!(in alloc; "{block} has more than {MAX_VERTICES} vertices")
        }
        (_, openings) => {
            let block = block(alloc, openings)?;
            more_blocks(alloc, block.as_str(), word)
        }
    }
}

// The message on a bad byte.
#[tactic(auto, unfolding(crate::specs::OnBytes::byte_message))]
fn on_byte(wrong: ByteFault) -> &'static str
    ensures { result.now ≡ byte_message wrong }
{
    match wrong {
        ByteFault::ClosesNothing => "a bracket that closes nothing",
        ByteFault::Control => "a control character",
        ByteFault::NotUtf8 => {
            "a byte that is not UTF-8: convert the mapfile, as with iconv -f ISO-8859-1 -t UTF-8"
        }
    }
}

// The message where the tokens of a source end with a fault of a kind.
fn on_lex(alloc: Global, kind: LexKind, source: &[u8]) -> Result<String, AllocError>
    ensures { IfOk result (λ message. IsOnLex (byte_fault source.now) kind (string_bytes message)) }
{
    match (kind, byte_fault(source)) {
        (LexKind::BadByte, Some(wrong)) => String::from_str(alloc, on_byte(wrong)),
        (LexKind::BadByte, None) | (LexKind::OpenString | LexKind::TooLong, _) => {
            format!(in alloc; "{kind}")
        }
    }
}

impl<'a> Explained<'a> {
    // The message on a fault at a token, inside the innermost of what is open.
    fn message_inside(
        &self,
        alloc: Global,
        inner: &Opening,
        token: &Token,
    ) -> Result<String, AllocError> {
        let found = found(alloc, token)?;
        match self.kind {
            ParseKind::WrongValue => wrong_value(alloc, self, inner, found.as_str()),
            ParseKind::MissingValue => missing_value(alloc, self, inner),
            ParseKind::Limit => limit(alloc, self, inner, token.text),
            ParseKind::DuplicateName => {
                let name = cut(alloc, self.hints.name, SHOWN)?;
                format!(in alloc; "an earlier LAYER has the NAME {name}")
            }
            ParseKind::BadExpression => no_expression(alloc, token, found.as_str()),
            _ => unknown_word(alloc, self, token),
        }
    }

    // The message on a mapfile that ends too early.
    fn message_after(&self, alloc: Global) -> Result<String, AllocError> {
        if !self.hints.begun {
            return String::from_str(alloc, "the mapfile has no MAP");
        }
        let block = block(alloc, self.openings.as_slice())?;
        format!(in alloc; "the mapfile ends inside {block}, which has no END")
    }

    // The message on a fault at a token, or at the end of the mapfile.
    fn message_in_words(&self, alloc: Global) -> Result<String, AllocError> {
        match (&self.token, self.openings.as_slice()) {
            (Some(token), [.., inner]) => self.message_inside(alloc, inner, token),
            (Some(token), []) => unknown_word(alloc, self, token),
            (None, _) => self.message_after(alloc),
        }
    }

    /// The message on the fault, which is one of this source: one sentence without a full stop, which shows no control
    /// characters. On a bad byte it says what is wrong with it; on another fault also where a quoted text begins that goes over its
    /// line's end, if the fault may come of that.
    pub fn message(&self, alloc: Global, source: &[u8]) -> Result<String, AllocError>
        ensures { IfOk result (λ message. IsOnKind (byte_fault source.now) self.now.kind (string_bytes message)) }
    {
        match self.kind {
            ParseKind::Lex(LexKind::BadByte) => on_lex(alloc, LexKind::BadByte, source),
            ParseKind::Lex(kind) => {
                let message = on_lex(alloc, kind, source)?;
                self.hints.quoted.message(alloc, message)
            }
            _ => {
                let message = self.message_in_words(alloc)?;
                self.hints.quoted.message(alloc, message)
            }
        }
    }
}

/// The message on the first fault of what is written in a mapfile. There is none where it has no such fault, or where
/// memory is refused.
pub fn message_on_source(alloc: Global, source: &[u8]) -> Option<Text>
    ensures { IfSome result (IsOnSource source.now) }
{
    match explain(alloc, source) {
        Finding::Faulty(explained) => Some(Text::of(explained.message(alloc, source).ok()?)),
        Finding::Sound | Finding::NoMemory => None,
    }
}
