ghost use Rattle.std.specs.Prelude.{◌≡◌, ◌==◌, ◌<◌, ◌≤◌, length, position, Some, None, if◌then◌else◌, IfSome, IfOk, MatchResult};
ghost use Rattle.std.specs.Option.{option_copied, option_map};
ghost use Rattle.std.specs.Str.{is_utf8};
ghost use Rattle.expressions.specs.Fault.{IsStop};
ghost use Rattle.expressions.specs.Reading.{begins_q, is_of_number, number_len, number_at, split_before, is_name, item_at, name_of, quoted_as, quoted_at, operand_from, operand_at};

use crate::fault::ReadingError;
use crate::word::after_spaces;
use geom::{Micro, NUMBER_LIMIT, NumberFault};
use mapdefs::{Operand, Text};
use std::alloc::{AllocError, Global};
use std::str;

// Whether the text begins with a `q`.
fn begins_q(text: &[u8]) -> bool
    ensures { result ≡ begins_q text.now }
{
    match text {
        [first, ..] => first.to_ascii_lowercase() == b'q',
        [] => false,
    }
}

// Whether a literal number goes on with the byte before the rest. The `e` of an `eq` isn't part of it.
fn is_of_number(byte: u8, rest: &[u8]) -> bool
    ensures { result ≡ is_of_number byte rest.now }
{
    byte.is_ascii_digit()
        || byte == b'.'
        || byte == b'+'
        || byte == b'-'
        || byte.to_ascii_lowercase() == b'e' && !begins_q(rest)
}

// How many bytes the literal number takes with which the text begins.
fn number_len(text: &[u8]) -> usize
    ensures value { result ≡ number_len text.now }
    ensures within { result ≤ length text.now }
{
    for (at, byte) in text.iter().enumerate() {
        if !is_of_number(*byte, &text[at + 1..]) {
            return at;
        }
    }
    text.len()
}

// The text that some bytes are, if they are UTF-8.
fn text_from(bytes: &[u8]) -> Option<&str>
    ensures { option_copied result ≡ (if is_utf8 bytes.now then Some bytes.now else None) }
{
    match str::from_utf8(bytes) {
        Ok(text) => Some(text),
        Err(_) => None,
    }
}

// The text without a leading sign.
fn without_sign(text: &[u8]) -> &[u8] {
    match text {
        [b'+' | b'-', rest @ ..] => rest,
        _ => text,
    }
}

// The text without its leading digits.
fn without_digits(text: &[u8]) -> &[u8] {
    let digits = text.iter().take_while(|byte| byte.is_ascii_digit()).count();
    text.get(digits..).unwrap_or(&[])
}

// How many bytes remain after the letter that may begin an `eq`, if it stands here.
fn left_after_e(text: &[u8]) -> usize {
    match text {
        [b'e' | b'E', rest @ ..] => rest.len(),
        _ => text.len(),
    }
}

// How many bytes remain where a text that begins with no number ceases to look like one. The position of
// a fault is tested, not proved.
fn left_after_number(text: &[u8]) -> usize {
    let unsigned = without_sign(text);
    let mut rest = without_digits(unsigned);
    let has_digits = rest.len() < unsigned.len();
    if let [b'.', decimals @ ..] = rest {
        rest = without_digits(decimals);
        if !has_digits && rest.len() == decimals.len() {
            return rest.len();
        }
    } else if !has_digits {
        return rest.len();
    }
    if let [b'e' | b'E', power @ ..] = rest {
        let unsigned = without_sign(power);
        rest = without_digits(unsigned);
        if rest.len() < unsigned.len() {
            return left_after_e(rest);
        }
    }
    rest.len()
}

// The literal number with which the text begins, and the text after it.
#[tactic(auto, unfolding(crate::specs::Reading::number_at))]
fn number_at(alloc: Global, text: &[u8]) -> Result<(Operand, &[u8]), ReadingError>
    ensures value { MatchResult result (λ r. number_at text.now ≡ Some (r.0, r.1.now)) (IsStop (number_at text.now)) }
    ensures shorter { IfOk result (λ r. length r.1.now < length text.now) }
{
    let (literal, rest) = text.split_at(number_len(text));
    let value = match Micro::read(literal, NUMBER_LIMIT) {
        Ok(value) => value,
        Err(NumberFault::NotANumber) => {
            let left = left_after_number(text);
            return Err(ReadingError::Fault { left });
        }
        Err(NumberFault::TooLarge) => return Err(ReadingError::Fault { left: text.len() }),
    };
    match text_from(literal) {
        Some(literal) => Ok((
            Operand::Number(value, Text::from_str(alloc, literal)?),
            rest,
        )),
        None => Err(ReadingError::Fault { left: text.len() }),
    }
}

// The index of the first such byte.
fn index_of(byte: u8, text: &[u8]) -> Option<usize>
    ensures index { result ≡ position (λ b. b == byte) text.now }
    ensures within { IfSome result (λ at. at < length text.now) }
{
    text.iter().position(|other| *other == byte)
}

// The text before a byte that comes again, and the text after that.
#[tactic(auto, unfolding(crate::specs::Reading::split_before))]
fn split_before(quote: u8, text: &[u8]) -> Option<(&[u8], &[u8])>
    ensures value { option_map (λ r. (r.0.now, r.1.now)) result ≡ split_before quote text.now }
    ensures shorter { IfSome result (λ r. length r.1.now < length text.now) }
{
    match index_of(quote, text) {
        Some(at) => Some((&text[..at], &text[at + 1..])),
        None => None,
    }
}

// A name of an item, if the bytes are one.
fn name_from(bytes: &[u8]) -> Option<&str>
    ensures { option_copied result ≡ (if is_name bytes.now then Some bytes.now else None) }
{
    if bytes.is_empty() {
        return None;
    }
    text_from(bytes)
}

// How many bytes remain at the first that is not UTF-8, or at the end of a prefix of a text.
fn left_after_text(prefix: &[u8], text: &[u8]) -> usize {
    let valid = match str::from_utf8(prefix) {
        Ok(_) => prefix.len(),
        Err(fault) => fault.valid_up_to(),
    };
    text.len().saturating_sub(valid)
}

// The item whose name and closing bracket stand here, after its first bracket, and the text after it.
#[tactic(auto, unfolding(crate::specs::Reading::item_at))]
fn item_at(alloc: Global, text: &[u8]) -> Result<(Operand, &[u8]), ReadingError>
    ensures value { MatchResult result (λ r. item_at text.now ≡ Some (r.0, r.1.now)) (IsStop (item_at text.now)) }
    ensures shorter { IfOk result (λ r. length r.1.now < length text.now) }
{
    let Some((name, rest)) = split_before(b']', text) else {
        let left = left_after_text(text, text);
        return Err(ReadingError::Fault { left });
    };
    match name_from(name) {
        Some(name) => Ok((Operand::Item(Text::from_str(alloc, name)?), rest)),
        None => Err(ReadingError::Fault {
            left: left_after_text(name, text),
        }),
    }
}

// The name between `[` and `]`, where the text is no more than that.
#[tactic(auto, unfolding(crate::specs::Reading::name_of))]
fn name_of(text: &[u8]) -> Option<&str>
    ensures { option_copied result ≡ name_of text.now }
{
    let [b'[', inner @ ..] = text else {
        return None;
    };
    match split_before(b']', inner)? {
        (name, []) => name_from(name),
        _ => None,
    }
}

// The operand that a quoted text is.
fn quoted_as(alloc: Global, text: &str) -> Result<Operand, AllocError>
    ensures { IfOk result (λ operand. operand ≡ quoted_as text.now (name_of text.now)) }
{
    match name_of(text.as_bytes()) {
        Some(name) => Ok(Operand::ItemText(Text::from_str(alloc, name)?)),
        None => Ok(Operand::Text(Text::from_str(alloc, text)?)),
    }
}

// The quoted text that stands here, after its first quote, and the text after it.
#[tactic(auto, unfolding(crate::specs::Reading::quoted_at))]
fn quoted_at(alloc: Global, quote: u8, text: &[u8]) -> Result<(Operand, &[u8]), ReadingError>
    ensures value { MatchResult result (λ r. quoted_at quote text.now ≡ Some (r.0, r.1.now)) (IsStop (quoted_at quote text.now)) }
    ensures shorter { IfOk result (λ r. length r.1.now < length text.now) }
{
    let Some((quoted, rest)) = split_before(quote, text) else {
        let left = left_after_text(text, text);
        return Err(ReadingError::Fault { left });
    };
    match text_from(quoted) {
        Some(quoted) => Ok((quoted_as(alloc, quoted)?, rest)),
        None => Err(ReadingError::Fault {
            left: left_after_text(quoted, text),
        }),
    }
}

// The operand with which the text begins, and the text after it.
fn operand_from(alloc: Global, text: &[u8]) -> Result<(Operand, &[u8]), ReadingError>
    ensures value { MatchResult result (λ r. operand_from text.now ≡ Some (r.0, r.1.now)) (IsStop (operand_from text.now)) }
    ensures shorter { IfOk result (λ r. length r.1.now < length text.now) }
{
    match text {
        [] => Err(ReadingError::Fault { left: 0 }),
        [b'[', rest @ ..] => item_at(alloc, rest),
        [quote @ (b'"' | b'\''), rest @ ..] => quoted_at(alloc, *quote, rest),
        _ => number_at(alloc, text),
    }
}

/// The operand after spaces, and the text after it.
#[tactic(auto, unfolding(crate::specs::Reading::operand_at))]
pub fn operand_at(alloc: Global, text: &[u8]) -> Result<(Operand, &[u8]), ReadingError>
    ensures value { MatchResult result (λ r. operand_at text.now ≡ Some (r.0, r.1.now)) (IsStop (operand_at text.now)) }
    ensures shorter { IfOk result (λ r. length r.1.now < length text.now) }
{
    operand_from(alloc, after_spaces(text))
}
