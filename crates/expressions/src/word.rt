ghost use Rattle.std.specs.Prelude.{◌≡◌, ◌+◌, ◌<◌, ◌≤◌, length, codes, IfSome};
ghost use Rattle.std.specs.Option.{option_copied, option_map};
ghost use Rattle.expressions.specs.Grammar.{is_space};
ghost use Rattle.expressions.specs.Reading.{after_spaces, after_word, after_spaced, after_either, comparison_of_two, comparison_of_one, comparison_from, comparison_at};

use mapdefs::Comparison;

// Whether the byte is a space, a tab or part of a line end.
fn is_space(byte: u8) -> bool
    ensures { result ≡ is_space byte }
{
    matches!(byte, b' ' | b'\t' | b'\n' | b'\r')
}

/// The text after spaces.
pub fn after_spaces(text: &[u8]) -> &[u8]
    ensures value { result.now ≡ after_spaces text.now }
    ensures within { length result.now ≤ length text.now }
{
    for (at, byte) in text.iter().enumerate() {
        if !is_space(*byte) {
            return &text[at..];
        }
    }
    &[]
}

// The text after the keyword with which it begins, in capitals or not.
fn after_word<'a>(word: &[u8], text: &'a [u8]) -> Option<&'a [u8]>
    ensures value { option_copied result ≡ after_word word.now text.now }
    ensures shorter { IfSome result (λ rest. length rest.now + length word.now ≤ length text.now) }
{
    let mut rest = text;
    for letter in word {
        let [first, others @ ..] = rest else {
            return None;
        };
        if !first.eq_ignore_ascii_case(letter) {
            return None;
        }
        rest = others;
    }
    Some(rest)
}

/// The text after spaces and the keyword, which has at least one letter.
#[tactic(auto, unfolding(crate::specs::Reading::after_spaced))]
pub fn after_spaced<'a>(word: &[u8], text: &'a [u8]) -> Option<&'a [u8]>
    requires { 1 ≤ length word.now }
    ensures value { option_copied result ≡ after_spaced word.now text.now }
    ensures shorter { IfSome result (λ rest. length rest.now < length text.now) }
{
    after_word(word, after_spaces(text))
}

/// The text after spaces and one of two keywords, which have at least one letter each.
#[tactic(auto, unfolding(crate::specs::Reading::after_either))]
pub fn after_either<'a>(word: &[u8], sign: &[u8], text: &'a [u8]) -> Option<&'a [u8]>
    requires word { 1 ≤ length word.now }
    requires sign { 1 ≤ length sign.now }
    ensures value { option_copied result ≡ after_either word.now sign.now text.now }
    ensures shorter { IfSome result (λ rest. length rest.now < length text.now) }
{
    let text = after_spaces(text);
    match after_word(word, text) {
        Some(rest) => Some(rest),
        None => after_word(sign, text),
    }
}

// The comparison that two bytes stand for, with letters in lower case.
#[tactic(auto, unfolding(crate::specs::Reading::comparison_of_two))]
fn comparison_of_two(first: u8, second: u8) -> Option<Comparison>
    ensures { result ≡ comparison_of_two first second }
{
    match (first, second) {
        (b'=', b'=') | (b'e', b'q') => Some(Comparison::Equal),
        (b'!', b'=') | (b'n', b'e') => Some(Comparison::NotEqual),
        (b'<', b'=') | (b'l', b'e') => Some(Comparison::AtMost),
        (b'>', b'=') | (b'g', b'e') => Some(Comparison::AtLeast),
        (b'l', b't') => Some(Comparison::Less),
        (b'g', b't') => Some(Comparison::Greater),
        (b'=', b'*') => Some(Comparison::EqualIgnoringCase),
        (b'i', b'n') => Some(Comparison::In),
        _ => None,
    }
}

// The comparison that one byte stands for.
#[tactic(auto, unfolding(crate::specs::Reading::comparison_of_one))]
fn comparison_of_one(byte: u8) -> Option<Comparison>
    ensures { result ≡ comparison_of_one byte }
{
    match byte {
        b'=' => Some(Comparison::Equal),
        b'<' => Some(Comparison::Less),
        b'>' => Some(Comparison::Greater),
        _ => None,
    }
}

// The comparison with which the text begins, and the text after it.
fn comparison_from(text: &[u8]) -> Option<(Comparison, &[u8])>
    ensures value { option_map (λ r. (r.0, r.1.now)) result ≡ comparison_from text.now }
    ensures shorter { IfSome result (λ r. length r.1.now < length text.now) }
{
    let [first, others @ ..] = text else {
        return None;
    };
    if let [second, rest @ ..] = others {
        let (first, second) = (first.to_ascii_lowercase(), second.to_ascii_lowercase());
        if let Some(comparison) = comparison_of_two(first, second) {
            return Some((comparison, rest));
        }
    }
    Some((comparison_of_one(*first)?, others))
}

/// The comparison after spaces, and the text after it.
#[tactic(auto, unfolding(crate::specs::Reading::comparison_at))]
pub fn comparison_at(text: &[u8]) -> Option<(Comparison, &[u8])>
    ensures value { option_map (λ r. (r.0, r.1.now)) result ≡ comparison_at text.now }
    ensures shorter { IfSome result (λ r. length r.1.now < length text.now) }
{
    comparison_from(after_spaces(text))
}

// The length of the longest prefix that the text and the keyword share, in capitals or not.
fn common_len(text: &[u8], word: &[u8]) -> usize {
    text.iter()
        .zip(word)
        .take_while(|(byte, letter)| byte.eq_ignore_ascii_case(letter))
        .count()
}

/// How many bytes remain where a text ceases to look like spaces and one of these keywords. The position of
/// a fault is tested, not proved.
pub fn left_without(words: &[&[u8]], text: &[u8]) -> usize {
    let text = after_spaces(text);
    let mut most = 0;
    for word in words {
        most = common_len(text, word).max(most);
    }
    text.len().saturating_sub(most)
}
