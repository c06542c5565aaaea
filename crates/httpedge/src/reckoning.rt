//! What the answer to a request has at most, about, reckoned from its text before it is made.

ghost use Rattle.std.specs.Prelude.{◌≡◌, ◌≤◌, ◌*◌, codes};
ghost use Rattle.httpedge.specs.Reckoning.{is_after_value, is_before_parameter, largest, number_from, number_of, reckoned_bytes, with_digit};

// The largest number that is distinguished: no side of a picture and no count of features is larger.
const MAX_NUMBER: u64 = 200_000;

// Whether a parameter begins after a byte.
fn is_before_parameter(byte: u8) -> bool
    ensures { result ≡ is_before_parameter byte }
{
    byte == b'?' || byte == b'&'
}

// Whether a byte ends a value.
fn is_after_value(byte: u8) -> bool
    ensures { result ≡ is_after_value byte }
{
    byte == b'&' || byte == b' '
}

// A number with a further digit.
fn with_digit(number: u64, digit: u8) -> u64
    requires { number ≤ MAX_NUMBER }
    ensures value { result ≡ with_digit number digit }
    ensures bound { result ≤ MAX_NUMBER }
{
    (number * 10 + u64::from(digit.saturating_sub(b'0'))).min(MAX_NUMBER)
}

// The number that the digits of a value make, the largest where anything else stands among them.
fn number(value: &[u8]) -> u64
    ensures value { result ≡ number_from 0 value.now }
    ensures bound { result ≤ MAX_NUMBER }
{
    let mut rest = value;
    let mut number: u64 = 0;
    while let [byte, others @ ..] = rest {
        if !byte.is_ascii_digit() {
            return if is_after_value(*byte) {
                number
            } else {
                MAX_NUMBER
            };
        }
        number = with_digit(number, *byte);
        rest = others;
    }
    number
}

// The number of the parameter that a text begins with, where it has this name.
fn number_of(name: &[u8], text: &[u8]) -> u64
    ensures value { result ≡ number_of name.now text.now }
    ensures bound { result ≤ MAX_NUMBER }
{
    let mut letters = name;
    let mut rest = text;
    while let [letter, others @ ..] = letters {
        let [byte, bytes @ ..] = rest else {
            return 0;
        };
        if *byte == b'%' {
            return MAX_NUMBER;
        }
        if byte.to_ascii_lowercase() != *letter {
            return 0;
        }
        letters = others;
        rest = bytes;
    }
    match rest {
        [b'=', value @ ..] => number(value),
        _ => 0,
    }
}

// The largest number of a parameter with this name, 0 without one.
fn largest(name: &[u8], text: &[u8]) -> u64
    ensures value { result ≡ largest name.now text.now }
    ensures bound { result ≤ MAX_NUMBER }
{
    let mut rest = text;
    let mut most: u64 = 0;
    while let [byte, others @ ..] = rest {
        if is_before_parameter(*byte) {
            most = most.max(number_of(name, others));
        }
        rest = others;
    }
    most
}

// How many pixels a picture has.
fn pixels(width: u64, height: u64) -> u64
    requires width { width ≤ MAX_NUMBER }
    requires height { height ≤ MAX_NUMBER }
    ensures value { result ≡ width * height }
    ensures bound { result ≤ 40000000000 }
{
    width * height
}

/// How many bytes the answer to a request has at most, about, by the parameters WIDTH, HEIGHT and FEATURE_COUNT of its text.
#[tactic(auto, unfolding(crate::specs::Reckoning::reckoned_bytes))]
pub fn reckoned_bytes(text: &[u8]) -> u64
    ensures { result ≡ reckoned_bytes text.now }
{
    let pixels = pixels(largest(b"width", text), largest(b"height", text));
    4 * pixels + 1_024 * (largest(b"feature_count", text) + 1)
}
