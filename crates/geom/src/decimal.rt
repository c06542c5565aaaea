ghost use Rattle.std.specs.Prelude.{◌≡◌, ◌+◌, ◌*◌, ◌^◌, ◌<◌, ◌≤◌, ◌++◌, length, take, slice_index, IsTrue, if◌then◌else◌, unsigned_abs};
ghost use Rattle.std.specs.List.{fold, position_or_len, before_first, after_first, list_all};
ghost use Rattle.std.specs.Char.{is_ascii_digit};
ghost use Rattle.std.specs.Option.{option_map};
ghost use Rattle.geom.specs.Capped.{capped, capped_exponent, clamped_to_limits, scaled};
ghost use Rattle.geom.specs.Decimal.{is_negative, unsigned, number_of, with_digit, is_point, is_exponent_letter, are_digits, whole_number, exponent_of, decimal_of, millionths_of, nearest, signed};

/// The power of ten by which a number counts: up or down by so many digits. One of both is 0.
/// What 64 bits don't hold is their greatest value. No text is long enough for the digits that would distinguish
/// them apart: the number is past every limit or rounds to 0, with the one as with the other.
#[derive(Clone, Copy)]
pub struct Exponent {
    pub up: u64,
    pub down: u64,
}

/// Whether the text begins with a minus, and what stands after its sign.
pub fn split_sign(text: &[u8]) -> (bool, &[u8])
    ensures sign { result.0 ≡ is_negative text.now }
    ensures rest { result.1.now ≡ unsigned text.now }
{
    match text {
        [b'-', rest @ ..] => (true, rest),
        [b'+', rest @ ..] => (false, rest),
        _ => (false, text),
    }
}

// Whether the byte is the letter before an exponent.
fn is_exponent_letter(byte: u8) -> bool
    ensures { result ≡ is_exponent_letter byte }
{
    byte == b'e' || byte == b'E'
}

// How many bytes stand before the exponent's letter.
fn mantissa_len(text: &[u8]) -> usize
    ensures count { result ≡ position_or_len is_exponent_letter text.now }
    ensures within { result ≤ length text.now }
{
    text.iter()
        .take_while(|byte| !is_exponent_letter(**byte))
        .count()
}

// How many bytes stand before the point.
fn whole_len(text: &[u8]) -> usize
    ensures count { result ≡ position_or_len is_point text.now }
    ensures within { result ≤ length text.now }
{
    text.iter().take_while(|byte| **byte != b'.').count()
}

// What stands before the point of a text, and after it.
fn split_point(text: &[u8]) -> (&[u8], &[u8])
    ensures whole { result.0.now ≡ before_first is_point text.now }
    ensures decimals { result.1.now ≡ after_first is_point text.now }
{
    let (whole, tail) = text.split_at(whole_len(text));
    match tail {
        [_, decimals @ ..] => (whole, decimals),
        [] => (whole, tail),
    }
}

// Whether each byte is a digit.
fn has_digits_alone(text: &[u8]) -> bool
    ensures { result ≡ list_all is_ascii_digit text.now }
{
    text.iter().all(|byte| byte.is_ascii_digit())
}

// The number with a further digit. What 64 bits don't hold stays their greatest value.
fn with_digit(number: u64, digit: u8) -> u64
    ensures { result ≡ capped (with_digit number digit) }
{
    number
        .saturating_mul(10)
        .saturating_add(u64::from(digit.saturating_sub(b'0')))
}

// The number that the digits make after those of `before`.
fn with_digits(before: u64, digits: &[u8]) -> u64
    ensures { result ≡ capped (fold with_digit before digits.now) }
{
    let mut number = before;
    for digit in digits {
        number = with_digit(number, *digit);
    }
    number
}

// The number with so many zeros after it.
fn with_zeros(number: u64, zeros: u128) -> u64
    ensures { result ≡ capped (number * 10 ^ zeros) }
{
    if number == 0 {
        0
    } else if zeros < 20 {
        number.saturating_mul(10u64.pow(zeros as u32))
    } else {
        u64::MAX
    }
}

// The exponent that a text without its letter means: a sign or none, and digits.
fn read_power(text: &[u8]) -> Option<Exponent>
    ensures { result ≡ option_map capped_exponent (whole_number text.now) }
{
    let (is_negative, digits) = split_sign(text);
    if digits.is_empty() || !has_digits_alone(digits) {
        return None;
    }
    let size = with_digits(0, digits);
    Some(if is_negative {
        Exponent { up: 0, down: size }
    } else {
        Exponent { up: size, down: 0 }
    })
}

// The exponent of a text, 0 where it has none.
fn read_exponent(text: &[u8]) -> Option<Exponent>
    ensures { result ≡ option_map capped_exponent (exponent_of text.now) }
{
    let letter = mantissa_len(text);
    if letter < text.len() {
        read_power(&text[letter + 1..])
    } else {
        Some(Exponent { up: 0, down: 0 })
    }
}

// Whether there are digits alone on both sides of the point, and one at least.
fn are_digits(whole: &[u8], decimals: &[u8]) -> bool
    ensures { result ≡ are_digits whole.now decimals.now }
{
    has_digits_alone(whole) && has_digits_alone(decimals) && whole.len() + decimals.len() > 0
}

// The number of the first digits, so many of them.
fn first_digits(whole: &[u8], decimals: &[u8], count: usize) -> u64
    requires { count ≤ length whole.now + length decimals.now }
    ensures { result ≡ capped (number_of (take count (whole.now ++ decimals.now))) }
{
    let before = count.min(whole.len());
    let number = with_digits(0, &whole[..before]);
    with_digits(number, &decimals[..count - before])
}

// The digit at an index, counted from the first one before the point.
fn digit_at(whole: &[u8], decimals: &[u8], index: usize) -> u8
    requires { index < length whole.now + length decimals.now }
    ensures { result ≡ slice_index (whole.now ++ decimals.now) index }
{
    if index < whole.len() {
        whole[index]
    } else {
        decimals[index - whole.len()]
    }
}

// The number of the digits without the last ones, so many of them, rounded by the first of those.
fn without_last(whole: &[u8], decimals: &[u8], count: u128) -> u64
    requires digits { IsTrue (are_digits whole.now decimals.now) }
    requires some { 1 ≤ count }
    ensures { clamped_to_limits result ≡ clamped_to_limits (nearest (number_of (whole.now ++ decimals.now)) (10 ^ count)) }
{
    let len = whole.len() + decimals.len();
    if count > len as u128 {
        return 0;
    }
    let kept = len - count as usize;
    let rounds_up = digit_at(whole, decimals, kept) >= b'5';
    first_digits(whole, decimals, kept).saturating_add(u64::from(rounds_up))
}

// The nearest number of millionths of a decimal number. Past every limit it may be another one.
fn millionths(whole: &[u8], decimals: &[u8], exponent: Exponent) -> u64
    requires digits { IsTrue (are_digits whole.now decimals.now) }
    ensures { clamped_to_limits result ≡ clamped_to_limits (scaled (whole.now ++ decimals.now) (exponent.up + 6) (length decimals.now + exponent.down)) }
{
    let up = u128::from(exponent.up) + 6;
    let down = decimals.len() as u128 + u128::from(exponent.down);
    if down > up {
        return without_last(whole, decimals, down - up);
    }
    let number = first_digits(whole, decimals, whole.len() + decimals.len());
    with_zeros(number, up - down)
}

/// The nearest number of millionths of the decimal number that a text without sign stands for. Past
/// every limit it may be another one.
pub fn read_decimal(text: &[u8]) -> Option<u64>
    ensures { option_map clamped_to_limits result ≡ option_map (λ d. clamped_to_limits (millionths_of d)) (decimal_of text.now) }
{
    let exponent = read_exponent(text)?;
    let (whole, decimals) = split_point(&text[..mantissa_len(text)]);
    if are_digits(whole, decimals) {
        Some(millionths(whole, decimals, exponent))
    } else {
        None
    }
}

/// The whole number nearest to p / q, in a tie the greater one.
pub fn nearest(p: u128, q: u128) -> u128
    requires least { 1 ≤ q }
    requires p { p < 2 ^ 96 }
    requires q { q < 2 ^ 96 }
    ensures value { result ≡ nearest p q }
    ensures bound { result * q ≤ p + q }
{
    (2 * p + q) / (2 * q)
}

/// A size with its sign.
pub fn with_sign(is_negative: bool, size: u128) -> i64
    requires { size < 2 ^ 63 }
    ensures value { result ≡ signed is_negative size }
    ensures size { unsigned_abs result ≡ size }
{
    let size = size as i64;
    if is_negative { -size } else { size }
}
