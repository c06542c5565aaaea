ghost use Rattle.std.specs.Prelude.{◌≡◌, ◌≤◌, ◌^◌, IfSome};
ghost use Rattle.std.specs.Option.{option_map};
ghost use Rattle.geom.specs.Decimal.{with_digit};
ghost use Rattle.geom.specs.Natural.{number_in, up_to};

// The number with a further digit, at most `most`.
fn with_digit(number: u128, digit: u8, most: u128) -> u128
    requires number { number ≤ most }
    requires most { most ≤ 2 ^ 64 }
    requires digit { 48 ≤ digit }
    ensures value { result ≡ up_to most (with_digit number digit) }
    ensures bound { result ≤ most }
{
    (number * 10 + u128::from(digit - b'0')).min(most)
}

/// The whole number that ASCII digits stand for, or `most` where it is greater; no digits are 0.
/// There is none where a byte isn't a digit. The text may be of any length, and no memory is taken.
pub fn read_digits(digits: &[u8], most: u128) -> Option<u128>
    requires { most ≤ 2 ^ 64 }
    ensures value { result ≡ option_map (up_to most) (number_in digits.now) }
    ensures bound { IfSome result (λ number. number ≤ most) }
{
    let mut number = 0;
    for digit in digits {
        if !digit.is_ascii_digit() {
            return None;
        }
        number = with_digit(number, *digit, most);
    }
    Some(number)
}
