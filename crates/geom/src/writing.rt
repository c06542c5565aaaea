ghost use Rattle.std.specs.Prelude.{◌≡◌, ◌++◌, length, take, OnErr, OnOk};
ghost use Rattle.geom.specs.Written.{last_digit, signed_size, six_digits, written_size};

use itoa::Buffer;
use std::alloc::AllocError;

// The lowest digit of a number.
fn last_digit(n: u64) -> u8
    ensures { result ≡ last_digit n }
{
    b'0' + (n % 10) as u8
}

// The six lowest digits of a number.
fn six_digits(n: u64) -> [u8; 6]
    ensures { result ≡ six_digits n }
{
    [
        last_digit(n / 100_000),
        last_digit(n / 10_000),
        last_digit(n / 1_000),
        last_digit(n / 100),
        last_digit(n / 10),
        last_digit(n),
    ]
}

// Adds a size in millionths. Where memory is refused, some prefix of it may stand at the end.
fn add_size(out: &mut Vec<u8>, size: u64) -> Result<(), AllocError>
    ensures ok { OnOk result (out.new.items ≡ out.old.items ++ written_size size) }
    ensures err { OnErr result (take (length out.old.items) out.new.items ≡ out.old.items) }
{
    out.extend_from_slice(Buffer::new().format(size / 1_000_000).as_bytes())?;
    out.push(b'.')?;
    out.extend_from_slice(&six_digits(size))
}

// Adds a sign, if there is one, and a size in millionths. Where memory is refused, some prefix of them may stand at the end.
fn add_signed(out: &mut Vec<u8>, is_negative: bool, size: u64) -> Result<(), AllocError>
    ensures ok { OnOk result (out.new.items ≡ out.old.items ++ signed_size is_negative size) }
    ensures err { OnErr result (take (length out.old.items) out.new.items ≡ out.old.items) }
{
    if is_negative {
        out.push(b'-')?;
    }
    add_size(out, size)
}

// Adds a sign, if there is one, and a size in millionths, or nothing.
pub(crate) fn write_signed(
    out: &mut Vec<u8>,
    is_negative: bool,
    size: u64,
) -> Result<(), AllocError>
    ensures ok { OnOk result (out.new.items ≡ out.old.items ++ signed_size is_negative size) }
    ensures err { OnErr result (out.new.items ≡ out.old.items) }
{
    let before = out.len();
    let added = add_signed(out, is_negative, size);
    if added.is_err() {
        out.truncate(before);
    }
    added
}
