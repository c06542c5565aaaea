ghost use Rattle.std.specs.Prelude.{◌≡◌, ◌+◌, ◌*◌, ◌≤◌, ◌<◌, ◌/◌, length, take, drop, slice_index, ◌++◌};
ghost use Rattle.hex.specs.Hex.{encode_lower, lower_digits};
ghost use Rattle.scripts.specs.declared.hexadecimal.TheConstants.{LINE};
ghost use Rattle.scripts.specs.Transcript.{hex_line, hex_lines};

// The most bytes that are written on one line.
pub(crate) const LINE: usize = 32;

// The digit of a value below 16.
fn digit_of(value: u8) -> u8
    requires { value < 16 }
    ensures { result ≡ slice_index lower_digits value }
{
    if value < 10 {
        b'0' + value
    } else {
        b'a' - 10 + value
    }
}

// Puts the digits of a whole line. Its lengths are constants, so that many bytes are done at once: the library's call
// takes four times as many instructions.
fn fill_digits(bytes: &[u8; 32], digits: &mut [u8; 64])
    ensures { digits.new ≡ encode_lower bytes.now }
{
    for i in 0..32 {
        let byte = bytes[i];
        digits[2 * i] = digit_of(byte >> 4);
        digits[2 * i + 1] = digit_of(byte & 15);
    }
}

// Puts the digits of some bytes.
fn fill_text(bytes: &[u8], digits: &mut [u8])
    requires { length digits.old ≡ 2 * length bytes.now }
    ensures { digits.new ≡ encode_lower bytes.now }
{
    match (bytes.as_array(), digits.as_mut_array()) {
        (Some(bytes), Some(digits)) => fill_digits(bytes, digits),
        _ => {
            let _ = hex::encode_to_slice(bytes, digits);
        }
    }
}

// Puts a line at the start of the buffer, and returns how many bytes it has.
fn fill_line(bytes: &[u8], room: &mut [u8]) -> usize
    requires short { length bytes.now ≤ LINE }
    requires room { 2 * LINE + 1 ≤ length room.old }
    ensures line { take result room.new ≡ hex_line bytes.now }
    ensures count { result ≡ 2 * length bytes.now + 1 }
    ensures rest { length room.new ≡ length room.old }
{
    let digits = 2 * bytes.len();
    fill_text(bytes, &mut room[..digits]);
    room[digits] = b'\n';
    digits + 1
}

/// Puts the lines of some bytes at the start of the buffer, and returns how many bytes they have.
pub(crate) fn fill_lines(bytes: &[u8], room: &mut [u8]) -> usize
    requires room { (2 * LINE + 1) * ((length bytes.now + 31) / LINE) ≤ length room.old }
    ensures lines { take result room.new ≡ hex_lines bytes.now }
    ensures count { result ≤ length room.new }
    ensures rest { length room.new ≡ length room.old }
{
    let mut count = 0;
    let mut rest = bytes;
    while !rest.is_empty() {
        let (line, others) = rest.split_at(rest.len().min(LINE));
        count += fill_line(line, &mut room[count..]);
        rest = others;
    }
    count
}
