ghost use Rattle.std.specs.Prelude.{◌≡◌};
ghost use Rattle.xmltext.specs.Characters.{is_forbidden_control, begins_with_noncharacter, has_forbidden};

// Whether a byte is a control character that XML forbids.
fn is_forbidden_control(byte: u8) -> bool
    ensures { result ≡ is_forbidden_control byte }
{
    byte < 32 && !(byte == b'\t' || byte == b'\n' || byte == b'\r')
}

// Whether bytes begin with U+FFFE or U+FFFF.
fn begins_with_noncharacter(bytes: &[u8]) -> bool
    ensures { result ≡ begins_with_noncharacter bytes.now }
{
    bytes.starts_with(&[0xEF, 0xBF, 0xBE]) || bytes.starts_with(&[0xEF, 0xBF, 0xBF])
}

/// Whether a text has a character that XML forbids: a control character below U+0020 other than a tab, a line feed
/// and a carriage return, U+FFFE or U+FFFF. A document with such a text isn't well-formed.
pub fn has_forbidden(text: &str) -> bool
    ensures { result ≡ has_forbidden text.now }
{
    let bytes = text.as_bytes();
    for i in 0..bytes.len() {
        if is_forbidden_control(bytes[i]) || begins_with_noncharacter(&bytes[i..]) {
            return true;
        }
    }
    false
}
