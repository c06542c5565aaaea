ghost use Rattle.std.specs.Prelude.{◌≡◌, is_some};
ghost use Rattle.maplex.specs.ByteFault.{byte_fault, byte_fault_of, is_at_bad_byte, text_byte_fault};
ghost use Rattle.maplex.specs.Lexed.{lexed};

use crate::cursor::Cursor;
use crate::extent::extent_of;
use crate::fault::LexKind;
use crate::text::{control_at, read_text};
use crate::tokens::step;

/// What is wrong with a bad byte.
#[derive(Clone, Copy, Debug)]
pub enum ByteFault {
    /// It is a bracket that closes where none is open.
    ClosesNothing,
    /// It is a control byte in a token.
    Control,
    /// It begins what is not UTF-8 in a token.
    NotUtf8,
}

// What is wrong with the first bad byte of a text.
fn text_byte_fault(bytes: &[u8]) -> Option<ByteFault>
    ensures { result ≡ text_byte_fault bytes.now }
{
    match read_text(bytes) {
        Ok(_) => None,
        Err(at) if at == control_at(bytes) => Some(ByteFault::Control),
        Err(_) => Some(ByteFault::NotUtf8),
    }
}

// What is wrong with the first bad byte of the token that begins the bytes.
fn byte_fault_of(bytes: &[u8]) -> Option<ByteFault>
    ensures { result ≡ byte_fault_of bytes.now }
{
    let [first, others @ ..] = bytes else {
        return None;
    };
    match extent_of(*first, others) {
        Ok(extent) => {
            let border_len = extent.border_len();
            text_byte_fault(&bytes[border_len..border_len + extent.size])
        }
        Err(LexKind::BadByte) => Some(ByteFault::ClosesNothing),
        Err(LexKind::OpenString | LexKind::TooLong) => None,
    }
}

/// What is wrong with the first bad byte of a source. There is an answer exactly where the first fault of the
/// source is a bad byte.
pub fn byte_fault(source: &[u8]) -> Option<ByteFault>
    ensures fault { result ≡ byte_fault source.now }
    ensures bad_byte { is_some result ≡ is_at_bad_byte (lexed source.now).tail }
{
    let mut at = Cursor::new(source);
    for _step in 0..source.len() {
        at.skip_blanks();
        match step(&at) {
            Ok((_, count)) => at.pass(count),
            Err(_) => return byte_fault_of(at.rest()),
        }
    }
    None
}
