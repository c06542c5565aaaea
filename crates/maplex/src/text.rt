ghost use Rattle.std.specs.Prelude.{◌≡◌, ◌+◌, ◌^◌, ◌<◌, ◌≤◌, length, Some, None, IfOk, IfErr, OnOk};
ghost use Rattle.std.specs.List.{position_or_len};
ghost use Rattle.maplex.specs.Byte.{is_control};
ghost use Rattle.maplex.specs.Token.{bad_at, text_fault};

use crate::byte::is_control;
use crate::cursor::line_ends;
use crate::fault::{LexFault, LexKind};
use crate::token::TOKEN_LIMIT;
use std::str;

/// How many bytes come before the first control byte.
pub fn control_at(bytes: &[u8]) -> usize
    ensures count { result ≡ position_or_len is_control bytes.now }
    ensures within { result ≤ length bytes.now }
{
    bytes.iter().take_while(|byte| !is_control(**byte)).count()
}

/// The bytes as text, or the index of the first bad one.
pub fn read_text(bytes: &[u8]) -> Result<&str, usize>
    ensures same { IfOk result (λ text. text.now ≡ bytes.now) }
    ensures good { OnOk result (bad_at bytes.now ≡ length bytes.now) }
    ensures bad { IfErr result (λ at. at ≡ bad_at bytes.now) }
    ensures within { IfErr result (λ at. at < length bytes.now) }
{
    let control = control_at(bytes);
    match str::from_utf8(bytes) {
        Ok(text) if control == bytes.len() => Ok(text),
        Ok(_) => Err(control),
        Err(fault) => Err(control.min(fault.valid_up_to())),
    }
}

/// The bytes as the text of a token that begins on the line, or the fault in them.
pub fn checked_text(bytes: &[u8], line: u64) -> Result<&str, LexFault>
    requires { line + length bytes.now < 2 ^ 64 }
    ensures same { IfOk result (λ text. text.now ≡ bytes.now) }
    ensures good { OnOk result (text_fault line bytes.now ≡ None) }
    ensures fault { IfErr result (λ f. text_fault line bytes.now ≡ Some f) }
{
    match read_text(bytes) {
        Err(at) => Err(LexFault {
            line: line + line_ends(&bytes[..at]) as u64,
            kind: LexKind::BadByte,
        }),
        Ok(_) if bytes.len() > TOKEN_LIMIT => Err(LexFault {
            line,
            kind: LexKind::TooLong,
        }),
        Ok(text) => Ok(text),
    }
}
