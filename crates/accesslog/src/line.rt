//! The lines of a log.

ghost use Rattle.std.specs.Prelude.{◌≡◌, ◌++◌, ◌<◌, OnOk, IfOk};
ghost use Rattle.std.specs.List.{flat_map};
ghost use Rattle.std.specs.Fmt.{decimal};
ghost use Rattle.accesslog.specs.Lines.{answer_line, cause_word, command_line, dropped_line, end_line, escaped, escaped_byte, hex_digit, hint_line, hint_text, is_escaped};

use crate::hint::Hint;
use itoa::Buffer;
use std::alloc::{AllocError, Global};

/// The note of an answer.
#[derive(Clone, Copy, Debug)]
pub struct AnswerNote<'a> {
    /// The number of its connection.
    pub connection: u64,
    /// The target of its request, as it was sent: path and query.
    pub target: &'a [u8],
    /// Its status.
    pub status: u16,
    /// How many bytes it has, with its head.
    pub bytes: u64,
    /// How many milliseconds passed from the first byte of its request to its own last byte.
    pub millis: u64,
}

/// Why a connection ended before its client had all of its answers, or between requests.
#[derive(Clone, Copy, Debug)]
pub enum Cause {
    /// No byte of a request came in time.
    Idle,
    /// A head didn't end in time.
    Head,
    /// The client took no byte of an answer in time.
    Answer,
    /// It took an answer too slowly.
    Rate,
    /// A read or a write failed.
    Fault,
    /// It gave way to others.
    GaveWay,
    /// It came where it couldn't be served, and was sent that the server is busy.
    Busy,
    /// The service stopped, and it wasn't being answered.
    Stopped,
}

// Whether a byte is shown by its digits.
fn is_escaped(byte: u8) -> bool
    ensures { result ≡ is_escaped byte }
{
    byte < 33 || 126 < byte || byte == b'"' || byte == b'\\'
}

// A hexadecimal digit, as a letter.
fn hex_digit(digit: u8) -> u8
    requires { digit < 16 }
    ensures { result ≡ hex_digit digit }
{
    if digit < 10 { 48 + digit } else { 87 + digit }
}

// Adds the text of a byte.
fn push_byte(line: &mut Vec<u8>, byte: u8) -> Result<(), AllocError>
    ensures { OnOk result (line.new.items ≡ line.old.items ++ escaped_byte byte) }
{
    if is_escaped(byte) {
        return line.extend_from_slice(&[b'\\', b'x', hex_digit(byte / 16), hex_digit(byte % 16)]);
    }
    line.extend_from_slice(&[byte])
}

// Adds the text of bytes.
fn push_escaped(line: &mut Vec<u8>, bytes: &[u8]) -> Result<(), AllocError>
    ensures { OnOk result (line.new.items ≡ line.old.items ++ escaped bytes.now) }
{
    for byte in bytes {
        push_byte(line, *byte)?;
    }
    Ok(())
}

// Adds a number.
fn push_number(line: &mut Vec<u8>, number: u64) -> Result<(), AllocError>
    ensures { OnOk result (line.new.items ≡ line.old.items ++ decimal number) }
{
    let mut digits = Buffer::new();
    line.extend_from_slice(digits.format(number).as_bytes())
}

/// The line on an answer. The error of each line is that memory was refused.
pub fn answer_line(alloc: Global, note: &AnswerNote<'_>) -> Result<Vec<u8>, AllocError>
    ensures { IfOk result (λ line. line.items ≡ answer_line note.now) }
{
    let mut line = Vec::new(alloc);
    line.extend_from_slice(b"answer ")?;
    push_number(&mut line, note.connection)?;
    line.extend_from_slice(b" \"")?;
    push_escaped(&mut line, note.target)?;
    line.extend_from_slice(b"\" ")?;
    push_number(&mut line, u64::from(note.status))?;
    line.extend_from_slice(b" ")?;
    push_number(&mut line, note.bytes)?;
    line.extend_from_slice(b" ")?;
    push_number(&mut line, note.millis)?;
    line.extend_from_slice(b"\n")?;
    Ok(line)
}

// The text of a cause.
#[tactic(auto, unfolding(crate::specs::Lines::cause_word))]
fn cause_word(cause: Cause) -> &'static [u8]
    ensures { result.now ≡ cause_word cause }
{
    match cause {
        Cause::Idle => b"idle",
        Cause::Head => b"head",
        Cause::Answer => b"answer",
        Cause::Rate => b"rate",
        Cause::Fault => b"fault",
        Cause::GaveWay => b"evicted",
        Cause::Busy => b"busy",
        Cause::Stopped => b"stopped",
    }
}

/// The line on a connection that ended before its client had all of its answers.
pub fn end_line(alloc: Global, connection: u64, cause: Cause) -> Result<Vec<u8>, AllocError>
    ensures { IfOk result (λ line. line.items ≡ end_line connection cause) }
{
    let mut line = Vec::new(alloc);
    line.extend_from_slice(b"end ")?;
    push_number(&mut line, connection)?;
    line.extend_from_slice(b" ")?;
    line.extend_from_slice(cause_word(cause))?;
    line.extend_from_slice(b"\n")?;
    Ok(line)
}

// The text of a likely cause.
#[tactic(auto, unfolding(crate::specs::Lines::hint_text))]
fn hint_text(hint: Hint) -> &'static [u8]
    ensures { result.now ≡ hint_text hint }
{
    match hint {
        Hint::OlderName => b"SRS is the name of WMS 1.1.1: 1.3.0 has CRS",
        Hint::NoMercator => {
            b"EPSG:3857 isn't offered: CONFIG \"WMS_CRS\" \"EPSG:3857\" in MAP offers it"
        }
        Hint::UnknownSystem => {
            b"CRS is none of CRS:84, EPSG:4326 and, where the map offers it, EPSG:3857"
        }
        Hint::NotFour => b"BBOX isn't four numbers between commas",
        Hint::NoNumber => {
            b"a number of BBOX can't be read or is too large: degrees go to 1,000, and EPSG:3857 is in metres"
        }
        Hint::NoAreaByLatitudes => {
            b"BBOX has no area: in EPSG:4326 it is south,west,north,east, which WMS 1.1.1 has as west,south,east,north"
        }
        Hint::NoArea => b"BBOX has no area: it is west,south,east,north",
    }
}

/// The line on the likely cause of a fault, behind the line on its answer.
pub fn hint_line(alloc: Global, connection: u64, hint: Hint) -> Result<Vec<u8>, AllocError>
    ensures { IfOk result (λ line. line.items ≡ hint_line connection hint) }
{
    let mut line = Vec::new(alloc);
    line.extend_from_slice(b"hint ")?;
    push_number(&mut line, connection)?;
    line.extend_from_slice(b" ")?;
    line.extend_from_slice(hint_text(hint))?;
    line.extend_from_slice(b"\n")?;
    Ok(line)
}

/// The line on a command of an administrator, by the line that answers it, with its line feed.
pub fn command_line(alloc: Global, connection: u64, answer: &[u8]) -> Result<Vec<u8>, AllocError>
    ensures { IfOk result (λ line. line.items ≡ command_line connection answer.now) }
{
    let mut line = Vec::new(alloc);
    line.extend_from_slice(b"batch ")?;
    push_number(&mut line, connection)?;
    line.extend_from_slice(b" ")?;
    line.extend_from_slice(answer)?;
    Ok(line)
}

/// The line on lines that were dropped.
pub fn dropped_line(alloc: Global, count: u64) -> Result<Vec<u8>, AllocError>
    ensures { IfOk result (λ line. line.items ≡ dropped_line count) }
{
    let mut line = Vec::new(alloc);
    line.extend_from_slice(b"dropped ")?;
    push_number(&mut line, count)?;
    line.extend_from_slice(b"\n")?;
    Ok(line)
}
