ghost use Rattle.std.specs.Prelude.{◌≡◌, ◌<◌, ◌+◌, ◌≤◌, ◌==◌, length, MatchResult, MatchOption, IfOk, IfSome, Ok, Err, Some, None};
ghost use Rattle.std.specs.List.{position_or_len};
ghost use Rattle.batches.specs.Command.{append_of, count_of, first_command, is_line_end, is_space, line_of, with_bytes, without_cr};

use crate::Bytes;
use geom::read_digits;
use thiserror::Error;

/// A command of a batch. Names are bytes, which need not be UTF-8.
#[derive(Drop)]
pub enum Command<'a> {
    /// Switches a layer on.
    On(Bytes<'a>),
    /// Switches a layer off.
    Off(Bytes<'a>),
    /// Takes all features out of a layer.
    Clear(Bytes<'a>),
    /// Adds the rows of a table, by its bytes, to a layer.
    Append(Bytes<'a>, Bytes<'a>),
}

/// Why a command can't be read.
#[derive(Clone, Copy, Debug, Error)]
pub enum CommandFault {
    /// Its keyword is unknown, or the line can't be read.
    #[error("an unknown word, or a line that can't be read")]
    UnknownWord,
    /// The bytes end before the command does.
    #[error("the bytes end before the command does")]
    Short,
}

/// The content of a line.
#[derive(Drop)]
pub enum CommandLine<'a> {
    /// A whole command.
    Whole(Command<'a>),
    /// The line before a table of so many bytes for a layer.
    Wants(u64, Bytes<'a>),
}

/// The number that a text of 1 to 10 digits stands for.
#[tactic(auto, using(crate::proofs::Counts::counted))]
pub fn count_of(text: &[u8]) -> Option<u64>
    ensures { result ≡ count_of text.now }
{
    if text.is_empty() || text.len() > 10 {
        return None;
    }
    let count = read_digits(text, 10_000_000_000)?;
    Some(count as u64)
}

// What follows APPEND: a count, a space and a name.
fn append_of(text: &[u8]) -> Option<CommandLine<'_>>
    ensures { result ≡ append_of text.now }
{
    let (digits, end) = text.split_at(word_len(text));
    match end {
        [] => None,
        [_, name @ ..] => match count_of(digits) {
            Some(count) => Some(CommandLine::Wants(count, Bytes::new(name))),
            None => None,
        },
    }
}

// How many bytes come before the first space.
fn word_len(bytes: &[u8]) -> usize
    ensures index { result ≡ position_or_len is_space bytes.now }
    ensures within { result ≤ length bytes.now }
{
    bytes
        .iter()
        .position(|byte| *byte == b' ')
        .unwrap_or(bytes.len())
}

/// How many bytes come before the first LF.
pub fn line_len(bytes: &[u8]) -> usize
    ensures index { result ≡ position_or_len is_line_end bytes.now }
    ensures within { result ≤ length bytes.now }
{
    bytes
        .iter()
        .position(|byte| *byte == b'\n')
        .unwrap_or(bytes.len())
}

// The content of a line.
fn line_of(line: &[u8]) -> Option<CommandLine<'_>>
    ensures { result ≡ line_of line.now }
{
    if line.starts_with(b"ON ") {
        Some(CommandLine::Whole(Command::On(Bytes::new(&line[3..]))))
    } else if line.starts_with(b"OFF ") {
        Some(CommandLine::Whole(Command::Off(Bytes::new(&line[4..]))))
    } else if line.starts_with(b"CLEAR ") {
        Some(CommandLine::Whole(Command::Clear(Bytes::new(&line[6..]))))
    } else if line.starts_with(b"APPEND ") {
        append_of(&line[7..])
    } else {
        None
    }
}

// A line without the CR at its end.
fn without_cr(line: &[u8]) -> &[u8]
    ensures { result.now ≡ without_cr line.now }
{
    let count = line.len();
    if count > 0 && line[count - 1] == b'\r' {
        &line[..count - 1]
    } else {
        line
    }
}

// The command of a line, and the bytes after it.
fn with_bytes<'a>(
    line: Option<CommandLine<'a>>,
    rest: &'a [u8],
) -> Result<(Command<'a>, &'a [u8]), CommandFault>
    ensures value { MatchResult result (λ r. with_bytes line.entry rest.now ≡ Ok (r.0, r.1.now)) (λ fault. with_bytes line.entry rest.now ≡ Err fault) }
    ensures within { IfOk result (λ r. length r.1.now ≤ length rest.now) }
{
    match line {
        None => Err(CommandFault::UnknownWord),
        Some(CommandLine::Whole(command)) => Ok((command, rest)),
        Some(CommandLine::Wants(count, name)) => {
            if (rest.len() as u64) < count {
                return Err(CommandFault::Short);
            }
            let (table, after) = rest.split_at(count as usize);
            Ok((Command::Append(name, Bytes::new(table)), after))
        }
    }
}

/// The command at the beginning of some bytes, and the bytes after it, or what is wrong there.
pub fn first_command(bytes: &[u8]) -> Result<(Command<'_>, &[u8]), CommandFault>
    ensures value { MatchResult result (λ r. first_command bytes.now ≡ Ok (r.0, r.1.now)) (λ fault. first_command bytes.now ≡ Err fault) }
    ensures shrinks { IfOk result (λ r. length r.1.now < length bytes.now) }
{
    let (line, end) = bytes.split_at(line_len(bytes));
    match end {
        [] => Err(CommandFault::Short),
        [_, rest @ ..] => with_bytes(line_of(without_cr(line)), rest),
    }
}
