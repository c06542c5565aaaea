ghost use Rattle.std.specs.Prelude.{◌≡◌, ◌<◌, ◌≤◌, length, MatchOption, IfSome, Option, None, Some, Ok, Err};
ghost use Rattle.scripts.specs.Script.{batch_of, command_of, first_command, script_of, fault_of};

use batches::{count_of, line_len};
use mapmachine::{Bytes, Event};

// The batch of so many bytes at the start of some bytes, and the bytes after it.
fn split_batch(count: u64, rest: &[u8]) -> Option<(Event<'_>, &[u8])>
    ensures value { MatchOption result (batch_of (Some count) rest.now ≡ None) (λ c. batch_of (Some count) rest.now ≡ Some (c.0, c.1.now)) }
    ensures within { IfSome result (λ c. length c.1.now ≤ length rest.now) }
{
    if (rest.len() as u64) < count {
        return None;
    }
    let (bytes, after) = rest.split_at(count as usize);
    Some((Event::Batch(Bytes::new(bytes)), after))
}

// The command of a line that some bytes follow, and the bytes after it.
fn command_of<'a>(line: &'a [u8], rest: &'a [u8]) -> Option<(Event<'a>, &'a [u8])>
    ensures value { MatchOption result (command_of line.now rest.now ≡ None) (λ c. command_of line.now rest.now ≡ Some (c.0, c.1.now)) }
    ensures within { IfSome result (λ c. length c.1.now ≤ length rest.now) }
{
    if line.starts_with(b"QUERY ") {
        Some((Event::Query(Bytes::new(&line[6..])), rest))
    } else if line.starts_with(b"BATCH ") {
        match count_of(&line[6..]) {
            Some(count) => split_batch(count, rest),
            None => None,
        }
    } else {
        None
    }
}

/// The first command of a script, and the bytes after it.
pub fn split_command(script: &[u8]) -> Option<(Event<'_>, &[u8])>
    ensures shrinks { IfSome result (λ c. length c.1.now < length script.now) }
    ensures value { MatchOption result (first_command script.now ≡ None) (λ c. first_command script.now ≡ Some (c.0, c.1.now)) }
{
    let (line, end) = script.split_at(line_len(script));
    match end {
        [] => None,
        [_, rest @ ..] => command_of(line, rest),
    }
}

/// The number of the first unreadable command of a script, counted from 1.
pub fn unreadable_command(script: &[u8]) -> Option<u64>
    ensures { result ≡ fault_of (script_of script.now) }
{
    let mut rest = script;
    let mut number = 1;
    while !rest.is_empty() {
        match split_command(rest) {
            Some((_, others)) => rest = others,
            None => return Some(number),
        }
        number += 1;
    }
    None
}
