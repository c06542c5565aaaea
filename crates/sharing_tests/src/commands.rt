ghost use Rattle.std.specs.Prelude.{◌≡◌};

use crate::maps::{machine, shown};
use crate::memory::{Coming, Going};
use administration::{Client, administer};
use history::Blank;
use keepers::Nowhere;
use mapmachine::Machine;
use mapshare::{Admin, Sharing, open};
use std::alloc::{AllocError, Global};
use std::marker::Brand;
use std::sync::Wait;
use streams::Flagged;
use test_tables::{TableFault, check_rows};

// A connection to an administrator, and whether its writer has failed.
#[derive(Drop)]
struct Pipe {
    client: Client<Flagged<Coming>, Flagged<Going>>,
    failed: bool,
}

// A connection on which these bytes come, so many at once. Its reader may fail after them, and its writer takes so many.
fn pipe_of(
    alloc: Global,
    bytes: &[u8],
    at_once: usize,
    fails: bool,
    room: usize,
) -> Result<Pipe, AllocError> {
    let client = Client {
        reader: Flagged::new(Coming::new(Vec::from_slice(alloc, bytes)?, at_once, fails)),
        writer: Flagged::new(Going::new(alloc, room)),
    };
    Ok(Pipe {
        client,
        failed: false,
    })
}

// Serves connections, one after the other.
fn serve_pipes<S: Sharing, R: AllocGlobal + Wait>(
    rt: &R,
    admin: Admin<S, Nowhere>,
    pipes: &mut Vec<Pipe>,
) -> Admin<S, Nowhere> {
    let mut admin = admin;
    for pipe in pipes.iter_mut() {
        let (after, served) = administer(rt, admin, &mut pipe.client);
        admin = after;
        pipe.failed = served.is_err();
    }
    admin
}

// Shares a map, and serves connections. Returns whether the map was shared.
fn share<S: Sharing, R: AllocGlobal + Wait>(
    rt: &R,
    alloc: Global,
    blank: Blank,
    machine: &Machine,
    pipes: &mut Vec<Pipe>,
) -> bool
    requires history { blank.seen.book ≡ S.book }
    requires opening { machine.now ≡ S.opening }
{
    let Ok((admin, _readers)) = open::<S, Nowhere, R>(rt, blank, machine, 1) else {
        return false;
    };
    let admin = serve_pipes(rt, admin, pipes);
    admin.close(rt);
    true
}

// The same with the map of a layer `a`, which is opened anew.
fn administered<R: AllocGlobal + Wait>(
    rt: &R,
    alloc: Global,
    mut pipes: Vec<Pipe>,
) -> Result<Vec<Pipe>, AllocError> {
    let machine = machine(alloc)?;
    if !share::<Brand, R>(rt, alloc, Blank::new(), &machine, &mut pipes) {
        return Err(AllocError);
    }
    Ok(pipes)
}

// The end of a connection: its lines, how many bytes were not read, and whether its writer failed.
fn end_of(alloc: Global, pipe: &Pipe) -> Result<String, AllocError> {
    let lines = shown(alloc, &pipe.client.writer.inner().held)?;
    let left = match pipe.client.reader.inner().left() {
        0 => String::new(alloc),
        left => format!(in alloc; " {left} left")?,
    };
    format!(in alloc; "{lines}{left}{}", if pipe.failed { " failed" } else { "" })
}

// The ends of all connections, with slashes between them.
fn ends_of(alloc: Global, pipes: &[Pipe]) -> Result<String, AllocError> {
    let mut text = String::new(alloc);
    for (number, pipe) in pipes.iter().enumerate() {
        if number > 0 {
            text.push('/')?;
        }
        text.push_str(end_of(alloc, pipe)?.as_str())?;
    }
    Ok(text)
}

// The connections of a row, between slashes. LF is written `~`, and a reader fails at `!`.
fn pipes_of(alloc: Global, row: &str, at_once: usize) -> Result<Vec<Pipe>, AllocError> {
    let mut pipes = Vec::new(alloc);
    for text in row.split('/') {
        let fails = text.ends_with('!');
        let text = text
            .strip_suffix('!')
            .unwrap_or(text)
            .replace(alloc, '~', "\n")?;
        let bytes = text.as_str().as_bytes();
        pipes.push(pipe_of(alloc, bytes, at_once, fails, usize::MAX)?)?;
    }
    Ok(pipes)
}

// The ends of the connections of a row whose bytes come so many at once.
fn result_in_pieces<R: AllocGlobal + Wait>(
    rt: &R,
    alloc: Global,
    row: &str,
    at_once: usize,
) -> Result<String, AllocError> {
    let pipes = administered(rt, alloc, pipes_of(alloc, row, at_once)?)?;
    ends_of(alloc, &pipes)
}

// The same ends, if they are the same for pieces of each of some lengths.
fn result_of_row<R: AllocGlobal + Wait>(
    rt: &R,
    alloc: Global,
    row: &str,
) -> Result<String, AllocError> {
    let whole = result_in_pieces(rt, alloc, row, 10_000)?;
    for at_once in [1, 2, 7] {
        let found = result_in_pieces(rt, alloc, row, at_once)?;
        if found.as_str() != whole.as_str() {
            return format!(in alloc; "{at_once} at once: {found}");
        }
    }
    Ok(whole)
}

// The lines of connections on one administrator, how many bytes of each were not read, `|` and the bytes that were sent. LF is
// written `~`, and slashes are between connections, which come one after the other. A reader fails at `!`, and ends else.
const COMMANDS: &str = "\
PUBLISHED 1~REFUSED 1 2~IDLE~MALFORMED~|BATCH 6~OFF a~BATCH 6~ON zz~RETRY~HELLO~
PUBLISHED 1~/PUBLISHED 2~IDLE~/REFUSED 1 1~PUBLISHED 3~|BATCH 6~OFF a~/BATCH 5~ON a~RETRY~/BATCH 1~~BATCH 0~
REFUSED 2 2~PUBLISHED 1~|BATCH 12~OFF a~ON zz~BATCH 11~OFF a~ON a~
REFUSED 1 6~|BATCH 5~OFF a
# nothing is read after a malformed line
MALFORMED~ 7 left|HELLO~RETRY~x
PUBLISHED 1~MALFORMED~ 14 left|BATCH 0~RETRY ~BATCH 6~OFF a~
MALFORMED~ 6 left/IDLE~|HELLO~RETRY~/RETRY~
# lines of 32, 33 and 34 bytes with their LF, if one comes
|aaaaaaaaaabbbbbbbbbbccccccccccdd
|aaaaaaaaaabbbbbbbbbbccccccccccdd!
MALFORMED~ 6 left|aaaaaaaaaabbbbbbbbbbccccccccccd~RETRY~
MALFORMED~ 6 left|aaaaaaaaaabbbbbbbbbbccccccccccdd~RETRY~
MALFORMED~|aaaaaaaaaabbbbbbbbbbccccccccccddd
MALFORMED~|aaaaaaaaaabbbbbbbbbbccccccccccddd!
MALFORMED~ 7 left|aaaaaaaaaabbbbbbbbbbccccccccccddd~RETRY~
MALFORMED~ 6 left|aaaaaaaaaabbbbbbbbbbccccccccccdddRETRY~
# 1 to 10 digits, 11, none, and what is no digit
PUBLISHED 1~|BATCH 0~
PUBLISHED 1~|BATCH 0000000006~OFF a~
MALFORMED~ 6 left|BATCH 00000000006~OFF a~
MALFORMED~ 6 left|BATCH ~OFF a~
MALFORMED~ 6 left|BATCH~OFF a~
MALFORMED~ 6 left|BATCH +6~OFF a~
MALFORMED~ 6 left|BATCH 6 ~OFF a~
MALFORMED~ 6 left|BATCH  6~OFF a~
MALFORMED~ 6 left|BATCH 6\r~OFF a~
MALFORMED~ 6 left|BATCH x~OFF a~
MALFORMED~|BATCH 4194305~
MALFORMED~|BATCH 9999999999~
# other lines
MALFORMED~ 6 left|batch 6~OFF a~
MALFORMED~ 6 left|~RETRY~
MALFORMED~| RETRY~
MALFORMED~|RETRY\r~
MALFORMED~|RETRY 1~
MALFORMED~|OFF a~
# an end within a line, within the bytes of a batch, and between commands
|
|RETRY
|BATCH 6
|BATCH 6~
|BATCH 6~OFF a
PUBLISHED 1~|BATCH 6~OFF a~RET
PUBLISHED 1~|BATCH 6~OFF a~BATCH 6~ON
/PUBLISHED 1~|BATCH 6~OFF a/BATCH 5~ON a~
/IDLE~|BATCH 6~OFF a/RETRY~
# a reader that fails there
|!
|RETRY!
|BATCH 6~!
|BATCH 6~OFF a!
PUBLISHED 1~|BATCH 6~OFF a~!
PUBLISHED 1~IDLE~|BATCH 6~OFF a~RETRY~BAT!
/PUBLISHED 1~|BATCH 6~OFF a!/BATCH 5~ON a~";

#[test]
fn commands_are_reported_in_lines(rt: HostRuntime) -> Result<(), TableFault> {
    check_rows(rt.alloc(), COMMANDS, '|', 49, |alloc, row| {
        result_of_row(&rt, alloc, row)
    })
}

const SENT: &[u8] = b"BATCH 6\nOFF a\nBATCH 6\nON zz\nRETRY\nHELLO\n";

// The lines that are written of it, 39 bytes.
const WRITTEN: &str = "PUBLISHED 1~REFUSED 1 2~IDLE~MALFORMED~";

// How many bytes of it are not read, where the writer fails after so many: those after the command whose line is cut. The line
// of the first command ends at 12, and 14 bytes are read for it.
fn left_after(room: usize) -> usize {
    match room {
        0..=11 => 26,
        12..=23 => 12,
        24..=28 => 6,
        _ => 0,
    }
}

// The end of it where the writer takes so many bytes, and then of an empty batch on a further connection.
fn cut<R: AllocGlobal + Wait>(rt: &R, alloc: Global, room: usize) -> Result<String, AllocError> {
    let mut pipes = Vec::new(alloc);
    pipes.push(pipe_of(alloc, SENT, 7, false, room)?)?;
    pipes.push(pipe_of(alloc, b"BATCH 0\n", 7, false, usize::MAX)?)?;
    ends_of(alloc, &administered(rt, alloc, pipes)?)
}

// The expected end of it: the batch was submitted before anything was written.
fn expected_cut(alloc: Global, room: usize) -> Result<String, AllocError> {
    let prefix = WRITTEN.get(..room).unwrap_or(WRITTEN);
    let left = match left_after(room) {
        0 => String::new(alloc),
        left => format!(in alloc; " {left} left")?,
    };
    let failed = if room < WRITTEN.len() { " failed" } else { "" };
    format!(in alloc; "{prefix}{left}{failed}/PUBLISHED 2~")
}

// The first number of bytes after which a failing writer doesn't end a connection as expected, up to this one.
fn result_of_cuts<R: AllocGlobal + Wait>(
    rt: &R,
    alloc: Global,
    row: &str,
) -> Result<String, AllocError> {
    let last = row.parse().unwrap_or(0);
    for room in 0..=last {
        let found = cut(rt, alloc, room)?;
        if found.as_str() != expected_cut(alloc, room)?.as_str() {
            return format!(in alloc; "{room}: {found}");
        }
    }
    format!(in alloc; "right up to {last}")
}

#[test]
fn a_batch_whose_line_is_cut_stays_submitted(rt: HostRuntime) -> Result<(), TableFault> {
    check_rows(rt.alloc(), "right up to 40|40", '|', 1, |alloc, row| {
        result_of_cuts(&rt, alloc, row)
    })
}

// A line, so many `x`, and a text after them.
fn long(alloc: Global, line: &str, count: usize, rest: &str) -> Result<Vec<u8>, AllocError> {
    let mut bytes = Vec::new(alloc);
    bytes.extend_from_slice(line.as_bytes())?;
    bytes.resize(bytes.len().saturating_add(count), b'x')?;
    bytes.extend_from_slice(rest.as_bytes())?;
    Ok(bytes)
}

// The end of a batch: how many bytes it announces, and how many `x` come before a further command.
fn result_of_large<R: AllocGlobal + Wait>(
    rt: &R,
    alloc: Global,
    row: &str,
) -> Result<String, AllocError> {
    let (announced, count) = row.split_once(' ').unwrap_or(("", ""));
    let line = format!(in alloc; "BATCH {announced}\n")?;
    let bytes = long(alloc, line.as_str(), count.parse().unwrap_or(0), "RETRY\n")?;
    let mut pipes = Vec::new(alloc);
    let client = Client {
        reader: Flagged::new(Coming::new(bytes, 1_000_000, false)),
        writer: Flagged::new(Going::new(alloc, usize::MAX)),
    };
    pipes.push(Pipe {
        client,
        failed: false,
    })?;
    ends_of(alloc, &administered(rt, alloc, pipes)?)
}

// The largest batch has no line that ends. One byte more is malformed.
const LARGE: &str = "\
REFUSED 1 6~IDLE~|4194304 4194304
MALFORMED~ 16 left|4194305 10";

#[test]
fn the_largest_batch_is_read(rt: HostRuntime) -> Result<(), TableFault> {
    check_rows(rt.alloc(), LARGE, '|', 2, |alloc, row| {
        result_of_large(&rt, alloc, row)
    })
}
