use crate::narrow::{Narrow, holding_nothing};
use std::alloc::{AllocError, Global};
use streams::{Flagged, Sink, Source, put_all, put_pieces};
use test_tables::{TableFault, check_rows};

// So many bytes, each another one than that before it.
fn pattern(alloc: Global, len: usize) -> Result<Vec<u8>, AllocError> {
    let mut bytes = Vec::new(alloc);
    for at in 0..len {
        bytes.push((at % 251) as u8)?;
    }
    Ok(bytes)
}

// A number of a row, or one that no row expects.
fn number(text: &str) -> usize {
    text.parse::<usize>().unwrap_or(usize::MAX)
}

// Both flags: that of writing, then that of reading.
fn flags(stream: &Flagged<Narrow<'_>>) -> (bool, bool) {
    (stream.put_failed(), stream.take_failed())
}

// The outcome, both flags, how many bytes were written, how many the writer holds and whether they are the first. After
// the `|`: how many bytes are put, how many are taken at once in how many calls, and whether the writer fails then or
// takes no bytes.
const PUTS: &str = "\
Ok(()) (false, false) 100000 100000 true|100000 200000 1 fails
Ok(()) (false, false) 100000 100000 true|100000 70000 2 fails
Err(PutFailed) (true, false) 70000 70000 true|100000 70000 1 fails
Err(PutFailed) (true, false) 0 0 true|100000 70000 0 fails
Ok(()) (false, false) 101 101 true|101 7 15 fails
Err(PutFailed) (true, false) 98 98 true|101 7 14 fails
Err(PutFailed) (true, false) 2 2 true|3 1 2 fails
Ok(()) (false, false) 100000 100000 true|100000 200000 1 stalls
Ok(()) (false, false) 100000 100000 true|100000 70000 2 stalls
Err(PutFailed) (true, false) 70000 70000 true|100000 70000 1 stalls
Err(PutFailed) (true, false) 0 0 true|100000 70000 0 stalls
Ok(()) (false, false) 101 101 true|101 7 15 stalls
Err(PutFailed) (true, false) 98 98 true|101 7 14 stalls
Err(PutFailed) (true, false) 2 2 true|3 1 2 stalls
# no call is made for no bytes
Ok(()) (false, false) 0 0 true|0 5 0 fails
Ok(()) (false, false) 0 0 true|0 5 0 stalls";

// How many bytes are put, how many are taken at once in how many calls, and whether the writer then fails.
fn put_of(row: &str) -> Option<(usize, usize, usize, bool)> {
    let (len, rest) = row.split_once(' ')?;
    let (at_once, rest) = rest.split_once(' ')?;
    let (calls, then) = rest.split_once(' ')?;
    Some((number(len), number(at_once), number(calls), then == "fails"))
}

// The result of putting the bytes into a writer.
fn result_of_put(alloc: Global, bytes: &[u8], writer: Narrow<'_>) -> Result<String, AllocError> {
    let mut sink = Flagged::new(writer);
    let outcome = put_all(&mut sink, bytes);
    let held = sink.inner().held.as_slice();
    let (count, is_prefix) = (held.len(), bytes.starts_with(held));
    format!(in alloc;
        "{outcome:?} {:?} {} {count} {is_prefix}",
        flags(&sink),
        sink.taken()
    )
}

fn rows_of_puts(alloc: Global, row: &str) -> Result<String, AllocError> {
    let Some((len, at_once, calls, fails)) = put_of(row) else {
        return String::from_str(alloc, "malformed");
    };
    let bytes = pattern(alloc, len.min(200_000))?;
    let mut writer = holding_nothing(alloc, &[], at_once, calls);
    writer.fails = fails;
    result_of_put(alloc, &bytes, writer)
}

#[test]
fn sinks_take_all_or_say_where_they_failed(rt: HostRuntime) -> Result<(), TableFault> {
    check_rows(rt.alloc(), PUTS, '|', 16, rows_of_puts)
}

// The outcome, the flag of writing, how many bytes of three pieces were written, and those that the writer holds. After
// the `|`: how many calls of 3 bytes at once it takes, and whether it fails then or takes no bytes.
const PIECES: &str = "\
Err(PutFailed) true 0 |0 fails
Err(PutFailed) true 3 abc|1 fails
Err(PutFailed) true 6 abcdef|2 fails
Ok(()) false 8 abcdefgh|3 fails
Err(PutFailed) true 0 |0 stalls
Err(PutFailed) true 3 abc|1 stalls
Err(PutFailed) true 6 abcdef|2 stalls
Ok(()) false 8 abcdefgh|3 stalls";

const THREE_PIECES: [&[u8]; 4] = [b"ab", b"", b"cdefg", b"h"];

fn rows_of_pieces(alloc: Global, row: &str) -> Result<String, AllocError> {
    let Some((calls, then)) = row.split_once(' ') else {
        return String::from_str(alloc, "malformed");
    };
    let mut writer = holding_nothing(alloc, &[], 3, number(calls));
    writer.fails = then == "fails";
    let mut sink = Flagged::new(writer);
    let outcome = put_pieces(&mut sink, &THREE_PIECES);
    let held = str::from_utf8(&sink.inner().held).unwrap_or("no text");
    format!(in alloc; "{outcome:?} {} {} {held}", sink.put_failed(), sink.taken())
}

#[test]
fn pieces_go_out_up_to_a_failure(rt: HostRuntime) -> Result<(), TableFault> {
    check_rows(rt.alloc(), PIECES, '|', 8, rows_of_pieces)
}

// The result of a read without room. Then of each of four calls the position in the bytes, the result, whether those
// bytes come next, and the flag of reading. Then how many bytes are held at the end. After the `|`: how many bytes
// there are, and how many are given at once in how many calls.
const TAKES: &str = "\
Ok(0); 0 Ok(70000) true false; 70000 Ok(30000) true false; 100000 Ok(0) true false; 100000 Err(TakeFailed) true true; 0|100000 70000 4 fails";

fn result_of_takes(
    alloc: Global,
    source: &mut Flagged<Narrow<'_>>,
    bytes: &[u8],
) -> Result<String, AllocError> {
    let mut room = vec![in alloc; 255_u8; 90_000]?;
    let mut text = format!(in alloc; "{:?}", source.take(&mut []))?;
    let mut from = 0_usize;
    for _ in 0..4 {
        let found = source.take(&mut room);
        let count = found.unwrap_or(0);
        let rest = bytes.get(from..).unwrap_or(&[]);
        let is_next = room.get(..count) == rest.get(..count);
        text = format!(in alloc;
            "{text}; {from} {found:?} {is_next} {}",
            source.take_failed()
        )?;
        from = from.saturating_add(count);
    }
    format!(in alloc; "{text}; {}", source.inner().held.len())
}

fn rows_of_takes(alloc: Global, row: &str) -> Result<String, AllocError> {
    let Some((len, at_once, calls, true)) = put_of(row) else {
        return String::from_str(alloc, "malformed");
    };
    let bytes = pattern(alloc, len.min(200_000))?;
    let mut source = Flagged::new(holding_nothing(alloc, &bytes, at_once, calls));
    result_of_takes(alloc, &mut source, &bytes)
}

#[test]
fn sources_give_bytes_up_to_their_end(rt: HostRuntime) -> Result<(), TableFault> {
    check_rows(rt.alloc(), TAKES, '|', 1, rows_of_takes)
}

fn result_of_writing(
    alloc: Global,
    stream: &mut Flagged<Narrow<'_>>,
) -> Result<String, AllocError> {
    let first = stream.put(b"square");
    let set = flags(stream);
    let taken = stream.take(&mut [0; 4]);
    let put = stream.put(b"square");
    let nothing = stream.put(b"");
    let flushed = stream.flush();
    let left = flags(stream);
    format!(in alloc; "{first:?} {set:?}, {taken:?} {put:?} {nothing:?} {flushed:?} {left:?}")
}

fn result_of_reading(
    alloc: Global,
    stream: &mut Flagged<Narrow<'_>>,
) -> Result<String, AllocError> {
    let first = stream.take(&mut [0; 4]);
    let put = stream.put(b"square");
    let second = stream.take(&mut [0; 4]);
    let flushed = stream.flush();
    let left = flags(stream);
    format!(in alloc; "{first:?} {put:?} {second:?} {flushed:?} {left:?}")
}

// The text of the calls of a name.
fn result_of_calls(
    alloc: Global,
    stream: &mut Flagged<Narrow<'_>>,
    name: &str,
) -> Result<String, AllocError> {
    match name {
        "writing" => result_of_writing(alloc, stream),
        "reading" => result_of_reading(alloc, stream),
        "no bytes" => {
            let put = stream.put(b"");
            format!(in alloc; "{put:?} {:?}", flags(stream))
        }
        "flush" => {
            let flushed = stream.flush();
            format!(in alloc; "{flushed:?} {:?} {}", flags(stream), stream.taken())
        }
        _ => String::from_str(alloc, "malformed"),
    }
}

// After how many calls a stream fails, for how many it goes on then, and what is called.
fn calls_of(row: &str) -> Option<(usize, usize, &str)> {
    let (calls, rest) = row.split_once(' ')?;
    let (calls_after, name) = rest.split_once(' ')?;
    Some((number(calls), number(calls_after), name))
}

fn rows_of_flags(alloc: Global, row: &str) -> Result<String, AllocError> {
    let Some((calls, calls_after, name)) = calls_of(row) else {
        return String::from_str(alloc, "malformed");
    };
    let mut inner = holding_nothing(alloc, b"nine left", 2, calls);
    inner.calls_after = calls_after;
    result_of_calls(alloc, &mut Flagged::new(inner), name)
}

// The results of calls, with both flags. After the `|`: after how many calls the stream fails, for how many it goes on
// then, and what is called.
const STAYING: &str = "\
# a put, the flags then, a take, a put, a put of no bytes, a flush and the flags
Err(PutFailed) (true, false), Ok(2) Ok(2) Ok(0) Ok(()) (true, false)|0 4 writing
# a take, a put, a take, a flush and the flags
Err(TakeFailed) Ok(2) Ok(2) Ok(()) (false, true)|0 3 reading";

#[test]
fn each_flag_stays_as_it_was_set(rt: HostRuntime) -> Result<(), TableFault> {
    check_rows(rt.alloc(), STAYING, '|', 2, rows_of_flags)
}

#[test]
fn no_bytes_set_no_flag(rt: HostRuntime) -> Result<(), TableFault> {
    let row = "Ok(0) (false, false)|1 0 no bytes";
    check_rows(rt.alloc(), row, '|', 1, rows_of_flags)
}

#[test]
fn failed_flushes_set_the_flag_of_writing(rt: HostRuntime) -> Result<(), TableFault> {
    let row = "Err(PutFailed) (true, false) 0|0 0 flush";
    check_rows(rt.alloc(), row, '|', 1, rows_of_flags)
}
