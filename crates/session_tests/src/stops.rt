use crate::endings::{SESSIONS, ended};
use crate::texts::{columns, spelt};
use std::alloc::{AllocError, Global};
use test_tables::{TableFault, check_all};

// Subcommands, the number of their output's call that fails, of those that write 5 bytes at most and of the flush after them,
// and the end. The line of `check` has five such calls, the fault of a script three.
const FAILING: &str = "\
check|0|3 OutputFailed||
check|3|3 OutputFailed|ok 0 layers 0 f|
check|5|3 OutputFailed|ok 0 layers 0 features~|
check|6|0 done|ok 0 layers 0 features~|
explain|0|3 OutputFailed||
explain|5|3 OutputFailed|ok 0 layers 0 features~|
explain|6|0 done|ok 0 layers 0 features~|m.map: warning: the service has no wms_onlineresource, and http://localhost/wms? has no port~
run|0|3 OutputFailed||
run|2|3 OutputFailed|fault scri|
run|3|3 OutputFailed|fault script 1~|
run|4|0 done|fault script 1~|";

// Whether a subcommand whose output fails ends as its row says.
fn is_failed(alloc: Global, line: &str) -> Result<bool, AllocError> {
    let row = spelt(alloc, line)?;
    let (subcommand, failing, expected) = columns(row.as_str());
    let failing: usize = failing.parse().unwrap_or(99);
    let (found, _) = ended(alloc, subcommand, ("MAP END", "x\n"), 5, Some((1, failing)))?;
    Ok(found.as_str() == expected)
}

#[test]
fn outputs_that_fail_end_a_subcommand(rt: HostRuntime) -> Result<(), TableFault> {
    check_all(rt.alloc(), FAILING, 11, is_failed)
}

// Whether some text is a prefix of another, and not all of it before the last call.
fn is_prefix(held: &str, text: &str, is_last: bool) -> bool {
    text.starts_with(held) && (is_last || held.len() < text.len())
}

// Whether a session of which a call of a stream failed ended as expected, by the text that it writes without a failure.
// A reader that fails leaves nothing written. A writer that fails holds the first bytes of its text, and the other
// writer got nothing.
fn is_stop(found: &str, stream: usize, whole: &str, is_last: bool) -> bool {
    let (end, output, errors) = columns(found);
    let (_, all_output, all_errors) = columns(whole);
    match stream {
        0 => found == "3 InputFailed||",
        1 => {
            end == "3 OutputFailed" && is_prefix(output, all_output, is_last) && errors.is_empty()
        }
        _ => {
            end == "1 MapfileFault" && is_prefix(errors, all_errors, is_last) && output.is_empty()
        }
    }
}

// Whether a session ends as expected where any call of that one of its streams fails.
fn is_stopped(
    alloc: Global,
    session: &str,
    stream: usize,
    whole: &str,
) -> Result<bool, AllocError> {
    let (_, calls) = ended(alloc, "session", (session, ""), 5, None)?;
    let count = calls.get(stream).copied().unwrap_or(0);
    for call in 0..count {
        let (found, _) = ended(alloc, "session", (session, ""), 5, Some((stream, call)))?;
        if !is_stop(found.as_str(), stream, whole, call == count - 1) {
            return Ok(false);
        }
    }
    Ok(true)
}

// Whether the session of a row ends as expected where any call of one of its three streams fails.
fn is_stopped_anywhere(alloc: Global, line: &str) -> Result<bool, AllocError> {
    let row = spelt(alloc, line)?;
    let (_, session, rest) = columns(row.as_str());
    let whole = rest.split_once('|').unwrap_or(("", "no row")).1;
    for stream in 0..3 {
        if !is_stopped(alloc, session, stream, whole)? {
            return Ok(false);
        }
    }
    Ok(true)
}

#[test]
fn streams_that_fail_end_a_session(rt: HostRuntime) -> Result<(), TableFault> {
    check_all(rt.alloc(), SESSIONS, 6, is_stopped_anywhere)
}
