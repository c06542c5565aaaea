use crate::cuts::opened;
use crate::memory::stream_of;
use crate::ports::{LAST, RESPONSE};
use blocking::serve_connection;
use mapmachine::Machine;
use std::alloc::{AllocError, Global};
use test_tables::{TableFault, check_rows};

// The end of a connection, whether its reader and its writer failed, whether the writer holds the first bytes of the
// response, and how many. Then the calls of the reader and of the writer that fail, where each moves one byte: the head
// has 40, the response 298.
const FAILING: &str = "\
the reader failed after 0 bytes were written, true false true 0=0 -
the reader failed after 0 bytes were written, true false true 0=39 -
served, false false true 298=40 -
the writer failed after 0 bytes, false true true 0=- 0
the writer failed after 100 bytes, false true true 100=- 100
the writer failed after 297 bytes, false true true 297=- 297
served, false false true 298=- 298";

fn result_of_streams(
    alloc: Global,
    machine: &mut Machine,
    reading: Option<usize>,
    writing: Option<usize>,
) -> Result<String, AllocError> {
    let mut reader = stream_of(alloc, LAST, 1, reading);
    let mut writer = stream_of(alloc, "", 1, writing);
    let served = serve_connection(alloc, machine, &mut reader, &mut writer);
    let failed = (reader.take_failed(), writer.put_failed());
    let held = writer.into_inner().held;
    let is_front = RESPONSE.starts_with(held.as_slice());
    let end = match served {
        Ok(()) => format!(in alloc; "served"),
        Err(fault) => format!(in alloc; "{fault}"),
    }?;
    format!(in alloc;
        "{end}, {} {} {is_front} {}",
        failed.0,
        failed.1,
        held.len()
    )
}

// The end of a connection whose streams fail at the calls of a row.
fn result_of_row(alloc: Global, calls: &str) -> Result<String, AllocError> {
    let (reading, writing) = calls.split_once(' ').unwrap_or(("", ""));
    let mut machine = opened(alloc, "MAP END")?;
    let result = result_of_streams(
        alloc,
        &mut machine,
        reading.parse().ok(),
        writing.parse().ok(),
    );
    drop(machine);
    result
}

#[test]
fn streams_that_fail_end_a_connection(rt: HostRuntime) -> Result<(), TableFault> {
    check_rows(rt.alloc(), FAILING, '=', 7, result_of_row)
}
