use crate::inputs::{
    BATCH, BATCH_ROWS, HEAD, HEAD_ROWS, PNG, PNG_ROWS, QUERY, QUERY_ROWS, SCRIPT, SCRIPT_ROWS,
};
use crate::made::tally_of;
use crate::maps::{some_machine, some_map};
use crate::tally::Tally;
use batches::BatchError;
use httpedge::{Conn, Decision, Refusal};
use scripts::play_script;
use std::alloc::{AllocError, Global};
use streams::Flagged;
use test_tables::{TableFault, check_rows};
use wmsquery::{Code, QueryError};

fn add_batch(alloc: Global, bytes: &[u8], tally: &mut Tally) -> Result<(), AllocError> {
    let mut machine = some_machine(alloc)?;
    match machine.batch(bytes) {
        Ok(_) => tally.add(0, 0),
        Err(BatchError::Fault(fault)) => tally.add(fault.kind.number(), fault.index),
        Err(BatchError::NoMemory) => return Err(AllocError),
    }
    Ok(())
}

// The outcome of the first decision, if there is one.
fn decided(step: Option<Decision>) -> u8 {
    match step {
        Some(Decision::Ask) => 0,
        Some(Decision::Refused(Refusal::BadRequest)) => 1,
        Some(Decision::Refused(Refusal::NotFound)) => 2,
        Some(Decision::Refused(Refusal::MethodNotAllowed)) => 3,
        None => 4,
    }
}

fn add_head(alloc: Global, bytes: &[u8], tally: &mut Tally) -> Result<(), AllocError> {
    let mut conn = Conn::new(alloc)?;
    let fed = conn.feed(bytes);
    let step = match fed.step {
        None => conn.end(),
        decision => decision,
    };
    tally.add(decided(step), 0);
    Ok(())
}

// The number of a code, in the order of the table of parameters.
fn number_of(code: Code) -> u8 {
    match code {
        Code::MissingParameterValue => 1,
        Code::InvalidParameterValue => 2,
        Code::OperationNotSupported => 3,
        Code::LayerNotDefined => 4,
        Code::StyleNotDefined => 5,
        Code::InvalidCrs => 6,
        Code::InvalidFormat => 7,
        _ => 8,
    }
}

fn add_query(alloc: Global, bytes: &[u8], tally: &mut Tally) -> Result<(), AllocError> {
    let map = some_map(alloc)?;
    match wmsquery::read(alloc, bytes, &map, 0) {
        Ok(_) => tally.add(0, 0),
        Err(QueryError::Fault(fault)) => tally.add(number_of(fault.code), 0),
        Err(QueryError::NoMemory) => return Err(AllocError),
    }
    Ok(())
}

// The number of the unreadable command that a transcript reports.
fn unreadable(transcript: &[u8]) -> Option<u64> {
    let text = str::from_utf8(transcript).ok()?;
    text.strip_prefix("fault script ")?
        .trim_end()
        .parse::<u64>()
        .ok()
}

fn add_script(alloc: Global, bytes: &[u8], tally: &mut Tally) -> Result<(), AllocError> {
    let mut machine = some_machine(alloc)?;
    let mut output = Flagged::new(Vec::new(alloc));
    if play_script(&mut machine, bytes, &mut output).is_err() {
        return Err(AllocError);
    }
    match unreadable(output.inner().as_slice()) {
        None => tally.add(0, 0),
        Some(number) => tally.add(1, number),
    }
    Ok(())
}

#[test]
fn batches_have_their_first_faults(rt: HostRuntime) -> Result<(), TableFault> {
    check_rows(rt.alloc(), BATCH_ROWS, '=', 7, |alloc, way| {
        tally_of(alloc, BATCH, way, add_batch)
    })
}

#[test]
fn heads_are_asked_or_refused(rt: HostRuntime) -> Result<(), TableFault> {
    check_rows(rt.alloc(), HEAD_ROWS, '=', 7, |alloc, way| {
        tally_of(alloc, HEAD, way, add_head)
    })
}

#[test]
fn queries_have_their_codes(rt: HostRuntime) -> Result<(), TableFault> {
    check_rows(rt.alloc(), QUERY_ROWS, '=', 7, |alloc, way| {
        tally_of(alloc, QUERY, way, add_query)
    })
}

#[test]
fn queries_for_a_png_have_their_codes(rt: HostRuntime) -> Result<(), TableFault> {
    check_rows(rt.alloc(), PNG_ROWS, '=', 7, |alloc, way| {
        tally_of(alloc, PNG, way, add_query)
    })
}

#[test]
fn scripts_are_played_or_refused(rt: HostRuntime) -> Result<(), TableFault> {
    check_rows(rt.alloc(), SCRIPT_ROWS, '=', 7, |alloc, way| {
        tally_of(alloc, SCRIPT, way, add_script)
    })
}
