use crsaxes::AxisFault;
use std::alloc::{AllocError, Global};
use test_tables::{TableFault, check_rows};
use wmsquery::QueryError;

const AXIS_FAULTS: [AxisFault; 4] = [
    AxisFault::UnknownCrs,
    AxisFault::NotFour,
    AxisFault::NotANumber,
    AxisFault::Empty,
];

// The message, `|` and the crate that gives it.
const MESSAGES: &str = "\
not a known coordinate reference system; not four numbers between commas; a number that can't be read, or beyond 1,000 degrees; a box without an area|crsaxes
out of memory|wmsquery";

fn rows_of_messages(alloc: Global, row: &str) -> Result<String, AllocError> {
    let [first, second, third, fourth] = AXIS_FAULTS;
    match row {
        "crsaxes" => format!(in alloc; "{first}; {second}; {third}; {fourth}"),
        "wmsquery" => format!(in alloc; "{}", QueryError::NoMemory),
        _ => String::from_str(alloc, "malformed"),
    }
}

#[test]
fn faults_have_messages(rt: HostRuntime) -> Result<(), TableFault> {
    check_rows(rt.alloc(), MESSAGES, '|', 2, rows_of_messages)
}
