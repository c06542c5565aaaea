use crate::{TableFault, check_all, check_rows};
use std::alloc::{AllocError, Global};

// The length of a text.
fn length(alloc: Global, text: &str) -> Result<String, AllocError> {
    format!(in alloc; "{}", text.len())
}

// The kind of a fault and its line, or how many rows there were.
fn fault_of(found: Result<(), TableFault>) -> (u8, usize) {
    match found {
        Ok(()) => (0, 0),
        Err(TableFault::NoSeparator(line)) => (1, line),
        Err(TableFault::Differs(line, _)) => (2, line),
        Err(TableFault::Fails(line)) => (3, line),
        Err(TableFault::Count(found)) => (4, found),
        Err(TableFault::NoMemory) => (5, 0),
    }
}

// Whether a text has one byte.
fn is_one_byte(_: Global, text: &str) -> Result<bool, AllocError> {
    Ok(text.len() == 1)
}

// Whether tables have the expected results, without a table of expected texts.
fn are_as_worked(alloc: Global) -> bool {
    fault_of(check_rows(alloc, "3=abc\n1=x", '=', 2, length)) == (0, 0)
        && fault_of(check_rows(alloc, "3=abc\n2=x", '=', 2, length)) == (2, 2)
        && fault_of(check_rows(alloc, "3=abc\n1", '=', 2, length)) == (1, 2)
        && fault_of(check_rows(alloc, "3=abc", '=', 2, length)) == (4, 1)
        && fault_of(check_all(alloc, "a\nb", 2, is_one_byte)) == (0, 0)
        && fault_of(check_all(alloc, "a\nbc", 2, is_one_byte)) == (3, 2)
        && fault_of(check_all(alloc, "a\nb\nc", 2, is_one_byte)) == (4, 3)
}

#[test]
fn faults_of_tables_are_found(rt: HostRuntime) {
    assert!(rt; are_as_worked(rt.alloc()));
}
