use std::alloc::{AllocError, Global};
use test_tables::{TableFault, check_all, check_rows};

// The result for a table that was checked.
fn result_of(alloc: Global, found: Result<(), TableFault>) -> Result<String, AllocError> {
    match found {
        Ok(()) => format!(in alloc; "holds"),
        Err(TableFault::NoMemory) => Err(AllocError),
        Err(fault) => format!(in alloc; "{fault:?}"),
    }
}

// The length of a text.
fn length(alloc: Global, text: &str) -> Result<String, AllocError> {
    format!(in alloc; "{}", text.len())
}

// The result for a table of lengths that has to have two rows. In it `/` stands for the end of a line.
fn result_of_rows(alloc: Global, table: &str) -> Result<String, AllocError> {
    let table = table.replace(alloc, '/', "\n")?;
    result_of(alloc, check_rows(alloc, table.as_str(), '=', 2, length))
}

const ROWS: &str = "\
holds|3=abc/1=x
holds|# a heading/3=abc/# another=heading/1=x
holds|0=/2==a
Differs(2, \"1\")|3=abc/2=x
Differs(3, \"1\")|3=abc/# a heading/ 1=x
Differs(1, \"2\")|3=ab/1
Differs(1, \"7\")|#3=heading
NoSeparator(1)|3/1=x
NoSeparator(2)|3=abc/1/1=x
NoSeparator(2)|3=abc//1=x
Count(1)|3=abc
Count(1)|3=abc/# 1=x
Count(3)|3=abc/1=x/1=y
Count(0)|";

// Whether a text has one byte.
fn is_one_byte(_: Global, text: &str) -> Result<bool, AllocError> {
    Ok(text.len() == 1)
}

// The result for a table of single bytes that has to have two rows.
fn result_of_all(alloc: Global, table: &str) -> Result<String, AllocError> {
    let table = table.replace(alloc, '/', "\n")?;
    result_of(alloc, check_all(alloc, table.as_str(), 2, is_one_byte))
}

const ALL: &str = "\
holds|a/b
holds|a/# a heading/b
Fails(2)|a/bc
Fails(3)|a/# a heading//b
Count(1)|a
Count(3)|a/b/c";

#[test]
fn tables_hold_or_have_their_first_fault(rt: HostRuntime) -> Result<(), TableFault> {
    check_rows(rt.alloc(), ROWS, '|', 14, result_of_rows)
}

#[test]
fn tables_hold_where_all_rows_do(rt: HostRuntime) -> Result<(), TableFault> {
    check_rows(rt.alloc(), ALL, '|', 6, result_of_all)
}
