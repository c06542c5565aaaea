//! Tables of tests: a table is one text, a row a line, and a function of the test gives the text that
//! the left side of a row expects.
//!
//! Nothing is proved here but that each call is safe and ends. What a call returns is tested here without
//! tables, and once more in `reading_tests` with tables that differ in each way.
#![tactic(auto)]

#[cfg(test)]
mod tests;

use std::alloc::{AllocError, Global};

/// Why a table doesn't hold.
#[derive(Debug, Drop)]
pub enum TableFault {
    /// The line, counted from 1, has no separator.
    NoSeparator(usize),
    /// The function's text for the line, counted from 1, isn't the one that its row expects.
    Differs(usize, String),
    /// The function doesn't hold of the row on this line, counted from 1.
    Fails(usize),
    /// The table has another number of rows, this one.
    Count(usize),
    /// Out of memory.
    NoMemory,
}

impl From<AllocError> for TableFault {
    fn from(_: AllocError) -> TableFault {
        TableFault::NoMemory
    }
}

// Checks that a table has so many rows, and each of them, which stands on this line. A line that begins
// with `# ` is a heading.
fn check_each<F: Fn(usize, &str) -> Result<(), TableFault>>(
    rows: &str,
    count: usize,
    check: F,
) -> Result<(), TableFault>
    requires { F.IsAlwaysCallable check }
{
    let mut found = 0_usize;
    let mut line = 0_usize;
    for row in rows.lines() {
        line = line.saturating_add(1);
        if !row.starts_with("# ") {
            check(line, row)?;
            found = found.saturating_add(1);
        }
    }
    if found == count {
        Ok(())
    } else {
        Err(TableFault::Count(found))
    }
}

/// Checks that a table has so many rows, and that the function gives for each the text that the row expects. A row
/// is the expected text, the separator and the rest, which the function gets. A line that begins with
/// `# ` is a heading.
pub fn check_rows<F: Fn(Global, &str) -> Result<String, AllocError>>(
    alloc: Global,
    rows: &str,
    separator: char,
    count: usize,
    result_of: F,
) -> Result<(), TableFault>
    requires { F.IsAlwaysCallable result_of }
{
    check_each(rows, count, |line, row| {
        let Some((expected, rest)) = row.split_once(separator) else {
            return Err(TableFault::NoSeparator(line));
        };
        let result = result_of(alloc, rest)?;
        if result.as_str() == expected {
            Ok(())
        } else {
            Err(TableFault::Differs(line, result))
        }
    })
}

/// Checks that a table has so many rows, and that the function holds of each of them. A line that begins
/// with `# ` is a heading.
pub fn check_all<F: Fn(Global, &str) -> Result<bool, AllocError>>(
    alloc: Global,
    rows: &str,
    count: usize,
    holds: F,
) -> Result<(), TableFault>
    requires { F.IsAlwaysCallable holds }
{
    check_each(rows, count, |line, row| {
        if holds(alloc, row)? {
            Ok(())
        } else {
            Err(TableFault::Fails(line))
        }
    })
}

/// The numbers of a text with that character between them, if it has just so many.
pub fn numbers<const N: usize>(text: &str, between: char) -> Option<[i64; N]> {
    let mut parts = text.split(between);
    let mut numbers = [0_i64; N];
    for number in numbers.iter_mut() {
        *number = parts.next()?.parse::<i64>().ok()?;
    }
    match parts.next() {
        None => Some(numbers),
        Some(_) => None,
    }
}
