use crate::columns::{columns_of, table_of};
use crate::sentence::{SHOWN, cut};
use csv::{ByteRecord, ReaderBuilder};
use geom::{COORDINATE_LIMIT, Micro};
use mapparse::Files;
use std::alloc::Global;
use std::str;

/// A row of a table.
#[derive(Clone, Copy)]
pub struct TableRow<'a> {
    /// The name of the table's file.
    pub name: &'a str,
    /// The number of the row, where the header is 1.
    pub row: u64,
}

// The record of a number.
fn record_of(alloc: Global, bytes: &[u8], number: u64) -> Option<ByteRecord> {
    let mut reader = ReaderBuilder::new()
        .has_headers(false)
        .flexible(true)
        .from_reader(alloc, bytes);
    let mut record = ByteRecord::new(alloc);
    for _ in 0..number {
        match reader.read_byte_record(&mut record) {
            Ok(true) => {}
            Ok(false) | Err(_) => return None,
        }
    }
    Some(record)
}

// The value of a record in the column that a header calls by a name.
fn value_of<'a>(header: &ByteRecord, record: &'a ByteRecord, name: &str) -> Option<&'a str> {
    for (column, field) in header.iter().enumerate() {
        if field == name.as_bytes() {
            return str::from_utf8(record.get(column)?).ok();
        }
    }
    None
}

// Whether a value is a coordinate. Spaces at both ends are no part of it.
fn is_coordinate(value: &str) -> bool {
    Micro::read(value.trim_matches(' ').as_bytes(), COORDINATE_LIMIT).is_ok()
}

// The value that is no coordinate, in the first of two columns that has one.
fn unread_value(alloc: Global, bytes: &[u8], columns: (&str, &str), row: u64) -> Option<String> {
    let header = record_of(alloc, bytes, 1)?;
    let record = record_of(alloc, bytes, row)?;
    for name in [columns.0, columns.1] {
        let value = value_of(&header, &record, name)?;
        if !is_coordinate(value) {
            let (name, value) = (
                cut(alloc, name, SHOWN).ok()?,
                cut(alloc, value, SHOWN).ok()?,
            );
            return format!(in alloc; "{name} is \"{value}\"").ok();
        }
    }
    None
}

/// The value of a row that is no coordinate, with its column. The source is parsed for the names of the columns.
pub fn message_on_value(
    alloc: Global,
    source: &[u8],
    files: &Files,
    place: TableRow<'_>,
) -> Option<String> {
    let tree = maptree::read(alloc, source).ok()?;
    for layer in tree.layers.as_slice() {
        if let Some(bytes) = table_of(layer, place.name, files) {
            let found = unread_value(alloc, bytes, columns_of(layer), place.row);
            if found.is_some() {
                return found;
            }
        }
    }
    None
}
