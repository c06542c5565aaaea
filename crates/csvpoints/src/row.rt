ghost use Rattle.std.specs.Prelude.{◌≡◌, ◌<◌, ◌++◌, length, Ok, MatchResult, OnOk};
ghost use Rattle.csv.specs.Records.{fields_of};
ghost use Rattle.geom.specs.Number.{coordinate_of};
ghost use Rattle.csvpoints.specs.Fault.{IsFaultOf, at_row};
ghost use Rattle.csvpoints.specs.Row.{texts_of, after_spaces, before_spaces, coordinate_in, feature_of, HasColumns};
ghost use Rattle.csvpoints.specs.Rows.{point_with};

use crate::fault::{CsvError, CsvFault, CsvKind};
use crate::header::Columns;
use csv::ByteRecord;
use geom::{COORDINATE_LIMIT, Coordinate, Micro, World};
use mapdefs::{Items, Text, Texts};
use std::alloc::Global;

// The text without its leading spaces.
#[tactic(auto, unfolding(crate::specs::Row::after_spaces))]
fn after_spaces(text: &[u8]) -> &[u8]
    ensures { result.now ≡ after_spaces text.now }
{
    for (start, byte) in text.iter().enumerate() {
        if *byte != b' ' {
            return &text[start..];
        }
    }
    &[]
}

// The text without the spaces at its end.
fn before_spaces(text: &[u8]) -> &[u8]
    ensures { result.now ≡ before_spaces text.now }
{
    for spaces in 0..text.len() {
        let end = text.len() - spaces;
        if text[end - 1] != b' ' {
            return &text[..end];
        }
    }
    &[]
}

// The coordinate of a text. Spaces at both ends are no part of it.
fn coordinate_of(text: &[u8]) -> Option<Coordinate>
    ensures { result ≡ coordinate_of (before_spaces (after_spaces text.now)) }
{
    match Micro::read(before_spaces(after_spaces(text)), COORDINATE_LIMIT) {
        Ok(number) => Some(Coordinate::new(number)),
        Err(_) => None,
    }
}

// The coordinate in a column.
fn coordinate_in(row: &ByteRecord, column: usize) -> Option<Coordinate>
    requires { column < length (fields_of row.now) }
    ensures { result ≡ coordinate_in (fields_of row.now) column }
{
    match row.get(column) {
        Some(text) => coordinate_of(text),
        None => None,
    }
}

/// The fields of a record, if each is UTF-8.
pub fn texts_of(alloc: Global, row: &ByteRecord, number: u64) -> Result<Items<Text>, CsvError>
    ensures { MatchResult result
        (λ texts. texts_of (fields_of row.now) ≡ Ok texts)
        (IsFaultOf (at_row number (texts_of (fields_of row.now)))) }
{
    let mut texts = Items::new(alloc);
    for field in row {
        match str::from_utf8(field) {
            Ok(text) => texts.push(Text::from_str(alloc, text)?)?,
            Err(_) => {
                let kind = CsvKind::NotText;
                return Err(CsvError::Fault(CsvFault { row: number, kind }));
            }
        }
    }
    Ok(texts)
}

// Adds the fields of a record to the texts of those before it, if each is UTF-8.
fn add_texts(texts: &mut Texts, row: &ByteRecord, number: u64) -> Result<(), CsvError>
    ensures texts { OnOk result (texts.new ≡ texts.old ++ fields_of row.now) }
    ensures value { MatchResult result
        (λ _. texts_of (fields_of row.now) ≡ Ok (fields_of row.now))
        (IsFaultOf (at_row number (texts_of (fields_of row.now)))) }
{
    for field in row {
        match str::from_utf8(field) {
            Ok(text) => texts.push(text)?,
            Err(_) => {
                let kind = CsvKind::NotText;
                return Err(CsvError::Fault(CsvFault { row: number, kind }));
            }
        }
    }
    Ok(())
}

/// The place of a row under a header. Its texts are added to those of the rows before it.
pub fn read_row(
    texts: &mut Texts,
    row: &ByteRecord,
    columns: Columns,
    number: u64,
) -> Result<World, CsvError>
    requires { HasColumns columns }
    ensures value { MatchResult result
        (λ place. feature_of columns (fields_of row.now) ≡ Ok (point_with (fields_of row.now) place))
        (IsFaultOf (at_row number (feature_of columns (fields_of row.now)))) }
    ensures texts { OnOk result (texts.new ≡ texts.old ++ fields_of row.now) }
    ensures count { OnOk result (length (fields_of row.now) ≡ columns.count) }
{
    if row.len() != columns.count {
        let kind = CsvKind::Uneven;
        return Err(CsvError::Fault(CsvFault { row: number, kind }));
    }
    add_texts(texts, row, number)?;
    match (coordinate_in(row, columns.x), coordinate_in(row, columns.y)) {
        (Some(x), Some(y)) => Ok(World::new(x, y)),
        _ => {
            let kind = CsvKind::BadNumber;
            Err(CsvError::Fault(CsvFault { row: number, kind }))
        }
    }
}
