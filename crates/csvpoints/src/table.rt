ghost use Rattle.std.specs.Prelude.{◌≡◌, ◌≤◌, ◌<◌, ℕ, List, length, Ok, Err, IfOk, IfErr, MatchResult, All};
ghost use Rattle.csv.specs.Records.{fields_of};
ghost use Rattle.csvpoints.specs.Fault.{IsFaultOf};
ghost use Rattle.csvpoints.specs.Row.{HasColumns, columns_of};
ghost use Rattle.mapdefs.specs.declared.limits.TheConstants.{MAX_ITEMS};
ghost use Rattle.csvpoints.specs.Source.{records_of, left, IsReading};
ghost use Rattle.csvpoints.specs.Table.{header_of, features_of, table_of, IsPointWith};

use crate::fault::{CsvError, CsvFault, CsvKind};
use crate::header::{Columns, columns_of};
use crate::row::{read_row, texts_of};
use crate::rows::Rows;
use crate::source::{read_record, reader_of};
use csv::{ByteRecord, Reader};
use mapdefs::{Items, Limited, Limits, MAX_ITEMS, Text, Texts};
use std::alloc::Global;

/// What a table says.
#[derive(Drop)]
pub struct TableFields {
    /// The names of the columns, in order.
    pub columns: Items<Text>,
    /// A feature for each row, in order. Its values are the row's fields.
    pub features: Rows,
}

impl Limits for TableFields {
    ghost use Rattle.csvpoints.specs.Table.{IsTable};

    ghost within = { IsTable };
}

/// A table of points: at most `MAX_ITEMS` columns, and features of one point and one value for each column.
pub type Table = Limited<TableFields>;

// What is wrong with a header of more than `MAX_ITEMS` columns. Their names aren't kept, however many there are.
fn fault_of_long_header(row: &ByteRecord) -> CsvKind
    requires { MAX_ITEMS < length (fields_of row.now) }
    ensures { (x y : List ℕ) → columns_of x y (fields_of row.now) ≡ Err result }
{
    for field in row {
        match str::from_utf8(field) {
            Ok(_) => {}
            Err(_) => return CsvKind::NotText,
        }
    }
    CsvKind::Limit
}

// Reads the header: its names, and the columns of the coordinates.
fn read_header(
    alloc: Global,
    reader: &mut Reader<&[u8]>,
    x: &str,
    y: &str,
) -> Result<(Items<Text>, Columns), CsvError>
    requires { IsReading reader.old }
    ensures header { MatchResult result
        (λ header. header_of x.now y.now (left reader.old) ≡ Ok (header.0, header.1, left reader.new))
        (IsFaultOf (header_of x.now y.now (left reader.old))) }
    ensures reading { IfOk result (λ _. IsReading reader.new) }
    ensures columns { IfOk result (λ header. HasColumns header.1 × (header.1.count ≡ length header.0)) }
{
    let mut row = ByteRecord::new(alloc);
    if !read_record(reader, &mut row)? {
        let kind = CsvKind::NoHeader;
        return Err(CsvError::Fault(CsvFault { row: 1, kind }));
    }
    if row.len() > MAX_ITEMS {
        let kind = fault_of_long_header(&row);
        return Err(CsvError::Fault(CsvFault { row: 1, kind }));
    }
    let names = texts_of(alloc, &row, 1)?;
    match columns_of(names.as_slice(), x, y) {
        Ok(columns) => Ok((names, columns)),
        Err(kind) => Err(CsvError::Fault(CsvFault { row: 1, kind })),
    }
}

// Reads the rows under a header.
fn read_rows(
    alloc: Global,
    reader: &mut Reader<&[u8]>,
    columns: Columns,
    limit: u32,
) -> Result<Rows, CsvError>
    requires reading { IsReading reader.old }
    requires columns { HasColumns columns }
    ensures value { MatchResult result
        (λ rows. features_of columns limit 2 (left reader.old) ≡ Ok rows)
        (IsFaultOf (features_of columns limit 2 (left reader.old))) }
    ensures points { IfOk result (All (IsPointWith columns.count)) }
    ensures rows { IfOk result (λ rows. length rows ≤ limit) }
{
    let mut row = ByteRecord::new(alloc);
    let mut places = Items::new(alloc);
    let mut texts = Texts::new(alloc);
    for index in 0..limit {
        if !read_record(reader, &mut row)? {
            return Ok(Rows::of(columns.count, places, texts));
        }
        places.push(read_row(&mut texts, &row, columns, u64::from(index) + 2)?)?;
    }
    if read_record(reader, &mut row)? {
        let kind = CsvKind::Limit;
        let row = u64::from(limit) + 2;
        return Err(CsvError::Fault(CsvFault { row, kind }));
    }
    Ok(Rows::of(columns.count, places, texts))
}

/// Reads a table of points in one pass: the table that a text of CSV is, or its first fault with the
/// number of its record.
///
/// `x` and `y` name the columns of the longitudes and of the latitudes, in degrees, and `limit` is the most
/// rows after the header. Of several faults in one record the first in this order is reported. `NoHeader`
/// means that there is no record, and `Limit` that the row comes after the last that is allowed. Then come
/// `Uneven`, `NotText`, `Limit` for a header of more than `MAX_ITEMS` columns, `NoColumn` and `BadNumber`.
///
/// `table_of` is either a table or a fault. Unless memory is refused, which is `NoMemory`, the call gives
/// the table or the fault that it is, by the two clauses. The clause `rows` says of the table what follows
/// from that. The memory that it takes is in proportion to the table, and a text that is refused leaves
/// none behind.
pub fn read(alloc: Global, bytes: &[u8], x: &str, y: &str, limit: u32) -> Result<Table, CsvError>
    ensures table { IfOk result (λ t. table_of x.now y.now limit (records_of bytes.now) ≡ Ok t) }
    ensures fault { IfErr result (IsFaultOf (table_of x.now y.now limit (records_of bytes.now))) }
    ensures rows { IfOk result (λ t. length t.features ≤ limit) }
{
    let mut reader = reader_of(alloc, bytes);
    let (columns, indices) = read_header(alloc, &mut reader, x, y)?;
    let features = read_rows(alloc, &mut reader, indices, limit)?;
    Ok(Table::new(TableFields { columns, features }))
}
