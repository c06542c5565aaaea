ghost use Rattle.std.specs.Prelude.{◌≡◌};
ghost use Rattle.csv.specs.Reading.{is_bom, strip_bom};

use crate::sentence::{SHOWN, cut};
use csvpoints::{CsvError, CsvFault, CsvKind};
use mapparse::Files;
use maptree::LayerTree;
use mapwords::TextKeyword;
use std::alloc::{AllocError, Global};
use std::str;

// The most characters that are shown of a header.
const SHOWN_HEADER: usize = 200;

/// The names of the columns in which a layer looks for its coordinates.
pub fn columns_of(layer: &LayerTree) -> (&str, &str) {
    let values = &layer.body.values;
    let x = match values.plain_text(TextKeyword::CsvX) {
        Some(name) => name.as_str(),
        None => "x",
    };
    let y = match values.plain_text(TextKeyword::CsvY) {
        Some(name) => name.as_str(),
        None => "y",
    };
    (x, y)
}

/// The bytes of a layer's table, where its file has this name.
pub fn table_of<'a>(layer: &LayerTree, name: &str, files: &'a Files) -> Option<&'a [u8]> {
    match &layer.table {
        Some(file) if file.text.as_str() == name => files.bytes(name),
        _ => None,
    }
}

// Whether the header of a table lacks a column that a layer looks for. No row is read.
fn lacks_column(alloc: Global, layer: &LayerTree, bytes: &[u8]) -> bool {
    let (x, y) = columns_of(layer);
    matches!(
        csvpoints::read(alloc, bytes, x, y, 0),
        Err(CsvError::Fault(CsvFault {
            kind: CsvKind::NoColumn,
            ..
        }))
    )
}

// Whether three bytes are a byte order mark.
fn is_mark(first: u8, second: u8, third: u8) -> bool
    ensures { result ≡ is_bom first second third }
{
    first == 239 && second == 187 && third == 191
}

// The bytes of a table after its byte order mark, if it begins with one.
fn after_mark(bytes: &[u8]) -> &[u8]
    ensures { result.now ≡ strip_bom bytes.now }
{
    match bytes {
        [first, second, third, ..] if is_mark(*first, *second, *third) => &bytes[3..],
        _ => bytes,
    }
}

// The first line of a table that isn't empty, as it is shown.
fn header(alloc: Global, bytes: &[u8]) -> Result<String, AllocError> {
    let is_end = |byte: &u8| *byte == b'\n' || *byte == b'\r';
    let line = after_mark(bytes)
        .split(is_end)
        .find(|line| !line.is_empty());
    let text = str::from_utf8(line.unwrap_or(b"")).unwrap_or("");
    cut(alloc, text, SHOWN_HEADER)
}

// The columns that a layer looks for, and the header that lacks one.
fn columns(alloc: Global, layer: &LayerTree, bytes: &[u8]) -> Result<String, AllocError> {
    let (x, y) = columns_of(layer);
    let (x, y) = (cut(alloc, x, SHOWN)?, cut(alloc, y, SHOWN)?);
    let header = header(alloc, bytes)?;
    format!(in alloc; "{x} and {y} are looked for in {header}")
}

/// The columns that a layer looks for in the table of this name, and the table's header, where that lacks one. The
/// source is parsed for the names of the columns.
pub fn message_on_columns(
    alloc: Global,
    source: &[u8],
    files: &Files,
    name: &str,
) -> Option<String> {
    let tree = maptree::read(alloc, source).ok()?;
    for layer in tree.layers.as_slice() {
        match table_of(layer, name, files) {
            Some(bytes) if lacks_column(alloc, layer, bytes) => {
                return columns(alloc, layer, bytes).ok();
            }
            _ => {}
        }
    }
    None
}
