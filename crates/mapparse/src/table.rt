ghost use Rattle.std.specs.Prelude.{◌≡◌, ◌+◌, ◌≤◌, length, unwrap_or, Ok, IfOk, IfErr};
ghost use Rattle.csvpoints.specs.Fault.{IsFaultOf as IsCsvFaultOf};
ghost use Rattle.mapdefs.specs.declared.limits.TheConstants.{MAX_FEATURES};
ghost use Rattle.mapwords.specs.Fault.{IsFaultOf};
ghost use Rattle.mapvalues.specs.Values.{last, words_in};
ghost use Rattle.mapparse.specs.Tables.{table_for, table_in, table_given, tables_of, HasRoom, HaveRoom};

use crate::files::Files;
use csvpoints::{CsvError, Table, read};
use mapdefs::{Items, MAX_FEATURES};
use maptree::{LayerTree, Named, ParseFault, ParseKind};
use mapwords::TextKeyword;
use std::alloc::Global;

/// The name of the column of longitudes by default.
pub const LONGITUDES: &str = "x";

/// The name of the column of latitudes by default.
pub const LATITUDES: &str = "y";

// The name of the column that a keyword names, or its default.
fn column<'a>(layer: &'a LayerTree, keyword: TextKeyword, default: &'a str) -> &'a str
    ensures { result.now ≡ unwrap_or (last (words_in keyword) layer.now.body.values) default.now }
{
    match layer.body.values.plain_text(keyword) {
        Some(name) => name.as_str(),
        None => default,
    }
}

/// The table that the bytes of a file are for a layer.
pub fn table_for(layer: &LayerTree, bytes: &[u8], alloc: Global) -> Result<Table, CsvError>
    ensures table { IfOk result (λ table. table_for layer.now bytes.now ≡ Ok table) }
    ensures fault { IfErr result (IsCsvFaultOf (table_for layer.now bytes.now)) }
    ensures room { IfOk result (λ table. length layer.now.body.features + length table.features ≤ MAX_FEATURES) }
{
    let room = MAX_FEATURES - layer.body.features.as_slice().len();
    read(
        alloc,
        bytes,
        column(layer, TextKeyword::CsvX, LONGITUDES),
        column(layer, TextKeyword::CsvY, LATITUDES),
        room as u32,
    )
}

// The table in a file.
fn table_in(
    files: &Files,
    layer: &LayerTree,
    file: &Named,
    alloc: Global,
) -> Result<Table, ParseFault>
    ensures table { IfOk result (λ table. table_in files.now layer.now file.now ≡ Ok table) }
    ensures fault { IfErr result (IsFaultOf (table_in files.now layer.now file.now)) }
    ensures room { IfOk result (λ table. length layer.now.body.features + length table.features ≤ MAX_FEATURES) }
{
    let line = file.line;
    let Some(bytes) = files.bytes(file.text.as_str()) else {
        return Err(ParseFault::At {
            line,
            kind: ParseKind::MissingFile,
        });
    };
    match table_for(layer, bytes, alloc) {
        Ok(table) => Ok(table),
        Err(CsvError::NoMemory) => Err(ParseFault::NoMemory),
        Err(CsvError::Fault(_)) => Err(ParseFault::At {
            line,
            kind: ParseKind::BadFile,
        }),
    }
}

// The table of a layer, if it has one.
fn table_given(files: &Files, layer: &LayerTree, alloc: Global) -> Result<Option<Table>, ParseFault>
    ensures table { IfOk result (λ table. table_given files.now layer.now ≡ Ok table) }
    ensures fault { IfErr result (IsFaultOf (table_given files.now layer.now)) }
    ensures room { IfOk result (HasRoom layer.now) }
{
    match &layer.table {
        Some(file) => Ok(Some(table_in(files, layer, file, alloc)?)),
        None => Ok(None),
    }
}

/// The tables of layers, each of which has one or none, and room for its rows.
pub fn tables_of(
    layers: &[LayerTree],
    files: &Files,
    alloc: Global,
) -> Result<Items<Option<Table>>, ParseFault>
    ensures tables { IfOk result (λ made. tables_of files.now layers.now ≡ Ok made) }
    ensures fault { IfErr result (IsFaultOf (tables_of files.now layers.now)) }
    ensures room { IfOk result (λ made. HaveRoom layers.now made) }
{
    let mut tables = Items::new(alloc);
    for layer in layers {
        tables.push(table_given(files, layer, alloc)?)?;
    }
    Ok(tables)
}
