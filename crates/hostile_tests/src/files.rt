use crate::inputs::{
    FONT, FONT_ROWS, MAPFILE, MAPFILE_ROWS, PIXMAP, PIXMAP_ROWS, TABLE, TABLE_ROWS,
};
use crate::made::tally_of;
use crate::tally::Tally;
use bdffont::FontError;
use csvpoints::CsvError;
use mapparse::{Files, ParseFault, parse};
use std::alloc::{AllocError, Global};
use symbols::PixFault;
use test_tables::{TableFault, check_rows};

fn add_mapfile(alloc: Global, bytes: &[u8], tally: &mut Tally) -> Result<(), AllocError> {
    match parse(alloc, bytes, &Files::new(alloc)) {
        Ok(_) => tally.add(0, 0),
        Err(ParseFault::At { line, kind }) => tally.add(kind.number(), line),
        Err(ParseFault::NoMemory) => return Err(AllocError),
    }
    Ok(())
}

fn add_table(alloc: Global, bytes: &[u8], tally: &mut Tally) -> Result<(), AllocError> {
    match csvpoints::read(alloc, bytes, "x", "y", 3) {
        Ok(_) => tally.add(0, 0),
        Err(CsvError::Fault(fault)) => tally.add(fault.kind.number(), fault.row),
        Err(CsvError::NoMemory) => return Err(AllocError),
    }
    Ok(())
}

// The outcomes are numbered in the order of the faults.
fn add_pixmap(alloc: Global, bytes: &[u8], tally: &mut Tally) -> Result<(), AllocError> {
    match symbols::read(alloc, bytes) {
        Ok(_) => tally.add(0, 0),
        Err(PixFault::Magic) => tally.add(1, 0),
        Err(PixFault::Header) => tally.add(2, 0),
        Err(PixFault::Limit) => tally.add(3, 0),
        Err(PixFault::Short) => tally.add(4, 0),
        Err(PixFault::NoMemory) => return Err(AllocError),
    }
    Ok(())
}

fn add_font(alloc: Global, bytes: &[u8], tally: &mut Tally) -> Result<(), AllocError> {
    match bdffont::read(alloc, bytes) {
        Ok(_) => tally.add(0, 0),
        Err(FontError::Fault(fault)) => tally.add(fault.kind.number(), fault.line),
        Err(FontError::NoMemory) => return Err(AllocError),
    }
    Ok(())
}

#[test]
fn mapfiles_have_their_first_faults(rt: HostRuntime) -> Result<(), TableFault> {
    check_rows(rt.alloc(), MAPFILE_ROWS, '=', 7, |alloc, way| {
        tally_of(alloc, MAPFILE, way, add_mapfile)
    })
}

#[test]
fn tables_have_their_first_faults(rt: HostRuntime) -> Result<(), TableFault> {
    check_rows(rt.alloc(), TABLE_ROWS, '=', 7, |alloc, way| {
        tally_of(alloc, TABLE, way, add_table)
    })
}

#[test]
fn pixmaps_have_their_first_faults(rt: HostRuntime) -> Result<(), TableFault> {
    check_rows(rt.alloc(), PIXMAP_ROWS, '=', 7, |alloc, way| {
        tally_of(alloc, PIXMAP, way, add_pixmap)
    })
}

#[test]
fn fonts_have_their_first_faults(rt: HostRuntime) -> Result<(), TableFault> {
    check_rows(rt.alloc(), FONT_ROWS, '=', 7, |alloc, way| {
        tally_of(alloc, FONT, way, add_font)
    })
}
