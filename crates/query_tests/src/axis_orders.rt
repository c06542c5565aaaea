use crsaxes::{bbox, crs_of};
use std::alloc::{AllocError, Global};
use test_tables::{TableFault, check_rows};

// The west, south, east and north side in millionths of a degree, or the fault, `=`, a system, `=` and a
// text. A line that begins with `# ` is a heading.
const BOXES: &str = "\
10000000 40000000 14000000 44500000=CRS:84=10,40,14,44.5
10000000 40000000 14000000 44500000=EPSG:4326=40,10,44.5,14
-1500000 2000000 250000 1000000000=CRS:84=-1.5,2,.25,1000
# the fault that comes first of several
UnknownCrs=EPSG:1=1,2,x
UnknownCrs=EPSG:3857=1,2,3,4
UnknownCrs=crs:84=1,2,3,4
UnknownCrs=CRS:84 =1,2,3,4
UnknownCrs==1,2,3,4
NotFour=CRS:84=
NotFour=CRS:84=x,1,1
NotFour=CRS:84=1,2,3,4,5
NotFour=CRS:84=1,2,3,4,
NotANumber=CRS:84=3,2,1,
NotANumber=CRS:84=1, 2,3,4
NotANumber=CRS:84=5,2,x,4
NotANumber=EPSG:4326=0,0,1000.000001,4
Empty=CRS:84=0,0,0,4
Empty=CRS:84=0,4,4,4
Empty=CRS:84=4,0,0,4
Empty=EPSG:4326=0,5,4,5
Empty=EPSG:4326=4,5,0,6";

// The same where web mercator is offered: eastings and northings in metres. By 111319.490793 metres a degree of the
// equator, a millionth of it has 0.1113194908 metres.
const METRES: &str = "\
-180000000 -180000000 180000000 180000000=EPSG:3857=-20037508.342789244,-20037508.342789244,20037508.342789244,20037508.342789244
1000000 -2000000 3000000 5000000=EPSG:3857=111319.490793,-222638.981587,333958.47238,556597.453966
# just below and just above a half of a millionth
0 1 1 2=EPSG:3857=0.055659,0.05566,0.166979,0.16698
-1 -2 0 -1=EPSG:3857=-0.05566,-0.16698,-0.055659,-0.166979
-999999993 0 999999993 9=EPSG:3857=-111319490,0,111319490,1
# 1,000 degrees have 111319490.79327358 metres, which are written as the next millionth
-1000000000 0 1000000000 9=EPSG:3857=-111319490.793274,0,111319490.793274,1
10000000 40000000 14000000 44500000=CRS:84=10,40,14,44.5
10000000 40000000 14000000 44500000=EPSG:4326=40,10,44.5,14
NotANumber=EPSG:3857=0,0,111319490.793275,4
NotANumber=EPSG:3857=0,0,4 ,4
Empty=EPSG:3857=0,0,0.05,4
UnknownCrs=EPSG:900913=0,0,4,4";

// The difference of the two eastings in millionths of a metre, or `none`, `=`, a system, `=` and a text.
const WIDTHS: &str = "\
222638981587=EPSG:3857=111319.490793,-222638.981587,333958.47238,556597.453966
40075016685578=EPSG:3857=-20037508.342789244,-20037508.342789244,20037508.342789244,20037508.342789244
# each easting is rounded as it is read, a half away from zero
2445984905=EPSG:3857=1234567.0000005,7,1237012.984906499,9
2445984906=EPSG:3857=-1234567.0000005,7,-1232121.0150945,9
2=EPSG:3857=-0.0000005,0.1,0.0000005,5
222638981586548=EPSG:3857=-111319490.793274,0,111319490.793274,1
none=EPSG:3857=-111319490.793275,0,0,1
none=EPSG:3857=0,0,x,1
none=EPSG:3857=0,0,3
none=EPSG:3857=0,0,3,1,2
none=CRS:84=10,40,14,44.5
none=EPSG:4326=10,40,14,44.5";

fn width_of(alloc: Global, row: &str) -> Result<String, AllocError> {
    let Some((name, text)) = row.split_once('=') else {
        return String::from_str(alloc, "malformed");
    };
    let Some(crs) = crs_of(true, name) else {
        return String::from_str(alloc, "unknown");
    };
    match crs.metres_across(text) {
        Some(metres) => format!(in alloc; "{metres}"),
        None => String::from_str(alloc, "none"),
    }
}

#[test]
fn metres_are_the_difference_of_the_eastings(rt: HostRuntime) -> Result<(), TableFault> {
    check_rows(rt.alloc(), WIDTHS, '=', 12, width_of)
}

fn box_or_fault(
    alloc: Global,
    mercator: bool,
    crs: &str,
    text: &str,
) -> Result<String, AllocError> {
    match bbox(mercator, crs, text) {
        Ok(area) => {
            let (west, south) = (area.minx().millionths(), area.miny().millionths());
            let (east, north) = (area.maxx().millionths(), area.maxy().millionths());
            format!(in alloc; "{west} {south} {east} {north}")
        }
        Err(fault) => format!(in alloc; "{fault:?}"),
    }
}

fn rows_of_boxes(alloc: Global, row: &str) -> Result<String, AllocError> {
    let Some((crs, text)) = row.split_once('=') else {
        return String::from_str(alloc, "malformed");
    };
    box_or_fault(alloc, false, crs, text)
}

fn rows_of_metres(alloc: Global, row: &str) -> Result<String, AllocError> {
    let Some((crs, text)) = row.split_once('=') else {
        return String::from_str(alloc, "malformed");
    };
    box_or_fault(alloc, true, crs, text)
}

#[test]
fn boxes_are_read_in_the_axis_order(rt: HostRuntime) -> Result<(), TableFault> {
    check_rows(rt.alloc(), BOXES, '=', 21, rows_of_boxes)
}

#[test]
fn boxes_in_metres_are_read_easting_first(rt: HostRuntime) -> Result<(), TableFault> {
    check_rows(rt.alloc(), METRES, '=', 12, rows_of_metres)
}
