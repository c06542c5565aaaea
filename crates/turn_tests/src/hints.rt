//! The likely causes of faults, by the documents on them and the targets of their requests.

use accesslog::{hint_line, hint_on};
use std::alloc::{AllocError, Global};
use std::str;
use test_tables::{TableFault, check_rows};

// The line on the likely cause, for the code, the parameter and the target of a row, with spaces between them.
fn hint_of_row(alloc: Global, row: &str) -> Result<String, AllocError> {
    let (code, rest) = row.split_once(' ').unwrap_or(("", row));
    let (parameter, target) = rest.split_once(' ').unwrap_or(("", rest));
    let document = format!(in alloc;
        "<?xml version=\"1.0\" encoding=\"UTF-8\"?>\n<ServiceExceptionReport version=\"1.3.0\" xmlns=\"http://www.opengis.net/ogc\">\n<ServiceException code=\"{code}\">{parameter}</ServiceException>\n</ServiceExceptionReport>\n"
    )?;
    let Some(hint) = hint_on(alloc, target.as_bytes(), document.as_bytes()) else {
        return String::from_str(alloc, "none");
    };
    let line = hint_line(alloc, 4, hint)?;
    String::from_str(alloc, str::from_utf8(&line).unwrap_or("?").trim_end())
}

// The lines, and what they come of.
const ROWS: &str = "\
hint 4 SRS is the name of WMS 1.1.1: 1.3.0 has CRS|MissingParameterValue CRS /wms?BBOX=1,2,3,4&srs=EPSG:4326
none|MissingParameterValue CRS /wms?BBOX=1,2,3,4&SR=EPSG:4326
none|MissingParameterValue CRS /srs=EPSG:4326
hint 4 EPSG:3857 isn't offered: CONFIG \"WMS_CRS\" \"EPSG:3857\" in MAP offers it|InvalidCRS CRS /?a&CRS=EPSG:3857
hint 4 CRS is none of CRS:84, EPSG:4326 and, where the map offers it, EPSG:3857|InvalidCRS CRS /?Crs=EPSG%3A25832&CRS=EPSG:3857
hint 4 CRS is none of CRS:84, EPSG:4326 and, where the map offers it, EPSG:3857|InvalidCRS CRS /?CRS=epsg:3857
hint 4 BBOX isn't four numbers between commas|InvalidParameterValue BBOX /?CRS=CRS:84&BBOX=1,2,3
hint 4 BBOX isn't four numbers between commas|InvalidParameterValue BBOX /?BBOX=1,2,3,4,5&BBOX=1,2,3,4&CRS=CRS:84
hint 4 a number of BBOX can't be read or is too large: degrees go to 1,000, and EPSG:3857 is in metres|InvalidParameterValue BBOX /?CRS=EPSG:4326&BBOX=900000,6000000,1000000,6100000
hint 4 a number of BBOX can't be read or is too large: degrees go to 1,000, and EPSG:3857 is in metres|InvalidParameterValue BBOX /?CRS=EPSG:3857&BBOX=1,2,3,x
hint 4 BBOX has no area: in EPSG:4326 it is south,west,north,east, which WMS 1.1.1 has as west,south,east,north|InvalidParameterValue BBOX /?bbox=47,9,46,10&crs=EPSG:4326
hint 4 BBOX has no area: it is west,south,east,north|InvalidParameterValue BBOX /?BBOX=9%2C47%2C9%2C48&CRS=CRS:84
hint 4 BBOX has no area: it is west,south,east,north|InvalidParameterValue BBOX /?BBOX=900000,2,800000,3&CRS=EPSG:3857
# what is no fault of the two, no known cause, or no such target
none|InvalidParameterValue WIDTH /?CRS=CRS:84&BBOX=1,2,3
none|MissingParameterValue BBOX /?CRS=CRS:84&SRS=CRS:84
none|InvalidParameterValue BBOX /?CRS=CRS:84&BBOX=1,2,3,4
none|InvalidParameterValue BBOX /wms";

#[test]
fn faults_of_crs_and_bbox_have_likely_causes(rt: HostRuntime) -> Result<(), TableFault> {
    check_rows(rt.alloc(), ROWS, '|', 17, hint_of_row)
}

// A document on a fault that goes on beyond 300 bytes isn't one.
#[test]
fn longer_documents_have_no_hint(rt: HostRuntime) -> Result<(), AllocError> {
    let alloc = rt.alloc();
    let mut document = Vec::new(alloc);
    document.extend_from_slice(b"code=\"InvalidCRS\">CRS</ServiceException>")?;
    let target = b"/?CRS=EPSG:25832".as_slice();
    for _ in document.len()..300 {
        document.push(b' ')?;
    }
    assert!(rt; hint_on(alloc, target, &document).is_some());
    document.push(b' ')?;
    assert!(rt; hint_on(alloc, target, &document).is_none());
    Ok(())
}
