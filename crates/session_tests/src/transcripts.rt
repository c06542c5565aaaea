use crate::endings::{ended, is_played};
use crate::texts::{QUERY, SQUARE, SQUARE_MAP, columns};
use std::alloc::{AllocError, Global};
use test_tables::{TableFault, check_all, check_rows};

// The text of a service exception in a session. The document has 187 bytes beside the code and the name of the parameter.
fn exception(alloc: Global, code: &str, parameter: &str) -> Result<String, AllocError> {
    let length = code
        .len()
        .saturating_add(parameter.len())
        .saturating_add(187);
    format!(in alloc;
        "ANSWER text/xml {length}\n\
<?xml version=\"1.0\" encoding=\"UTF-8\"?>\n\
<ServiceExceptionReport version=\"1.3.0\" xmlns=\"http://www.opengis.net/ogc\">\n\
<ServiceException code=\"{code}\">{parameter}</ServiceException>\n\
</ServiceExceptionReport>\n"
    )
}

// The text of a picture of 4 by 4 pixels in a session. The picture is drawn in rows, `#` for the colour and `.` for the background.
fn drawn(alloc: Global, rows: &str) -> Result<String, AllocError> {
    let mut body = Vec::from_slice(alloc, b"P6\n4 4\n255\n")?;
    for pixel in rows.bytes() {
        match pixel {
            b'#' => body.extend_from_slice(&[10, 20, 30])?,
            b'.' => body.extend_from_slice(&[255, 255, 255])?,
            _ => {}
        }
    }
    let mut text = String::from_str(alloc, "ANSWER image/x-portable-pixmap 59\n")?;
    for line in body.chunks(32) {
        text.push_str(hex::encode(alloc, line)?.as_str())?;
        text.push('\n')?;
    }
    Ok(text)
}

// The text of an answer in a session: a picture that is drawn in rows, or an exception by its code and the name of its parameter.
fn answer(alloc: Global, answer_code: &str) -> Result<String, AllocError> {
    match answer_code.split_once(' ') {
        Some((code, parameter)) if !answer_code.starts_with(['.', '#']) => {
            exception(alloc, code, parameter)
        }
        _ => drawn(alloc, answer_code),
    }
}

// Rings of a feature, pairs before those of `QUERY`, and the answer, worked by hand.
const ANSWERS: &str = "\
POINTS 1 1 3 1 3 3 1 3 END||.... .##. .##. ....\n\
POINTS 1.5 1 3 1 3 3 1.5 3 END||.... .##. .##. ....\n\
POINTS 0 1 1.5 1 1.5 3 0 3 END||.... #... #... ....\n\
POINTS 0 0 4 0 4 4 0 4 END POINTS 1 1 3 1 3 3 1 3 END||#### #..# #..# ####\n\
POINTS 1 1 3 3 3 1 1 3 END||.... ..#. ..#. ....\n\
POINTS -200 -200 200 -200 200 200 -200 200 END||#### #### #### ####\n\
POINTS -3 1 -1 1 -1 3 -3 3 END||.... .... .... ....\n\
POINTS 11 41 13 41 13 43 11 43 END|BBOX=10,40,14,44&CRS=CRS:84|.... .##. .##. ....\n\
POINTS 11 41 13 41 13 43 11 43 END|BBOX=40,10,44,14&CRS=EPSG:4326|.... .##. .##. ....\n\
POINTS 11 41 13 41 13 44 11 44 END|BBOX=40,10,44,14&CRS=EPSG:4326|.##. .##. .##. ....\n\
POINTS 1 1 3 1 3 3 1 3 END|BBOX=0.0000000000000000,0,4.0000000000000001,4|.... .##. .##. ....\n\
POINTS 1 1 3 1 3 3 1 3 END|BBOX=1e-7,0,4,4|.... .##. .##. ....\n\
POINTS 1 1 3 1 3 3 1 3 END|LAYERS=a,a&STYLES=default,|.... .##. .##. ....\n\
POINTS 1 1 3 1 3 3 1 3 END|bgcolor=0x0A141e|#### #### #### ####\n\
POINTS 1 1 3 1 3 3 1 3 END|BBOX=0,0,0,4|InvalidParameterValue BBOX\n\
POINTS 1 1 3 1 3 3 1 3 END|LAYERS=x&CRS=EPSG:1|LayerNotDefined LAYERS\n\
POINTS 1 1 3 1 3 3 1 3 END|WIDTH=2049|InvalidParameterValue WIDTH\n\
POINTS 1 1 3 1 3 3 1 3 END|WIDTH=0|InvalidParameterValue WIDTH\n\
POINTS 1 1 3 1 3 3 1 3 END|FORMAT=image/png|InvalidFormat FORMAT\n\
POINTS 1 1 3 1 3 3 1 3 END|STYLES=default,default|InvalidParameterValue STYLES\n\
POINTS 1 1 3 1 3 3 1 3 END|STYLES=x|StyleNotDefined STYLES\n\
POINTS 1 1 3 1 3 3 1 3 END|REQUEST=getmap|OperationNotSupported REQUEST";

/// Whether a row of rings, of pairs and of an answer has the answer of its query. The rings are those of the one feature of a layer
/// `a` in the colour 10 20 30.
pub fn is_answered(alloc: Global, row: &str) -> Result<bool, AllocError> {
    let (rings, pairs, answer_code) = columns(row);
    let map = SQUARE_MAP.replace(alloc, SQUARE, rings)?;
    let script = format!(in alloc; "QUERY {pairs}&{QUERY}\n")?;
    let text = answer(alloc, answer_code)?;
    is_played(alloc, map.as_str(), script.as_str(), text.as_str())
}

#[test]
fn sessions_answer_their_queries(rt: HostRuntime) -> Result<(), TableFault> {
    check_all(rt.alloc(), ANSWERS, 22, is_answered)
}

// Layers up to their feature's points, scripts of one query, and the text that is written of them, worked by hand. First the square
// alone, with a name of a parameter in lower case, and with a second pair of a name. Then a layer with two classes, the second of
// which would paint it in 40 50 60, in 4 by 2 pixels. The pixel centres of these two rows are at the heights of the square's upper and
// lower edge: the upper edge covers them, the lower one doesn't. Before these a picture of 7 by 1 pixels, whose 32 bytes fill one
// line. Then classes by their rules, of a feature whose items are empty, and of one whose item is `b` or `c`; and by bounds on the
// scale, which is 397,569,610.7.
const WRITTEN: &str = "\
CLASS STYLE COLOR 10 20 30 END END FEATURE|VERSION=1.3.0&REQUEST=GetMap&LAYERS=a&STYLES=&CRS=CRS:84&BBOX=0,0,4,4&WIDTH=4&HEIGHT=4&FORMAT=image/x-portable-pixmap|59 50360a3420340a3235350affffffffffffffffffffffffffffff0a141e0a141e ffffffffffff0a141e0a141effffffffffffffffffffffffffffff\n\
CLASS STYLE COLOR 10 20 30 END END FEATURE|VERSION=1.3.0&REQUEST=GetMap&layers=a&STYLES=&CRS=CRS:84&BBOX=0,0,4,4&WIDTH=4&HEIGHT=4&FORMAT=image/x-portable-pixmap|59 50360a3420340a3235350affffffffffffffffffffffffffffff0a141e0a141e ffffffffffff0a141e0a141effffffffffffffffffffffffffffff\n\
CLASS STYLE COLOR 10 20 30 END END FEATURE|VERSION=1.3.0&REQUEST=GetMap&LAYERS=a&STYLES=&CRS=CRS:84&BBOX=0,0,4,4&WIDTH=4&HEIGHT=4&FORMAT=image/x-portable-pixmap&LAYERS=x|59 50360a3420340a3235350affffffffffffffffffffffffffffff0a141e0a141e ffffffffffff0a141e0a141effffffffffffffffffffffffffffff\n\
CLASS STYLE COLOR 10 20 30 END END FEATURE|VERSION=1.3.0&REQUEST=GetMap&LAYERS=a&STYLES=&CRS=CRS:84&BBOX=0,2,7,3&WIDTH=7&HEIGHT=1&FORMAT=image/x-portable-pixmap|32 50360a3720310a3235350affffff0a141e0a141effffffffffffffffffffffff\n\
CLASS STYLE COLOR 10 20 30 END END CLASS STYLE COLOR 40 50 60 END END FEATURE|VERSION=1.3.0&REQUEST=GetMap&LAYERS=a&STYLES=&CRS=CRS:84&BBOX=0,0,4,4&WIDTH=4&HEIGHT=2&FORMAT=image/x-portable-pixmap|35 50360a3420320a3235350affffff0a141e0a141effffffffffffffffffffffff ffffff\n\
CLASSITEM k PROCESSING 'ITEMS=j,k' CLASS EXPRESSION {a,} STYLE COLOR 40 50 60 END END CLASS STYLE COLOR 10 20 30 END END FEATURE|VERSION=1.3.0&REQUEST=GetMap&LAYERS=a&STYLES=&CRS=CRS:84&BBOX=0,0,4,4&WIDTH=4&HEIGHT=4&FORMAT=image/x-portable-pixmap|59 50360a3420340a3235350affffffffffffffffffffffffffffff28323c28323c ffffffffffff28323c28323cffffffffffffffffffffffffffffff\n\
CLASSITEM k PROCESSING 'ITEMS=j,k' CLASS EXPRESSION {a,b} STYLE COLOR 40 50 60 END END CLASS STYLE COLOR 10 20 30 END END FEATURE|VERSION=1.3.0&REQUEST=GetMap&LAYERS=a&STYLES=&CRS=CRS:84&BBOX=0,0,4,4&WIDTH=4&HEIGHT=4&FORMAT=image/x-portable-pixmap|59 50360a3420340a3235350affffffffffffffffffffffffffffff0a141e0a141e ffffffffffff0a141e0a141effffffffffffffffffffffffffffff\n\
CLASS EXPRESSION ('[k]' = 'b') STYLE COLOR 40 50 60 END END CLASS EXPRESSION ('[k]' = '') STYLE COLOR 10 20 30 END END FEATURE|VERSION=1.3.0&REQUEST=GetMap&LAYERS=a&STYLES=&CRS=CRS:84&BBOX=0,0,4,4&WIDTH=4&HEIGHT=4&FORMAT=image/x-portable-pixmap|59 50360a3420340a3235350affffffffffffffffffffffffffffff0a141e0a141e ffffffffffff0a141e0a141effffffffffffffffffffffffffffff\n\
CLASSITEM k PROCESSING 'ITEMS=k' CLASS EXPRESSION {a,b} STYLE COLOR 40 50 60 END END CLASS EXPRESSION c STYLE COLOR 10 20 30 END END FEATURE ITEMS b|VERSION=1.3.0&REQUEST=GetMap&LAYERS=a&STYLES=&CRS=CRS:84&BBOX=0,0,4,4&WIDTH=4&HEIGHT=4&FORMAT=image/x-portable-pixmap|59 50360a3420340a3235350affffffffffffffffffffffffffffff28323c28323c ffffffffffff28323c28323cffffffffffffffffffffffffffffff\n\
CLASSITEM k PROCESSING 'ITEMS=k' CLASS EXPRESSION {a,b} STYLE COLOR 40 50 60 END END CLASS EXPRESSION c STYLE COLOR 10 20 30 END END FEATURE ITEMS c|VERSION=1.3.0&REQUEST=GetMap&LAYERS=a&STYLES=&CRS=CRS:84&BBOX=0,0,4,4&WIDTH=4&HEIGHT=4&FORMAT=image/x-portable-pixmap|59 50360a3420340a3235350affffffffffffffffffffffffffffff0a141e0a141e ffffffffffff0a141e0a141effffffffffffffffffffffffffffff\n\
TYPE LINE CLASS STYLE COLOR 10 20 30 OUTLINECOLOR 40 50 60 END END FEATURE|VERSION=1.3.0&REQUEST=GetMap&LAYERS=a&STYLES=&CRS=CRS:84&BBOX=0,0,4,4&WIDTH=4&HEIGHT=4&FORMAT=image/x-portable-pixmap|59 50360a3420340a3235350affffffffffffffffffffffffffffff0a141e0a141e 0a141effffffffffffffffff0a141effffff0a141e0a141e0a141e\n\
TYPE point CLASS STYLE SIZE 2 COLOR 10 20 30 WIDTH 3 END END FEATURE|VERSION=1.3.0&REQUEST=GetMap&LAYERS=a&STYLES=&CRS=CRS:84&BBOX=0,0,4,4&WIDTH=4&HEIGHT=4&FORMAT=image/x-portable-pixmap|59 50360a3420340a3235350affffffffffffffffffffffffffffff0a141e0a141e 0a141effffff0a141e0a141e0a141effffff0a141e0a141e0a141e\n\
CLASS STYLE OUTLINECOLOR 40 50 60 COLOR 10 20 30 END END FEATURE|VERSION=1.3.0&REQUEST=GetMap&LAYERS=a&STYLES=&CRS=CRS:84&BBOX=0,0,4,4&WIDTH=4&HEIGHT=4&FORMAT=image/x-portable-pixmap|59 50360a3420340a3235350affffffffffffffffffffffffffffff28323c28323c 28323cffffff28323c0a141e28323cffffff28323c28323c28323c\n\
MINSCALEDENOM 397569610 CLASS MAXSCALEDENOM 397569610 STYLE COLOR 40 50 60 END END CLASS MAXSCALEDENOM 397569611 STYLE COLOR 10 20 30 END END FEATURE|VERSION=1.3.0&REQUEST=GetMap&LAYERS=a&STYLES=&CRS=CRS:84&BBOX=0,0,4,4&WIDTH=4&HEIGHT=4&FORMAT=image/x-portable-pixmap|59 50360a3420340a3235350affffffffffffffffffffffffffffff0a141e0a141e ffffffffffff0a141e0a141effffffffffffffffffffffffffffff\n\
MINSCALEDENOM 397569611 CLASS STYLE COLOR 10 20 30 END END FEATURE|VERSION=1.3.0&REQUEST=GetMap&LAYERS=a&STYLES=&CRS=CRS:84&BBOX=0,0,4,4&WIDTH=4&HEIGHT=4&FORMAT=image/x-portable-pixmap|59 50360a3420340a3235350affffffffffffffffffffffffffffffffffffffffff ffffffffffffffffffffffffffffffffffffffffffffffffffffff";

// Whether a row of a table has the picture of its query, in a format.
fn is_written_as(alloc: Global, row: &str, mime: &str) -> Result<bool, AllocError> {
    let (layer, query, written) = columns(row);
    let map = format!(in alloc; "MAP LAYER NAME 'a' TYPE POLYGON {layer} {SQUARE} END END END")?;
    let script = format!(in alloc; "QUERY {query}\n")?;
    let lines = written.replace(alloc, " ", "\n")?;
    let text = format!(in alloc; "ANSWER {mime} {lines}\n")?;
    is_played(alloc, map.as_str(), script.as_str(), text.as_str())
}

// Whether a row of the table has the PPM of its query.
fn is_written(alloc: Global, row: &str) -> Result<bool, AllocError> {
    is_written_as(alloc, row, "image/x-portable-pixmap")
}

#[test]
fn pictures_are_written_as_worked(rt: HostRuntime) -> Result<(), TableFault> {
    check_all(rt.alloc(), WRITTEN, 15, is_written)
}

// The layer, the query, and the PAM: 65 bytes of header, and four bytes a pixel. The square is red, and around it are white,
// a colour, and nothing.
const MAPS: &str = "\
CLASS STYLE COLOR 255 0 0 END END FEATURE|VERSION=1.3.0&REQUEST=GetMap&LAYERS=a&STYLES=&CRS=CRS:84&BBOX=0,0,4,4&WIDTH=4&HEIGHT=4&FORMAT=image/x-portable-arbitrarymap|129 50370a574944544820340a48454947485420340a444550544820340a4d415856 414c203235350a5455504c54595045205247425f414c5048410a454e44484452 0affffffffffffffffffffffffffffffffffffffffff0000ffff0000ffffffff ffffffffffff0000ffff0000ffffffffffffffffffffffffffffffffffffffff ff\n\
CLASS STYLE COLOR 255 0 0 END END FEATURE|VERSION=1.3.0&REQUEST=GetMap&LAYERS=a&STYLES=&CRS=CRS:84&BBOX=0,0,4,4&WIDTH=4&HEIGHT=4&FORMAT=image/x-portable-arbitrarymap&TRANSPARENT=FALSE&BGCOLOR=0x28323C|129 50370a574944544820340a48454947485420340a444550544820340a4d415856 414c203235350a5455504c54595045205247425f414c5048410a454e44484452 0a28323cff28323cff28323cff28323cff28323cffff0000ffff0000ff28323c ff28323cffff0000ffff0000ff28323cff28323cff28323cff28323cff28323c ff\n\
CLASS STYLE COLOR 255 0 0 END END FEATURE|VERSION=1.3.0&REQUEST=GetMap&LAYERS=a&STYLES=&CRS=CRS:84&BBOX=0,0,4,4&WIDTH=4&HEIGHT=4&FORMAT=image/x-portable-arbitrarymap&TRANSPARENT=TRUE&BGCOLOR=0x28323C|129 50370a574944544820340a48454947485420340a444550544820340a4d415856 414c203235350a5455504c54595045205247425f414c5048410a454e44484452 0a0000000000000000000000000000000000000000ff0000ffff0000ff000000 0000000000ff0000ffff0000ff00000000000000000000000000000000000000 00";

// Whether a row of the table has the PAM of its query.
fn is_map_written(alloc: Global, row: &str) -> Result<bool, AllocError> {
    is_written_as(alloc, row, "image/x-portable-arbitrarymap")
}

#[test]
fn maps_are_written_as_worked(rt: HostRuntime) -> Result<(), TableFault> {
    check_all(rt.alloc(), MAPS, 3, is_map_written)
}

// Columns, rows and components of pixels beside the corners of the square, which are at 512 and 1536,
// and the hexadecimal digits.
const SAMPLES: &str = "\
512 512 0 0a\n\
512 512 1 14\n\
512 512 2 1e\n\
511 512 2 ff\n\
512 511 0 ff\n\
1535 1535 0 0a\n\
1536 1535 0 ff\n\
1000 1200 1 14";

// The same of a picture with nothing around the square.
const MAP_SAMPLES: &str = "\
512 512 0 0a\n\
512 512 1 14\n\
512 512 2 1e\n\
512 512 3 ff\n\
511 512 2 00\n\
512 511 3 00\n\
1535 1535 3 ff\n\
1536 1535 3 00\n\
1000 1200 1 14";

// The form of a picture: the first lines of its text, how many bytes are before its pixels, how many a pixel has, the end of its
// query, and samples of it.
struct Form {
    prefix: &'static str,
    header: usize,
    depth: usize,
    query: &'static str,
    samples: &'static str,
}

// As PPM.
const PIXMAP: Form = Form {
    prefix: "ANSWER image/x-portable-pixmap 12582929\n\
50360a3230343820323034380a3235350affffffffffffffffffffffffffffff\n",
    header: 17,
    depth: 3,
    query: "FORMAT=image/x-portable-pixmap",
    samples: SAMPLES,
};

// As PAM.
const MAP: Form = Form {
    prefix: "ANSWER image/x-portable-arbitrarymap 16777287\n\
50370a574944544820323034380a48454947485420323034380a444550544820\n\
340a4d415856414c203235350a5455504c54595045205247425f414c5048410a\n\
454e444844520a00000000000000000000000000000000000000000000000000\n",
    header: 71,
    depth: 4,
    query: "FORMAT=image/x-portable-arbitrarymap&TRANSPARENT=TRUE",
    samples: MAP_SAMPLES,
};

// Whether the text of a picture of 2,048 by 2,048 pixels has the digits of a row at their position. A malformed row has no answer.
fn has_sample(text: &str, form: &Form, row: &str) -> Option<bool> {
    let mut columns = row.split(' ');
    let column: usize = columns.next()?.parse().ok()?;
    let row: usize = columns.next()?.parse().ok()?;
    let component: usize = columns.next()?.parse().ok()?;
    let pixel = row.checked_mul(2_048)?.checked_add(column)?;
    let byte = pixel.checked_mul(form.depth)?.checked_add(component)?;
    let byte = byte.checked_add(form.header)?;
    let at = (byte / 32).checked_mul(65)?.checked_add(2 * (byte % 32))?;
    let line = form.prefix.find('\n')?.checked_add(1)?;
    let there = text.as_bytes().get(at.checked_add(line)?..)?;
    Some(there.starts_with(columns.next()?.as_bytes()))
}

// The largest pictures: how the session ended, the length of the text, whether that begins with the header, and how many of the
// samples it has. A PPM has 17 bytes of header and 2,048 times 2,048 pixels, 12,582,929 bytes in 393,217 lines. A PAM
// has 71 bytes and four a pixel, 16,777,287 bytes in 524,291 lines.
const LARGEST: &str = "\
0 done 25559115 true 8=pixmap
0 done 34078911 true 9=map";

// The length, the header and the samples of the text of a picture in a form.
fn result_of_picture(alloc: Global, form: &str) -> Result<String, AllocError> {
    let form = match form {
        "pixmap" => &PIXMAP,
        _ => &MAP,
    };
    let query = "VERSION=1.3.0&REQUEST=GetMap&LAYERS=a&STYLES=&CRS=CRS:84&BBOX=0,0,4,4";
    let last = form.query;
    let script = format!(in alloc; "QUERY WIDTH=2048&HEIGHT=2048&{query}&{last}\n")?;
    let (found, _) = ended(alloc, "run", (SQUARE_MAP, script.as_str()), 1_000_000, None)?;
    let (end, text, _) = columns(found.as_str());
    let mut samples = 0_usize;
    for row in form.samples.lines() {
        if has_sample(text, form, row) == Some(true) {
            samples = samples.saturating_add(1);
        }
    }
    let has_prefix = text.starts_with(form.prefix);
    format!(in alloc; "{end} {} {has_prefix} {samples}", text.len())
}

#[test]
fn largest_pictures_are_written_whole(rt: HostRuntime) -> Result<(), TableFault> {
    check_rows(rt.alloc(), LARGEST, '=', 2, result_of_picture)
}
