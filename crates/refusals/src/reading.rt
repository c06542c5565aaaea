use crate::marks::{begin, end};
use bdffont::FontError;
use capabilities::document;
use csvpoints::CsvError;
use expressions::ExprError;
use httpedge::Conn;
use mapdefs::{Items, Map, Text};
use mapmachine::Machine;
use mapparse::{Files, ParseFault, parse};
use std::alloc::{AllocError, Global};
use std::io;
use symbols::PixFault;
use wmsquery::{QueryError, Request};

// A map with a file of each kind, of which two fonts have one, and one without.
const MAPFILE: &[u8] =
    b"MAP CONFIG LABELFONT f.bdf CONFIG 'LABELFONT n' f.bdf SYMBOL NAME s TYPE PIXMAP IMAGE s.ppm END \
LAYER NAME p TYPE POINT DATA t.csv LABELITEM n PROCESSING 'ITEMS=x,y' METADATA wms_title t END \
CLASS EXPRESSION ([x] = 1 AND NOT '[n]' IN 'b,c') STYLE SYMBOL s END LABEL END END \
FEATURE ITEMS '1;2' TEXT t POINTS 1 2 END END END END";

const PLAIN: &[u8] =
    b"MAP CONFIG WMS_FORMATS image/png LAYER NAME a TYPE POLYGON CLASS STYLE COLOR 1 2 3 END END \
FEATURE POINTS 0 0 1 0 1 1 0 1 END END END \
LAYER NAME p TYPE POINT TEMPLATE t PROCESSING 'ITEMS=n' CLASS STYLE COLOR 4 5 6 END END \
FEATURE ITEMS k POINTS 0.5 0.5 END END END END";

const SMOOTHED: &[u8] =
    b"MAP CONFIG WMS_SMOOTHING 2 LAYER NAME a TYPE POLYGON CLASS STYLE COLOR 1 2 3 END END \
FEATURE POINTS 0 0 1 0 1 1 0 1 END END END \
LAYER NAME p TYPE POINT CLASS STYLE COLOR 4 5 6 END END FEATURE POINTS 0.5 0.5 END END END END";

const TABLE: &[u8] = b"x,y,n\n1,2,a\n3,4,b\n";

const PIXMAP: &[u8] = b"P6 2 1 255\nabcdef";

const FONT: &[u8] = b"STARTFONT 2.1\nFONTBOUNDINGBOX 1 1 0 0\nCHARS 1\nSTARTCHAR A\nENCODING 65\n\
DWIDTH 2 0\nBBX 1 1 0 0\nBITMAP\n80\nENDCHAR\nENDFONT\n";

const QUERY: &[u8] =
    b"VERSION=1.3.0&REQUEST=GetMap&LAYERS=p,a&STYLES=&CRS=CRS:84&BBOX=0,0,2,1&WIDTH=2&HEIGHT=1&FORMAT=image/x-portable-pixmap";

fn add(files: &mut Files, alloc: Global, name: &str, bytes: &[u8]) -> Result<(), AllocError> {
    let bytes = Vec::from_slice(alloc, bytes)?;
    files.add(Text::from_str(alloc, name)?, Items::of(bytes))
}

fn some_files(alloc: Global) -> Result<Files, AllocError> {
    let mut files = Files::new(alloc);
    add(&mut files, alloc, "f.bdf", FONT)?;
    add(&mut files, alloc, "s.ppm", PIXMAP)?;
    add(&mut files, alloc, "t.csv", TABLE)?;
    Ok(files)
}

/// A map of a polygon, on a layer `a`, and of a point, on a layer `p`.
pub fn plain_map(alloc: Global) -> Result<Map, AllocError> {
    parse(alloc, PLAIN, &Files::new(alloc)).map_err(|_| AllocError)
}

/// A machine of that map.
pub fn plain_machine(alloc: Global) -> Result<Machine, AllocError> {
    Machine::open(alloc, plain_map(alloc)?)
}

// How many layers, symbols and features of the first layer a map has.
fn counts_of(alloc: Global, map: &Map) -> Result<String, AllocError> {
    let map = map.get();
    let features = match map.layers.as_slice() {
        [first, ..] => first.get().features.len(),
        [] => 0,
    };
    let (layers, symbols) = (map.layers.len(), map.symbols.len());
    format!(in alloc; "{layers} layers, {symbols} symbols, {features} features")
}

/// Reads a mapfile with its files.
pub fn parse_row(rt: &HostRuntime) -> io::Result<Option<String>> {
    let alloc = rt.alloc();
    let files = some_files(alloc)?;
    begin(rt)?;
    let answer = parse(alloc, MAPFILE, &files);
    end(rt)?;
    match answer {
        Ok(map) => Ok(Some(counts_of(alloc, &map)?)),
        Err(ParseFault::NoMemory) => Ok(None),
        Err(fault) => Ok(Some(format!(in alloc; "{fault}")?)),
    }
}

/// Reads a table.
pub fn table_row(rt: &HostRuntime) -> io::Result<Option<String>> {
    let alloc = rt.alloc();
    begin(rt)?;
    let answer = csvpoints::read(alloc, TABLE, "x", "y", 9);
    end(rt)?;
    match answer {
        Ok(table) => {
            let (columns, features) = (table.get().columns.len(), table.get().features.len());
            Ok(Some(format!(in alloc; "{columns} columns, {features} features")?))
        }
        Err(CsvError::NoMemory) => Ok(None),
        Err(fault) => Ok(Some(format!(in alloc; "{fault}")?)),
    }
}

/// Reads a pixmap.
pub fn pixmap_row(rt: &HostRuntime) -> io::Result<Option<String>> {
    let alloc = rt.alloc();
    begin(rt)?;
    let answer = symbols::read(alloc, PIXMAP);
    end(rt)?;
    match answer {
        Ok(pixmap) => {
            let (width, height) = (pixmap.get().width, pixmap.get().height);
            Ok(Some(format!(in alloc; "{width} by {height}")?))
        }
        Err(PixFault::NoMemory) => Ok(None),
        Err(fault) => Ok(Some(format!(in alloc; "{fault}")?)),
    }
}

/// Reads a font.
pub fn font_row(rt: &HostRuntime) -> io::Result<Option<String>> {
    let alloc = rt.alloc();
    begin(rt)?;
    let answer = bdffont::read(alloc, FONT);
    end(rt)?;
    match answer {
        Ok(font) => {
            let glyphs = font.get().glyphs.len();
            Ok(Some(format!(in alloc; "{glyphs} glyphs")?))
        }
        Err(FontError::NoMemory) => Ok(None),
        Err(fault) => Ok(Some(format!(in alloc; "{fault}")?)),
    }
}

/// Reads a logical expression.
pub fn expression_row(rt: &HostRuntime) -> io::Result<Option<String>> {
    let alloc = rt.alloc();
    begin(rt)?;
    let answer = expressions::read(alloc, b"([a] = 1 AND NOT '[b]' IN \"x,y\" OR 1 < 2)");
    end(rt)?;
    match answer {
        Ok(_) => Ok(Some(String::from_str(alloc, "read")?)),
        Err(ExprError::NoMemory) => Ok(None),
        Err(fault) => Ok(Some(format!(in alloc; "{fault}")?)),
    }
}

/// Reads a query.
pub fn query_row(rt: &HostRuntime) -> io::Result<Option<String>> {
    let alloc = rt.alloc();
    let map = plain_map(alloc)?;
    begin(rt)?;
    let answer = wmsquery::read(alloc, QUERY, &map, 0);
    end(rt)?;
    match answer {
        Ok(Request::Map(request)) => {
            let chosen = request.chosen.as_slice();
            Ok(Some(format!(in alloc; "a picture of the layers {chosen:?}")?))
        }
        Ok(_) => Ok(Some(String::from_str(alloc, "another request")?)),
        Err(QueryError::NoMemory) => Ok(None),
        Err(fault) => Ok(Some(format!(in alloc; "{fault}")?)),
    }
}

/// Writes the document of the capabilities, of which the length is printed.
pub fn document_row(rt: &HostRuntime) -> io::Result<Option<String>> {
    let alloc = rt.alloc();
    let map = plain_map(alloc)?;
    begin(rt)?;
    let answer = document(alloc, 7, &map);
    end(rt)?;
    match answer {
        Ok(text) => Ok(Some(format!(in alloc; "{} bytes", text.len())?)),
        Err(_) => Ok(None),
    }
}

/// Opens a machine.
pub fn open_row(rt: &HostRuntime) -> io::Result<Option<String>> {
    let alloc = rt.alloc();
    let map = plain_map(alloc)?;
    begin(rt)?;
    let answer = Machine::open(alloc, map);
    end(rt)?;
    match answer {
        Ok(machine) => Ok(Some(format!(in alloc; "sequence {}", machine.sequence())?)),
        Err(_) => Ok(None),
    }
}

/// Takes the memory for a request head.
pub fn head_row(rt: &HostRuntime) -> io::Result<Option<String>> {
    let alloc = rt.alloc();
    begin(rt)?;
    let answer = Conn::new(alloc);
    end(rt)?;
    match answer {
        Ok(conn) => Ok(Some(format!(in alloc; "closing {}", conn.closing())?)),
        Err(_) => Ok(None),
    }
}

/// Answers a query about the plain map.
pub fn reply_row(rt: &HostRuntime, query: &[u8]) -> io::Result<Option<String>> {
    let machine = plain_machine(rt.alloc())?;
    answer_row(rt, &machine, query)
}

/// Answers a query about a map that is smoothed.
pub fn smoothed_row(rt: &HostRuntime, query: &[u8]) -> io::Result<Option<String>> {
    let alloc = rt.alloc();
    let map = parse(alloc, SMOOTHED, &Files::new(alloc)).map_err(|_| AllocError)?;
    let machine = Machine::open(alloc, map)?;
    answer_row(rt, &machine, query)
}

// The answer to a query: the mime type, and the body as text or by its bytes.
fn answer_row(rt: &HostRuntime, machine: &Machine, query: &[u8]) -> io::Result<Option<String>> {
    let alloc = rt.alloc();
    begin(rt)?;
    let answer = machine.reply(query);
    end(rt)?;
    let Ok(answer) = answer else {
        return Ok(None);
    };
    let mime = answer.mime.text();
    let bytes = answer.body.as_slice();
    match str::from_utf8(bytes) {
        Ok(text) => Ok(Some(format!(in alloc; "{mime}\n{text}")?)),
        Err(_) => Ok(Some(format!(in alloc; "{mime}\n{bytes:?}")?)),
    }
}
