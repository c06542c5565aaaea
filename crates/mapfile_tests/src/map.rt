use crate::results::{fault_text, result_of};
use crate::said::said;
use mapparse::{Files, parse};
use std::alloc::{AllocError, Global};
use test_tables::{TableFault, check_rows};

// Two layers, and two of each block in the first, with values that are all different. Keywords and keys
// that are given twice, and blocks without a value after one that has it.
const WHOLE: &str = "MAP
  NAME first
  NAME 'Second map'
  EXTENT 1 2 3 4
  EXTENT -10 20.5 30 '40'
  CONFIG MS_ERRORFILE 'stderr'
  WEB
    METADATA
      wms_title 'First title'
      'ows_onlineresource' 'http://a.example/?'
      WMS_TITLE 'In capitals'
    END
    TEMPLATE web.html
    METADATA 'wms_title' Waters ows_title 'Other title' END
  END
  WEB METADATA ows_title Third ows_onlineresource 'http://b.example/map?' END END
  LAYER
    CLASSITEM depth
    CLASSITEM \"kind\"
    LABELITEM label
    TEMPLATE t.html
    TOLERANCE 9
    TOLERANCE 5
    MINSCALEDENOM 1
    MINSCALEDENOM 1000.5
    MAXSCALEDENOM 2e6
    METADATA ows_title Still wms_title 'Inland waters' wms_onlineresource x END
    METADATA 'ows_title' Last END
    PROCESSING ITEMS=depth
    PROCESSING 'ITEMS=kind, label,depth'
    PROCESSING CSV_X=lon
    PROCESSING 'CSV_Y=lat=y'
    PROCESSING 'csv_x=other'
    PROCESSING CLOSE_CONNECTION
    NAME rivers
    NAME \"Lakes\"
    TYPE POLYGON
    CLASS
      EXPRESSION x
      EXPRESSION {shallow,deep water, }
      MINSCALEDENOM 3
      MAXSCALEDENOM 4
      LABEL
        COLOR 1 1 1
        COLOR 12 34 56
        OUTLINECOLOR '#010203'
        OUTLINEWIDTH 4
        OUTLINEWIDTH 3
        PRIORITY 2
        PRIORITY 9
        POSITION ul
        POSITION 'Lc'
        BUFFER 5
        MINDISTANCE 60
        PARTIALS true
        FORCE FALSE
        SIZE large
        STYLE COLOR 200 201 202 PRIORITY 4 END
      END
      STYLE
        COLOR 1 2 3
        OUTLINECOLOR 4 5 6
        COLOR 10 20 30
        OUTLINECOLOR 13 23 33
        WIDTH 4
        SIZE 6
        WIDTH 3
        SIZE \"7\"
      END
      STYLE
      END
    END
    CLASS
      EXPRESSION '/deep/'
      LABEL MINDISTANCE -1 FORCE TRUE COLOR -1 2 3 OUTLINEWIDTH 9 END
      STYLE COLOR 4 5 6 COLOR '#0b2c4d' END
      STYLE COLOR 7 8 9 COLOR 40 -1 60 OUTLINECOLOR '#010a64' END
      STYLE OUTLINECOLOR 7 8 9 COLOR 70 80 90 OUTLINECOLOR 41 51 -1 END
    END
    FEATURE
      TEXT 'one'
      ITEMS 'none'
      ITEMS 'mud;;1.5;further'
      POINTS 1 2 3 4 5 6 END
      TEXT 'Deep water'
      POINTS 7 8 9.5 -10 -11 .125 END
    END
    FEATURE
      POINTS 13 14 END
      ITEMS sand
    END
  END
  layer
    type 'point'
    type 'line'
    name lakes
    class label end end
    feature points 15 16 17 18 end items a;b end
  end
END";

// What the map of WHOLE says, each line ended by `;`, and its name.
const SAID: &str = "\
map Waters http://b.example/map? -10000000 20500000 30000000 40000000 None 0;\
layer Lakes Inland waters Polygon true kind label [kind] [ label] [depth] lon lat=y true 5 1000500000 2000000000000;\
class in [shallow] [deep water] [ ] 3000000 4000000;\
label Some(Rgb { red: 12, green: 34, blue: 56 }) Some(Rgb { red: 1, green: 2, blue: 3 }) 9 LowerCentre 5 60 outline 3 true false;\
style 10 20 30, 13 23 33, 3 7 None;\
style none, none, 1 1 None;\
class is /deep/ - -;\
label None None 1 Centre 0 0 false true;\
style 11 44 77, none, 1 1 None;\
style none, 1 10 100, 1 1 None;\
style 70 80 90, none, 1 1 None;\
feature Deep water [mud] [] [1.5];\
part 1000000 2000000, 3000000 4000000, 5000000 6000000,;\
part 7000000 8000000, 9500000 -10000000, -11000000 125000,;\
feature - [sand] [] [];\
part 13000000 14000000,;\
layer lakes lakes Line true - - x y false 3 - -;\
class all - -;\
label Some(Rgb { red: 0, green: 0, blue: 0 }) None 1 Centre 0 0 false false;\
feature -;\
part 15000000 16000000, 17000000 18000000,;\
~WHOLE";

// What that map says.
fn said_whole(alloc: Global, _name: &str) -> Result<String, AllocError> {
    let text = said(alloc, WHOLE)?;
    text.replace(alloc, '\n', ";")
}

#[test]
fn a_mapfile_gives_its_map(rt: HostRuntime) -> Result<(), TableFault> {
    check_rows(rt.alloc(), SAID, '~', 1, said_whole)
}

// The title and the address of a service, and what stands in its MAP, or in its layer.
const TITLES: &str = "\
WMS http://localhost/wms?~
Nile http://localhost/wms?~NAME Nile
Ob http://localhost/wms?~NAME Nile WEB METADATA ows_title Ob END END
Po http://localhost/wms?~WEB METADATA wms_title Po ows_title Ob END END NAME Nile
 http://localhost/wms?~NAME Nile WEB METADATA wms_title '' END END
WMS http://o/~WEB METADATA ows_onlineresource http://o/ END END
WMS http://w/~WEB METADATA wms_onlineresource http://w/ END METADATA ows_onlineresource http://o/ END END
WMS http://localhost/wms?~LAYER NAME a TYPE POLYGON METADATA wms_title Don wms_onlineresource http://d/ END END
WMS http://localhost/wms?~LAYER NAME a TYPE POLYGON METADATA ows_title Don END END";

// The title and the address that stand in what a map says.
fn title_of(said: &str) -> Option<&str> {
    let (title, _) = said.strip_prefix("map ")?.split_once(" -180000000 ")?;
    Some(title)
}

// The title and the address of the map of a MAP.
fn title_of_map(alloc: Global, keywords: &str) -> Result<String, AllocError> {
    let source = format!(in alloc; "MAP {keywords} END")?;
    let text = said(alloc, source.as_str())?;
    match title_of(text.as_str()) {
        Some(title) => String::from_str(alloc, title),
        None => String::from_str(alloc, "malformed"),
    }
}

#[test]
fn services_have_their_titles_and_addresses(rt: HostRuntime) -> Result<(), TableFault> {
    check_rows(rt.alloc(), TITLES, '~', 9, title_of_map)
}

// Whether a map offers PNG and web mercator, and what stands in its MAP.
const OFFERS: &str = "\
false false~NAME a
true false~CONFIG WMS_FORMATS 'image/png'
false true~CONFIG 'WMS_CRS' EPSG:3857
true true~CONFIG WMS_CRS ' EPSG:3857' CONFIG WMS_FORMATS 'image/x-portable-pixmap  image/png'
false false~CONFIG WMS_FORMATS image/png CONFIG WMS_FORMATS '' CONFIG WMS_CRS EPSG:3857 CONFIG WMS_CRS ' '
false true~CONFIG WMS_FORMATS image/x-portable-pixmap CONFIG WMS_CRS '' CONFIG WMS_CRS 'EPSG:3857 EPSG:3857'
false false~CONFIG wms_formats image/png CONFIG wms_crs EPSG:3857 WEB METADATA WMS_CRS EPSG:3857 WMS_FORMATS image/png END END";

// What the map of a MAP offers.
fn offers_of_map(alloc: Global, keywords: &str) -> Result<String, AllocError> {
    let source = format!(in alloc; "MAP {keywords} END")?;
    match parse(alloc, source.as_bytes(), &Files::new(alloc)) {
        Ok(map) => format!(in alloc; "{} {}", map.get().png, map.get().mercator),
        Err(fault) => fault_text(alloc, fault),
    }
}

#[test]
fn maps_offer_what_their_last_configs_say(rt: HostRuntime) -> Result<(), TableFault> {
    check_rows(rt.alloc(), OFFERS, '~', 7, offers_of_map)
}

// How many times as fine the pictures are of which a map's pictures are the means, and what stands in its MAP.
const SMOOTHINGS: &str = "\
1~NAME a
1~CONFIG WMS_SMOOTHING 1
2~CONFIG 'WMS_SMOOTHING' 2
3~CONFIG WMS_SMOOTHING '3'
4~CONFIG WMS_SMOOTHING 2 CONFIG WMS_SMOOTHING 4
1~CONFIG WMS_SMOOTHING 3 CONFIG WMS_SMOOTHING 1
1~CONFIG wms_smoothing 3 WEB METADATA WMS_SMOOTHING 2 END END";

// The smoothing of the map of a MAP.
fn smoothing_of_map(alloc: Global, keywords: &str) -> Result<String, AllocError> {
    let source = format!(in alloc; "MAP {keywords} END")?;
    match parse(alloc, source.as_bytes(), &Files::new(alloc)) {
        Ok(map) => format!(in alloc; "{}", map.get().smoothing.times()),
        Err(fault) => fault_text(alloc, fault),
    }
}

#[test]
fn maps_are_as_smooth_as_their_last_config_says(rt: HostRuntime) -> Result<(), TableFault> {
    check_rows(rt.alloc(), SMOOTHINGS, '~', 7, smoothing_of_map)
}

// A mapfile in pieces. A row is the result where the source ends within a token of the piece, the result
// where it ends after a blank or with the piece, the text before the piece, and the piece. `|` stands for
// the end of a line. A piece without an end within a token has the same twice.
const PIECES: &str = "\
1 UnknownWord;1 MissingEnd~~MAP
2 UnknownWord;2 MissingEnd~MAP~|  LAYER
3 UnknownWord;3 MissingEnd~MAP|  LAYER~|    NAME
3 Lex(OpenString);3 MissingEnd~MAP|  LAYER|    NAME~ \"a\"
4 UnknownWord;4 MissingEnd~MAP|  LAYER|    NAME \"a\"~|    TYPE
4 WrongValue;4 MissingEnd~MAP|  LAYER|    NAME \"a\"|    TYPE~ POLYGON
5 UnknownWord;5 MissingEnd~MAP|  LAYER|    NAME \"a\"|    TYPE POLYGON~|    CLASS
6 UnknownWord;6 MissingEnd~MAP|  LAYER|    NAME \"a\"|    TYPE POLYGON|    CLASS~|      STYLE
7 UnknownWord;7 MissingEnd~MAP|  LAYER|    NAME \"a\"|    TYPE POLYGON|    CLASS|      STYLE~|        COLOR
# A part of a number is a number.
7 MissingEnd;7 MissingEnd~MAP|  LAYER|    NAME \"a\"|    TYPE POLYGON|    CLASS|      STYLE|        COLOR~ 10
7 MissingEnd;7 MissingEnd~MAP|  LAYER|    NAME \"a\"|    TYPE POLYGON|    CLASS|      STYLE|        COLOR 10~ 20
7 MissingEnd;7 MissingEnd~MAP|  LAYER|    NAME \"a\"|    TYPE POLYGON|    CLASS|      STYLE|        COLOR 10 20~ 30
8 UnknownWord;8 MissingEnd~MAP|  LAYER|    NAME \"a\"|    TYPE POLYGON|    CLASS|      STYLE|        COLOR 10 20 30~|      END
9 UnknownWord;9 MissingEnd~MAP|  LAYER|    NAME \"a\"|    TYPE POLYGON|    CLASS|      STYLE|        COLOR 10 20 30|      END~|    END
10 UnknownWord;10 MissingEnd~MAP|  LAYER|    NAME \"a\"|    TYPE POLYGON|    CLASS|      STYLE|        COLOR 10 20 30|      END|    END~|    FEATURE
11 UnknownWord;11 MissingEnd~MAP|  LAYER|    NAME \"a\"|    TYPE POLYGON|    CLASS|      STYLE|        COLOR 10 20 30|      END|    END|    FEATURE~|      POINTS
11 MissingEnd;11 MissingEnd~MAP|  LAYER|    NAME \"a\"|    TYPE POLYGON|    CLASS|      STYLE|        COLOR 10 20 30|      END|    END|    FEATURE|      POINTS~ 1
11 MissingEnd;11 MissingEnd~MAP|  LAYER|    NAME \"a\"|    TYPE POLYGON|    CLASS|      STYLE|        COLOR 10 20 30|      END|    END|    FEATURE|      POINTS 1~ 2 3 4 5 6 7 8
# Where numbers are read, a part of END is none.
11 WrongValue;11 MissingEnd~MAP|  LAYER|    NAME \"a\"|    TYPE POLYGON|    CLASS|      STYLE|        COLOR 10 20 30|      END|    END|    FEATURE|      POINTS 1 2 3 4 5 6 7 8~ END
12 UnknownWord;12 MissingEnd~MAP|  LAYER|    NAME \"a\"|    TYPE POLYGON|    CLASS|      STYLE|        COLOR 10 20 30|      END|    END|    FEATURE|      POINTS 1 2 3 4 5 6 7 8 END~|    END
13 UnknownWord;13 MissingEnd~MAP|  LAYER|    NAME \"a\"|    TYPE POLYGON|    CLASS|      STYLE|        COLOR 10 20 30|      END|    END|    FEATURE|      POINTS 1 2 3 4 5 6 7 8 END|    END~|  END
14 MissingEnd;14 MissingEnd~MAP|  LAYER|    NAME \"a\"|    TYPE POLYGON|    CLASS|      STYLE|        COLOR 10 20 30|      END|    END|    FEATURE|      POINTS 1 2 3 4 5 6 7 8 END|    END|  END~|
14 UnknownWord;1 1 1 1 4~MAP|  LAYER|    NAME \"a\"|    TYPE POLYGON|    CLASS|      STYLE|        COLOR 10 20 30|      END|    END|    FEATURE|      POINTS 1 2 3 4 5 6 7 8 END|    END|  END|~END
1 1 1 1 4;1 1 1 1 4~MAP|  LAYER|    NAME \"a\"|    TYPE POLYGON|    CLASS|      STYLE|        COLOR 10 20 30|      END|    END|    FEATURE|      POINTS 1 2 3 4 5 6 7 8 END|    END|  END|END~|";

// Adds the result for a source, if it differs from the one before.
fn add_result(out: &mut String, added: &str) -> Result<(), AllocError> {
    if out.as_str() != added {
        if !out.is_empty() {
            out.push_str(" or ")?;
        }
        out.push_str(added)?;
    }
    Ok(())
}

// The result where a source ends within a token of its last piece, or at its other ends.
fn results_at_ends(
    alloc: Global,
    prefix: &str,
    piece: &str,
    is_within: bool,
) -> Result<String, AllocError> {
    let mut source = prefix.replace(alloc, '|', "\n")?;
    let mut out = String::new(alloc);
    let mut left = piece.len();
    for letter in piece.chars() {
        left = left.saturating_sub(1);
        source.push(if letter == '|' { '\n' } else { letter })?;
        let is_cut = left > 0 && letter != ' ' && letter != '|';
        if is_cut == is_within {
            let result = result_of(alloc, source.as_str())?;
            add_result(&mut out, result.as_str())?;
        }
    }
    Ok(out)
}

// The results where a source ends in a piece.
fn results_of_piece(alloc: Global, row: &str) -> Result<String, AllocError> {
    let (prefix, piece) = row.split_once('~').unwrap_or((row, ""));
    let last = results_at_ends(alloc, prefix, piece, false)?;
    let within = results_at_ends(alloc, prefix, piece, true)?;
    if within.is_empty() {
        format!(in alloc; "{last};{last}")
    } else {
        format!(in alloc; "{within};{last}")
    }
}

#[test]
fn a_cut_mapfile_has_its_fault_where_it_ends(rt: HostRuntime) -> Result<(), TableFault> {
    check_rows(rt.alloc(), PIECES, '~', 24, results_of_piece)
}
