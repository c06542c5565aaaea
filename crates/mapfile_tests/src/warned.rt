use crate::results::add_file;
use mapdefs::Map;
use mapparse::{Files, parse};
use mapwarnings::warning_lines;
use std::alloc::{AllocError, Global};
use std::str;
use test_tables::{TableFault, check_rows};

// A font without glyphs.
const FONT: &str = "STARTFONT 2.1\nFONTBOUNDINGBOX 5 7 0 0\nCHARS 0\nENDFONT\n";

/// The warnings on a map, with `~` for the end of a line.
pub fn warnings_on(alloc: Global, map: &Map) -> Result<String, AllocError> {
    let lines = warning_lines(alloc, "a.map", map)?;
    let text = str::from_utf8(lines.as_slice()).unwrap_or("no text");
    text.replace(alloc, '\n', "~")
}

// The warnings on the map of a source in which `^` stands for a form feed, `$` for U+FFFE, `%` for U+FFFF and `;` for
// U+FFFD.
fn warnings_of_row(alloc: Global, row: &str) -> Result<String, AllocError> {
    let source = row.replace(alloc, '^', "\u{C}")?;
    let source = source.replace(alloc, '$', "\u{FFFE}")?;
    let source = source.replace(alloc, '%', "\u{FFFF}")?;
    let source = source.replace(alloc, ';', "\u{FFFD}")?;
    let mut files = Files::new(alloc);
    add_file(&mut files, alloc, "f.bdf", FONT.as_bytes())?;
    match parse(alloc, source.as_str().as_bytes(), &files) {
        Ok(map) => warnings_on(alloc, &map),
        Err(error) => format!(in alloc; "{error}"),
    }
}

// What is warned of, and the mapfile.
const ROWS: &str = "\
# no address, or the same
a.map: warning: the service has no wms_onlineresource, and http://localhost/wms? has no port~|MAP END
a.map: warning: the service has no wms_onlineresource, and http://localhost/wms? has no port~|MAP WEB METADATA ows_onlineresource http://localhost/wms? END END END
|MAP WEB METADATA wms_onlineresource http://localhost/wms?a END END END
|MAP WEB METADATA wms_onlineresource http://localhost/wms END END END
# characters that XML forbids, and others
|MAP NAME 'a;\té' WEB METADATA wms_onlineresource b END END END
a.map: warning: the service has a title with a character that XML forbids~|MAP NAME 'a^' WEB METADATA wms_onlineresource b END END END
a.map: warning: the service has a title with a character that XML forbids~|MAP NAME '$a' WEB METADATA wms_onlineresource b END END END
a.map: warning: the service has a title with a character that XML forbids~|MAP NAME 'a%' WEB METADATA wms_onlineresource b END END END
a.map: warning: the service has an address with a character that XML forbids~|MAP WEB METADATA wms_onlineresource 'b^c' END END END
# layers
|MAP WEB METADATA wms_onlineresource b END END LAYER NAME a TYPE LINE METADATA wms_title 'a,b' END END END
a.map: warning: LAYER 2 has an empty NAME, so that LAYERS can't ask for it~|MAP WEB METADATA wms_onlineresource b END END LAYER NAME a TYPE LINE END LAYER NAME '' TYPE LINE END END
a.map: warning: LAYER 2 has a NAME with a comma, so that LAYERS can't ask for it~|MAP WEB METADATA wms_onlineresource b END END LAYER NAME a TYPE LINE END LAYER NAME a,b TYPE LINE END END
a.map: warning: LAYER 1 has a title with a character that XML forbids~|MAP WEB METADATA wms_onlineresource b END END LAYER NAME a TYPE LINE METADATA wms_title 'a^b' END END END
a.map: warning: LAYER 1 has a NAME with a character that XML forbids~|MAP WEB METADATA wms_onlineresource b END END LAYER NAME 'a^b' TYPE LINE METADATA wms_title 'a' END END END
# items that a layer hasn't, and others
a.map: warning: LAYER 1 has a LABELITEM that is none of its items~|MAP WEB METADATA wms_onlineresource b END END LAYER NAME a TYPE LINE PROCESSING ITEMS=c,d LABELITEM e CLASSITEM D END END
a.map: warning: LAYER 2 has a CLASSITEM that is none of its items~|MAP WEB METADATA wms_onlineresource b END END LAYER NAME a TYPE LINE PROCESSING ITEMS=c,d LABELITEM C END LAYER NAME b TYPE LINE CLASSITEM c END END
a.map: warning: LAYER 1 has an EXPRESSION on an item that is none of its items~|MAP WEB METADATA wms_onlineresource b END END LAYER NAME a TYPE LINE PROCESSING ITEMS=c CLASS EXPRESSION ([C] > 1) STYLE END END CLASS EXPRESSION (1 = 2 OR NOT ('[c]' = 'x' AND 'y' IN '[d]')) STYLE END END END END
|MAP WEB METADATA wms_onlineresource b END END LAYER NAME a TYPE LINE PROCESSING ITEMS=c CLASS EXPRESSION {c,d} STYLE END END CLASS EXPRESSION '[d]' STYLE END END END END
# what is never drawn
a.map: warning: LAYER 1 has features and no CLASS~|MAP WEB METADATA wms_onlineresource b END END LAYER NAME a TYPE POINT FEATURE POINTS 1 2 END END END LAYER NAME b TYPE POINT END END
a.map: warning: LAYER 2 has a CLASS without STYLE and LABEL~|MAP WEB METADATA wms_onlineresource b END END LAYER NAME a TYPE LINE CLASS STYLE END END END LAYER NAME b TYPE LINE CLASS STYLE END END CLASS END END END
a.map: warning: LAYER 1 has a LABEL, and the map has no LABELFONT~|MAP WEB METADATA wms_onlineresource b END END LAYER NAME a TYPE LINE CLASS STYLE END END CLASS LABEL END END END END
# fonts that labels name, and don't have
a.map: warning: LAYER 1 has a FONT that is none of the map's fonts~|MAP WEB METADATA wms_onlineresource b END END CONFIG LABELFONT f.bdf LAYER NAME a TYPE LINE CLASS LABEL FONT n END END CLASS LABEL END END END END
a.map: warning: LAYER 2 has a LABEL, and the map has no LABELFONT~a.map: warning: LAYER 2 has a FONT that is none of the map's fonts~|MAP WEB METADATA wms_onlineresource b END END CONFIG 'LABELFONT m' f.bdf LAYER NAME a TYPE LINE CLASS LABEL FONT m END END END LAYER NAME b TYPE LINE CLASS LABEL FONT M END END END END
a.map: warning: LAYER 1 has a LABEL, and the map has no LABELFONT~|MAP WEB METADATA wms_onlineresource b END END CONFIG 'LABELFONT m' f.bdf LAYER NAME a TYPE LINE CLASS LABEL END END END END
# an extent on the borders of the world, and beyond each
|MAP EXTENT -180 -90 180 90 WEB METADATA wms_onlineresource b END END END
a.map: warning: the service has an EXTENT beyond 180 degrees of longitude or 90 of latitude~|MAP EXTENT -180.000001 -90 180 90 WEB METADATA wms_onlineresource b END END END
a.map: warning: the service has an EXTENT beyond 180 degrees of longitude or 90 of latitude~|MAP EXTENT -180 -90.000001 180 90 WEB METADATA wms_onlineresource b END END END
a.map: warning: the service has an EXTENT beyond 180 degrees of longitude or 90 of latitude~|MAP EXTENT -180 -90 180.000001 90 WEB METADATA wms_onlineresource b END END END
a.map: warning: the service has an EXTENT beyond 180 degrees of longitude or 90 of latitude~|MAP EXTENT -180 -90 180 90.000001 WEB METADATA wms_onlineresource b END END END
# several, in order
a.map: warning: the service has no wms_onlineresource, and http://localhost/wms? has no port~a.map: warning: the service has a title with a character that XML forbids~a.map: warning: LAYER 1 has a NAME with a comma, so that LAYERS can't ask for it~a.map: warning: LAYER 1 has a NAME with a character that XML forbids~a.map: warning: LAYER 1 has a title with a character that XML forbids~a.map: warning: LAYER 3 has a NAME with a comma, so that LAYERS can't ask for it~|MAP NAME '^' LAYER NAME ',^' TYPE LINE END LAYER NAME b TYPE LINE END LAYER NAME ',' TYPE LINE END END";

#[test]
fn maps_have_worked_warnings(rt: HostRuntime) -> Result<(), TableFault> {
    check_rows(rt.alloc(), ROWS, '|', 30, warnings_of_row)
}
