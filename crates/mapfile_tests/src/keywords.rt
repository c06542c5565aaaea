use mapfaults::{Finding, explain};
use mapparse::ParseKind;
use std::alloc::{AllocError, Global};
use test_tables::{TableFault, check_rows};

// All keywords, in the order of the alphabet.
const SPELLINGS: [&str; 81] = [
    "ANCHORPOINT",
    "ANGLE",
    "ANTIALIAS",
    "BUFFER",
    "CLASS",
    "CLASSITEM",
    "COLOR",
    "CONFIG",
    "DATA",
    "DEBUG",
    "DUMP",
    "EMPTY",
    "ENCODING",
    "END",
    "ERROR",
    "EXPRESSION",
    "EXTENT",
    "FILLED",
    "FEATURE",
    "FONT",
    "FONTSET",
    "FOOTER",
    "FORCE",
    "GROUP",
    "HEADER",
    "IMAGE",
    "IMAGECOLOR",
    "IMAGEPATH",
    "IMAGETYPE",
    "IMAGEURL",
    "ITEMS",
    "LABEL",
    "LABELCACHE",
    "LABELITEM",
    "LABELMAXSCALEDENOM",
    "LABELMINSCALEDENOM",
    "LAYER",
    "LEGEND",
    "LOG",
    "MAP",
    "MAXSCALEDENOM",
    "MAXSIZE",
    "MAXWIDTH",
    "METADATA",
    "MINDISTANCE",
    "MINFEATURESIZE",
    "MINSCALEDENOM",
    "MINSIZE",
    "MINWIDTH",
    "NAME",
    "OFFSET",
    "OUTLINECOLOR",
    "OUTLINEWIDTH",
    "OUTPUTFORMAT",
    "PARTIALS",
    "POINTS",
    "POSITION",
    "PRIORITY",
    "PROCESSING",
    "PROJECTION",
    "QUERYMAP",
    "REFERENCE",
    "REPEATDISTANCE",
    "RESOLUTION",
    "SCALEBAR",
    "SHAPEPATH",
    "SIZE",
    "STATUS",
    "STYLE",
    "SYMBOL",
    "TEMPLATE",
    "TEXT",
    "TITLE",
    "TOLERANCE",
    "TOLERANCEUNITS",
    "TRANSPARENT",
    "TYPE",
    "UNITS",
    "VALIDATION",
    "WEB",
    "WIDTH",
];

// Whether the word on the second line of a source is no keyword there: it is refused, or changes nothing.
fn is_idle(alloc: Global, source: &str) -> Result<bool, AllocError> {
    match explain(alloc, source.as_bytes()) {
        Finding::Sound => Ok(true),
        Finding::Faulty(fault) => {
            let refused = matches!(fault.kind, ParseKind::UnknownWord | ParseKind::WrongValue);
            Ok(refused && fault.line == 2)
        }
        Finding::NoMemory => Err(AllocError),
    }
}

// Adds a word to others, if it is a keyword in place of `%` in a source.
fn add_keyword(
    alloc: Global,
    found: &mut String,
    source: &str,
    word: &str,
) -> Result<(), AllocError> {
    let source = source.replace(alloc, '%', word)?;
    if is_idle(alloc, source.as_str())? {
        return Ok(());
    }
    if !found.is_empty() {
        found.push(' ')?;
    }
    found.push_str(word)
}

// The keywords in place of `%` in a source in which `~` stands for the end of a line.
fn keywords_at(alloc: Global, row: &str) -> Result<String, AllocError> {
    let source = row.replace(alloc, '~', "\n")?;
    let mut found = String::new(alloc);
    for word in SPELLINGS {
        add_keyword(alloc, &mut found, source.as_str(), word)?;
    }
    Ok(found)
}

// The keywords of each block, and a source in which a word stands in that block. A word that is no keyword
// is refused, or the source is sound with it.
const KEYWORDS: &str = "\
ANGLE CONFIG DEBUG END EXTENT FONTSET IMAGECOLOR IMAGETYPE LAYER LEGEND MAXSIZE NAME OUTPUTFORMAT PROJECTION QUERYMAP REFERENCE RESOLUTION SCALEBAR SHAPEPATH SIZE STATUS SYMBOL UNITS WEB|MAP~%~END
EMPTY END ERROR FOOTER HEADER IMAGEPATH IMAGEURL LOG MAXSCALEDENOM METADATA MINSCALEDENOM TEMPLATE VALIDATION|MAP WEB~%
ANCHORPOINT END IMAGE NAME TRANSPARENT TYPE|MAP SYMBOL~%
ANCHORPOINT END FILLED IMAGE NAME POINTS TRANSPARENT TYPE|MAP CONFIG WMS_SMOOTHING 2 SYMBOL~%
CLASS CLASSITEM DATA DEBUG DUMP END EXTENT FEATURE FOOTER GROUP HEADER LABELCACHE LABELITEM LABELMAXSCALEDENOM LABELMINSCALEDENOM MAXSCALEDENOM METADATA MINSCALEDENOM NAME PROCESSING PROJECTION STATUS TEMPLATE TOLERANCE TOLERANCEUNITS TYPE UNITS VALIDATION|MAP LAYER~%
END EXPRESSION GROUP LABEL MAXSCALEDENOM MINSCALEDENOM NAME STATUS STYLE TEMPLATE TITLE|MAP LAYER CLASS~%
ANTIALIAS COLOR END MAXSIZE MAXWIDTH MINSIZE MINWIDTH OUTLINECOLOR SIZE SYMBOL WIDTH|MAP LAYER CLASS STYLE~%
ANTIALIAS BUFFER COLOR ENCODING END FONT FORCE MAXSIZE MINDISTANCE MINFEATURESIZE MINSIZE OFFSET OUTLINECOLOR OUTLINEWIDTH PARTIALS POSITION PRIORITY REPEATDISTANCE SIZE STYLE TYPE|MAP LAYER CLASS LABEL~%
END ITEMS POINTS TEXT|MAP LAYER FEATURE~%
END|MAP LAYER FEATURE POINTS~%
END|MAP WEB METADATA~%~a~END END END
END|MAP LAYER NAME a TYPE LINE METADATA~%~a~END END END
END|MAP WEB VALIDATION~%~a~END END END
END|MAP PROJECTION~%~END END
END LABEL METADATA VALIDATION|MAP LEGEND~%~END END
END LABEL METADATA STYLE VALIDATION|MAP LEGEND LABEL~%~END END END";

#[test]
fn each_block_knows_its_keywords_alone(rt: HostRuntime) -> Result<(), TableFault> {
    check_rows(rt.alloc(), KEYWORDS, '|', 16, keywords_at)
}
