use mapwords::Block;
use std::alloc::{AllocError, Global};

// The keywords of MapServer in a block that aren't read there, with a space after each.
fn keywords_of(block: Block) -> &'static str {
    match block {
        Block::Map => {
            "DATAPATTERN DEFRESOLUTION IMAGEQUALITY INTERLACE SYMBOLSET TEMPLATEPATTERN TRANSPARENT "
        }
        Block::Web => {
            "BROWSEFORMAT LEGENDFORMAT MAXSCALE MAXTEMPLATE MINSCALE MINTEMPLATE QUERYFORMAT TEMPPATH "
        }
        Block::Layer => {
            "BINDVALS CLASSGROUP CLUSTER COMPOSITE CONNECTION CONNECTIONOPTIONS CONNECTIONTYPE ENCODING FILTER FILTERITEM GEOMTRANSFORM GRID IDENTIFY JOIN LABELANGLEITEM LABELMAXSCALE LABELMINSCALE LABELREQUIRES LABELSIZEITEM MASK MAXFEATURES MAXGEOWIDTH MAXSCALE MINFEATURESIZE MINGEOWIDTH MINSCALE OFFSITE OPACITY PLUGIN POSTLABELCACHE REQUIRES SCALETOKEN SIZEUNITS STYLEITEM SYMBOLSCALE SYMBOLSCALEDENOM TILEFILTER TILEFILTERITEM TILEINDEX TILEITEM TILESRS TRANSFORM TRANSPARENCY UTFDATA UTFITEM "
        }
        Block::Class => {
            "BACKGROUNDCOLOR COLOR DEBUG FALLBACK KEYIMAGE LEADER MAXSCALE MAXSIZE METADATA MINFEATURESIZE MINSCALE MINSIZE OUTLINECOLOR SIZE SYMBOL TEXT VALIDATION "
        }
        Block::Style => {
            "ANGLE ANGLEITEM BACKGROUNDCOLOR COLORRANGE DATARANGE GAP GEOMTRANSFORM INITIALGAP LINECAP LINEJOIN LINEJOINMAXSIZE MAXSCALEDENOM MINSCALEDENOM OFFSET OPACITY OUTLINEWIDTH PATTERN POLAROFFSET RANGEITEM SIZEITEM "
        }
        Block::Label => {
            "ALIGN ANGLE BACKGROUNDCOLOR BACKGROUNDSHADOWCOLOR BACKGROUNDSHADOWSIZE EXPRESSION MAXLENGTH MAXOVERLAPANGLE MAXSCALEDENOM MINLENGTH MINSCALEDENOM POLAROFFSET SHADOWCOLOR SHADOWSIZE TEXT WRAP "
        }
        Block::Symbol => {
            "ANTIALIAS CHARACTER FILLED FONT GAP LINECAP LINEJOIN LINEJOINMAXSIZE PATTERN POINTS STYLE "
        }
        Block::Feature => "WKT ",
        _ => "",
    }
}

// What is written here instead of a keyword of MapServer, which is given in capitals, or where it is read; nothing where
// there is no such thing.
fn advice_on(block: Block, keyword: &str) -> &'static str {
    match (block, keyword) {
        (_, "INCLUDE") => ": write into the mapfile what that file has",
        (_, "SYMBOLSET") => ": write SYMBOL blocks into the mapfile",
        (_, "CONNECTION" | "CONNECTIONTYPE" | "TILEINDEX") => {
            ": write FEATURE blocks into the LAYER, or name a file that ends in .csv by DATA"
        }
        (_, "FILTER" | "FILTERITEM") => ": write an EXPRESSION into each CLASS",
        (_, "MINSCALE") => ": write MINSCALEDENOM",
        (_, "MAXSCALE") => ": write MAXSCALEDENOM",
        (_, "WKT") => ": write POINTS blocks",
        (Block::Class | Block::Label, "TEXT") => ": name an item by LABELITEM in the LAYER",
        (Block::Class, "COLOR" | "OUTLINECOLOR" | "SIZE" | "SYMBOL") => {
            ": write it into a STYLE of the CLASS"
        }
        (Block::Symbol, "POINTS" | "FILLED") => ", but for a disc after a WMS_SMOOTHING above 1",
        _ => "",
    }
}

/// What follows the message on a keyword of MapServer that isn't read in a block: what is written instead, after
/// a colon, where it is read, or nothing. There is none where MapServer has no such keyword there.
pub fn advice(alloc: Global, block: Block, word: &str) -> Result<Option<&'static str>, AllocError> {
    let keyword = word.to_ascii_uppercase(alloc)?;
    let keyword = keyword.as_str();
    if keyword == "INCLUDE" || keywords_of(block).split(' ').any(|known| known == keyword) {
        return Ok(Some(advice_on(block, keyword)));
    }
    Ok(None)
}
