use crate::results::add_file;
use crate::warned::warnings_on;
use mapparse::{Files, parse};
use std::alloc::{AllocError, Global};
use test_tables::{TableFault, check_rows, numbers};

// A font that is so many pixels high, with one letter.
fn font_of(alloc: Global, height: i64) -> Result<String, AllocError> {
    format!(in alloc;
        "STARTFONT 2.1\nFONTBOUNDINGBOX 5 {height} 0 0\nCHARS 1\nSTARTCHAR c\nENCODING 65\nDWIDTH 3 0\nBBX 2 1 0 0\nBITMAP\nC0\nENDCHAR\nENDFONT\n"
    )
}

// A pixmap of those sides.
fn pixmap_of(alloc: Global, width: i64, height: i64) -> Result<String, AllocError> {
    let mut text = format!(in alloc; "P6 {width} {height} 255\n")?;
    for _ in 0..width.clamp(0, 64) {
        for _ in 0..height.clamp(0, 64) {
            text.push_str("abc")?;
        }
    }
    Ok(text)
}

// The files of a font and of two pixmaps, by a factor, the font's height and the pixmaps' sides.
fn files_of(alloc: Global, sizes: [i64; 6]) -> Result<Files, AllocError> {
    let [
        _,
        height,
        first_width,
        first_height,
        second_width,
        second_height,
    ] = sizes;
    let font = font_of(alloc, height)?;
    let first = pixmap_of(alloc, first_width, first_height)?;
    let second = pixmap_of(alloc, second_width, second_height)?;
    let mut files = Files::new(alloc);
    add_file(&mut files, alloc, "f.bdf", font.as_bytes())?;
    add_file(&mut files, alloc, "a.ppm", first.as_bytes())?;
    add_file(&mut files, alloc, "b.ppm", second.as_bytes())?;
    Ok(files)
}

// A mapfile of a factor, with a font, two symbols, and a layer that has no name.
fn source_of(alloc: Global, factor: i64) -> Result<String, AllocError> {
    format!(in alloc;
        "MAP CONFIG WMS_SMOOTHING {factor} CONFIG LABELFONT f.bdf SYMBOL NAME a TYPE PIXMAP IMAGE a.ppm END SYMBOL NAME b TYPE PIXMAP IMAGE b.ppm END WEB METADATA wms_onlineresource b END END LAYER NAME '' TYPE LINE END END"
    )
}

// The warnings on the map of a factor with the files of those sizes.
fn warnings_of_row(alloc: Global, row: &str) -> Result<String, AllocError> {
    let Some(sizes) = numbers::<6>(row, ' ') else {
        return format!(in alloc; "malformed");
    };
    let files = files_of(alloc, sizes)?;
    let [factor, _, _, _, _, _] = sizes;
    let source = source_of(alloc, factor)?;
    match parse(alloc, source.as_bytes(), &files) {
        Ok(map) => warnings_on(alloc, &map),
        Err(error) => format!(in alloc; "{error}"),
    }
}

// What is warned of, and the factor, the height of the font, and the sides of the two symbols.
const ROWS: &str = "\
# not smoothed
a.map: warning: LAYER 1 has an empty NAME, so that LAYERS can't ask for it~|1 1 1 1 1 1
# just large enough, and a pixel less
a.map: warning: LAYER 1 has an empty NAME, so that LAYERS can't ask for it~|2 16 8 1 2 8
a.map: warning: LAYER 1 has an empty NAME, so that LAYERS can't ask for it~a.map: warning: LABELFONT is 15 pixels high, which WMS_SMOOTHING 2 shows as less than 8: bring one of 16 or more~|2 15 8 8 9 3
a.map: warning: LAYER 1 has an empty NAME, so that LAYERS can't ask for it~a.map: warning: SYMBOL 1 is 7 pixels long, which WMS_SMOOTHING 2 shows as less than 4: bring one of 8 or more~|2 17 7 6 1 9
a.map: warning: LAYER 1 has an empty NAME, so that LAYERS can't ask for it~a.map: warning: LABELFONT is 23 pixels high, which WMS_SMOOTHING 3 shows as less than 8: bring one of 24 or more~a.map: warning: SYMBOL 2 is 11 pixels long, which WMS_SMOOTHING 3 shows as less than 4: bring one of 12 or more~|3 23 12 5 2 11
a.map: warning: LAYER 1 has an empty NAME, so that LAYERS can't ask for it~|4 32 16 1 15 17
a.map: warning: LAYER 1 has an empty NAME, so that LAYERS can't ask for it~a.map: warning: LABELFONT is 13 pixels high, which WMS_SMOOTHING 4 shows as less than 8: bring one of 32 or more~a.map: warning: SYMBOL 1 is 5 pixels long, which WMS_SMOOTHING 4 shows as less than 4: bring one of 16 or more~a.map: warning: SYMBOL 2 is 15 pixels long, which WMS_SMOOTHING 4 shows as less than 4: bring one of 16 or more~|4 13 3 5 15 14";

// The warnings on a map of factor 3 with two fonts of these heights.
fn warnings_of_two(alloc: Global, row: &str) -> Result<String, AllocError> {
    let Some(heights) = numbers::<2>(row, ' ') else {
        return format!(in alloc; "malformed");
    };
    let [first_height, second_height] = heights;
    let first = font_of(alloc, first_height)?;
    let second = font_of(alloc, second_height)?;
    let mut files = Files::new(alloc);
    add_file(&mut files, alloc, "f.bdf", first.as_bytes())?;
    add_file(&mut files, alloc, "g.bdf", second.as_bytes())?;
    let source =
        "MAP CONFIG WMS_SMOOTHING 3 CONFIG 'LABELFONT n' f.bdf CONFIG LABELFONT g.bdf WEB METADATA wms_onlineresource b END END END";
    match parse(alloc, source.as_bytes(), &files) {
        Ok(map) => warnings_on(alloc, &map),
        Err(error) => format!(in alloc; "{error}"),
    }
}

// Of several fonts each is named by its number.
const TWO_FONTS: &str = "\
|24 25
a.map: warning: LABELFONT 1 is 23 pixels high, which WMS_SMOOTHING 3 shows as less than 8: bring one of 24 or more~|23 24
a.map: warning: LABELFONT 2 is 22 pixels high, which WMS_SMOOTHING 3 shows as less than 8: bring one of 24 or more~|24 22
a.map: warning: LABELFONT 1 is 9 pixels high, which WMS_SMOOTHING 3 shows as less than 8: bring one of 24 or more~a.map: warning: LABELFONT 2 is 8 pixels high, which WMS_SMOOTHING 3 shows as less than 8: bring one of 24 or more~|9 8";

#[test]
fn small_fonts_have_worked_warnings(rt: HostRuntime) -> Result<(), TableFault> {
    check_rows(rt.alloc(), TWO_FONTS, '|', 4, warnings_of_two)
}

#[test]
fn small_bitmaps_have_worked_warnings(rt: HostRuntime) -> Result<(), TableFault> {
    check_rows(rt.alloc(), ROWS, '|', 7, warnings_of_row)
}
