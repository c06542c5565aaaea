use super::{TINY, edited, fault_text};
use bdffont::{MAX_CHARACTERS, extent, ink, is_short, read};
use geom::Pixel;
use mapdefs::{Font, Glyph};
use std::alloc::{AllocError, Global};
use test_tables::{TableFault, check_rows};

// The extent of a short text.
fn extent_of(font: &Font, text: &str) -> (u32, u32) {
    if is_short(text) {
        extent(font, text)
    } else {
        (0, 0)
    }
}

// Whether a short text has ink in a column and a row.
fn has_ink(font: &Font, text: &str, at: Pixel, i: i64, j: i64) -> bool {
    is_short(text) && ink(font, text, at, i, j)
}

// Draws columns -1 to 5 of rows -1 to 2 of a text at a pixel, the rows parted by `/`.
fn drawn(alloc: Global, font: &Font, text: &str, at: Pixel) -> Result<String, AllocError> {
    let mut picture = String::new(alloc);
    for j in -1..3 {
        if j > -1 {
            picture.push('/')?;
        }
        for i in -1..6 {
            let is_inked = has_ink(font, text, at, i, j);
            picture.push(if is_inked { '#' } else { '.' })?;
        }
    }
    Ok(picture)
}

// Columns -1 to 5 of rows -1 to 2, the number of a line and what stands there, a text, and the column and the
// row of its upper left pixel.
const PICTURES: &str = "\
......./.##..../.#...../.......|1|STARTFONT|A|0 0
......./.##.##./.#..#../.......|1|STARTFONT|AA|0 0
......./......./......./.......|1|STARTFONT|B|0 0
......./.##..../.#...../.......|1|STARTFONT|BA|0 0
##...../#....../......./.......|1|STARTFONT|A|-1 -1
......./......./...##../...#...|1|STARTFONT|A|2 1
......./......./......./.......|1|STARTFONT|A|-3 0
......./.###.../.##..../.......|9|DWIDTH 1 0|AA|0 0
......./..##.../..#..../.......|9|DWIDTH 0 0|AA|1 0
......./..##.../..#..../.......|10|BBX 2 2 1 0|A|0 0
......./##...../#....../.......|10|BBX 2 2 -1 0|A|0 0
.##..../.#...../......./.......|10|BBX 2 2 0 1|A|0 0
......./......./.##..../.#.....|10|BBX 2 2 0 -1|A|0 0
......./......./.##..../.#.....|4|FONTBOUNDINGBOX 2 2 9 1|A|0 0
.##..../.#...../......./.......|4|FONTBOUNDINGBOX 2 2 9 -1|A|0 0
......./......./.##..../.#.....|4|FONTBOUNDINGBOX 2 3 0 0|A|0 0
......./..#..../.#...../.......|12|40|A|0 0
......./......./.#...../.......|12|3F|A|0 0
......./.##.##./.#..#../.......|7|ENCODING 63|AB|0 0
......./......./......./.......|7|ENCODING -1 65|A|0 0
......./......./......./.......|7|ENCODING 4294967361|A|0 0
......./......./......./.......|7|ENCODING 4294967359|B|0 0
......./.##..../.#...../.......|7|ENCODING 233|é|0 0
......./......./......./.......|7|ENCODING 65;ENCODING 66|A|0 0";

// The pixel of two numbers, the column and the row.
fn pixel(numbers: &str) -> Pixel {
    let (i, j) = numbers.split_once(' ').unwrap_or((numbers, ""));
    let i = i.parse::<i8>().unwrap_or(99);
    let j = j.parse::<i8>().unwrap_or(99);
    Pixel::new(i64::from(i), i64::from(j))
}

fn parts(row: &str) -> Option<(&str, &str, &str, &str)> {
    let (number, row) = row.split_once('|')?;
    let (line, row) = row.split_once('|')?;
    let (text, at) = row.split_once('|')?;
    Some((number, line, text, at))
}

// What a font with such a line draws.
fn drawn_row(alloc: Global, row: &str) -> Result<String, AllocError> {
    let Some((number, line, text, at)) = parts(row) else {
        return String::from_str(alloc, "malformed");
    };
    let source = edited(alloc, number, line)?;
    match read(alloc, &source) {
        Ok(font) => drawn(alloc, &font, text, pixel(at)),
        Err(_) => String::from_str(alloc, "refused"),
    }
}

#[test]
fn texts_are_drawn_as_worked(rt: HostRuntime) -> Result<(), TableFault> {
    check_rows(rt.alloc(), PICTURES, '|', 24, drawn_row)
}

// Seven glyphs, not by their encodings, two of them with the encoding 97 and one with a negative one.
// Rows of 9 and of 16 pixels have four digits, and those of no pixels have none.
const MIXED: &str = "\
STARTFONT 2.1\n\
CHARS 7\n\
FONTBOUNDINGBOX 16 3 1 -1\n\
STARTCHAR b\nENCODING 98\nDWIDTH 10 0\nBBX 9 2 0 0\nBITMAP\nAA80\n557F\nENDCHAR\n\
STARTCHAR a\nBBX 1 1 0 0\nDWIDTH 2 0\nENCODING 97\nBITMAP\n80\nENDCHAR\n\
STARTCHAR unnamed\nENCODING -1 99\nDWIDTH 3 0\nBBX 1 1 0 0\nBITMAP\n80\nENDCHAR\n\
STARTCHAR again\nENCODING 97\nDWIDTH 4 0\nBBX 1 1 0 0\nBITMAP\n00\nENDCHAR\n\
STARTCHAR question\nENCODING 63\nDWIDTH 5 0\nBBX 3 1 0 0\nBITMAP\nA0\nENDCHAR\n\
STARTCHAR wide\nENCODING 128512\nDWIDTH 17 0\nBBX 16 1 0 0\nBITMAP\n8001\nENDCHAR\n\
STARTCHAR space\nENCODING 32\nDWIDTH 7 0\nBBX 0 2 0 0\nBITMAP\n\n\nENDCHAR\n\
ENDFONT\n";

// Three letters of the font 6x13 of X.Org's misc-fixed, which is in the public domain.
const LETTERS: &str = "\
STARTFONT 2.1\n\
FONTBOUNDINGBOX 6 13 0 -2\n\
STARTPROPERTIES 1\nFONT_DESCENT 2\nENDPROPERTIES\n\
CHARS 3\n\
STARTCHAR A\nENCODING 65\nSWIDTH 480 0\nDWIDTH 6 0\nBBX 6 13 0 -2\nBITMAP\n\
00\n00\n20\n50\n88\n88\n88\nF8\n88\n88\n88\n00\n00\nENDCHAR\n\n\
STARTCHAR g\nENCODING 103\nSWIDTH 480 0\nDWIDTH 6 0\nBBX 6 13 0 -2\nBITMAP\n\
00\n00\n00\n00\n00\n70\n88\n88\n88\n78\n08\n88\n70\nENDCHAR\n\n\
STARTCHAR j\nENCODING 106\nSWIDTH 480 0\nDWIDTH 6 0\nBBX 6 13 0 -2\nBITMAP\n\
00\n00\n00\n10\n00\n30\n10\n10\n10\n10\n90\n90\n60\nENDCHAR\n\n\
ENDFONT\n";

// Adds the ink of a glyph, its rows parted by `/`.
fn draw_glyph(out: &mut String, glyph: &Glyph) -> Result<(), AllocError> {
    let width = usize::from(glyph.bounds.width);
    for (i, is_inked) in glyph.rows.as_slice().iter().enumerate() {
        if i > 0 && width > 0 && i % width == 0 {
            out.push('/')?;
        }
        out.push(if *is_inked { '#' } else { '.' })?;
    }
    Ok(())
}

// The encoding, the advance and the rows of each glyph, each glyph ended by `;`, and the box.
fn drawn_glyphs(alloc: Global, font: &Font) -> Result<String, AllocError> {
    let mut out = String::new(alloc);
    for glyph in font.get().glyphs.as_slice() {
        write!(out, "{} {} ", glyph.encoding, glyph.advance)?;
        draw_glyph(&mut out, glyph)?;
        out.push(';')?;
    }
    let bounds = &font.get().bounds;
    write!(out, "{bounds:?}")?;
    Ok(out)
}

// 18 columns of 13 rows of the letters `Agj` at the pixel (0, 0), each row ended by `;`.
fn drawn_letters(alloc: Global, font: &Font) -> Result<String, AllocError> {
    let mut out = String::new(alloc);
    for j in 0..13 {
        for i in 0..18 {
            let is_inked = has_ink(font, "Agj", Pixel::new(0, 0), i, j);
            out.push(if is_inked { '#' } else { '.' })?;
        }
        out.push(';')?;
    }
    Ok(out)
}

fn result_of_font(alloc: Global, font: &Font, row: &str) -> Result<String, AllocError> {
    match row {
        "all glyphs" => drawn_glyphs(alloc, font),
        "drawn letters" => drawn_letters(alloc, font),
        text => {
            let (width, height) = extent_of(font, text);
            format!(in alloc; "{width} {height}")
        }
    }
}

// The result for a font: its glyphs, its letters, or the extent of a text.
fn result_of_row(alloc: Global, row: &str) -> Result<String, AllocError> {
    let (name, rest) = row.split_once('|').unwrap_or((row, ""));
    let source = match name {
        "MIXED" => MIXED,
        "LETTERS" => LETTERS,
        _ => TINY,
    };
    match read(alloc, source.as_bytes()) {
        Ok(font) => result_of_font(alloc, &font, rest),
        Err(_) => String::from_str(alloc, "refused"),
    }
}

// The glyphs of the font, and its box.
const GLYPHS: &str = "\
32 7 ;\
63 5 #.#;\
97 2 #;\
98 10 #.#.#.#.#/.#.#.#.#.;\
128512 17 #..............#;\
BitmapBox { width: 16, height: 3, xoff: 1, yoff: -1 }|MIXED|all glyphs";

#[test]
fn glyphs_stand_by_their_encodings(rt: HostRuntime) -> Result<(), TableFault> {
    check_rows(rt.alloc(), GLYPHS, '|', 1, result_of_row)
}

// Extents of texts.
const WIDTHS: &str = "\
0 3|MIXED|
2 3|MIXED|a
12 3|MIXED|ab
19 3|MIXED|b a
5 3|MIXED|c
22 3|MIXED|\u{1F600}?
5 3|MIXED|\u{e9}
6 2|TINY|AA
0 2|TINY|B";

#[test]
fn extents_are_summed_advances(rt: HostRuntime) -> Result<(), TableFault> {
    check_rows(rt.alloc(), WIDTHS, '|', 9, result_of_row)
}

const DRAWN_LETTERS: &str = "\
..................;\
..................;\
..#...............;\
.#.#...........#..;\
#...#.............;\
#...#..###....##..;\
#...#.#...#....#..;\
#####.#...#....#..;\
#...#.#...#....#..;\
#...#..####....#..;\
#...#.....#.#..#..;\
......#...#.#..#..;\
.......###...##...;\
|LETTERS|drawn letters";

#[test]
fn letters_are_drawn_as_their_rows(rt: HostRuntime) -> Result<(), TableFault> {
    check_rows(rt.alloc(), DRAWN_LETTERS, '|', 1, result_of_row)
}

// Of 256 characters of 17 columns: the extent, and whether there is ink in row 1 of the columns 4350 and
// 4351. Then how many characters a text may have, and whether this one and one with a letter more are
// short.
const MANY: &str = "(4352, 3) [true, false]; 256 [true, false]|";

fn result_of_text(alloc: Global, font: &Font, text: &str) -> Result<String, AllocError> {
    let further = format!(in alloc; "{text}a")?;
    let are_short = [is_short(text), is_short(further.as_str())];
    let extent = extent_of(font, text);
    let inked = [
        has_ink(font, text, Pixel::new(0, 0), 4350, 1),
        has_ink(font, text, Pixel::new(0, 0), 4351, 1),
    ];
    format!(in alloc; "{extent:?} {inked:?}; {MAX_CHARACTERS} {are_short:?}")
}

fn result_of_many(alloc: Global, _row: &str) -> Result<String, AllocError> {
    let text = "\u{1F600}".repeat(alloc, 256)?;
    match read(alloc, MIXED.as_bytes()) {
        Ok(font) => result_of_text(alloc, &font, text.as_str()),
        Err(_) => String::from_str(alloc, "refused"),
    }
}

#[test]
fn texts_have_at_most_256_characters(rt: HostRuntime) -> Result<(), TableFault> {
    check_rows(rt.alloc(), MANY, '|', 1, result_of_many)
}

// A font that has to have 65,536 glyphs, and so many of them by falling encodings, the last of which
// is 1. The rows of each are empty.
fn falling(alloc: Global, count: u32) -> Result<Vec<u8>, AllocError> {
    let mut source = Vec::new(alloc);
    source.extend_from_slice(b"STARTFONT 2.1\nCHARS 65536\nFONTBOUNDINGBOX 1 1 0 0\n")?;
    for n in 0..count {
        let encoding = count - n;
        let glyph = format!(in alloc;
            "STARTCHAR\nENCODING {encoding}\nDWIDTH 1 0\nBBX 0 0 0 0\nBITMAP\nENDCHAR\n"
        )?;
        source.extend_from_slice(glyph.as_bytes())?;
    }
    source.extend_from_slice(b"ENDFONT\n")?;
    Ok(source)
}

// How many glyphs a font has, and the encodings of the first and the last of them.
fn ends_of(alloc: Global, font: &Font) -> Result<String, AllocError> {
    let glyphs = font.get().glyphs.as_slice();
    match (glyphs.first(), glyphs.last()) {
        (Some(first), Some(last)) => {
            format!(in alloc; "{} {} {}", glyphs.len(), first.encoding, last.encoding)
        }
        _ => String::from_str(alloc, "no glyphs"),
    }
}

// The ends of fonts of so many glyphs, or their fault. There are three lines of the header, and six of each
// glyph.
const FALLING: &str = "\
65536 1 65536|65536
5 393220|65537
4 393214|65535";

fn result_of_falling(alloc: Global, count: &str) -> Result<String, AllocError> {
    let source = falling(alloc, count.parse::<u32>().unwrap_or(0))?;
    match read(alloc, &source) {
        Ok(font) => ends_of(alloc, &font),
        Err(error) => fault_text(alloc, error),
    }
}

#[test]
fn fonts_have_at_most_65536_glyphs(rt: HostRuntime) -> Result<(), TableFault> {
    check_rows(rt.alloc(), FALLING, '|', 3, result_of_falling)
}
