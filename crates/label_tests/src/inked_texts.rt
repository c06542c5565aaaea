use crate::entries::side;
use crate::fonts::font_of;
use bdffont::is_short;
use geom::{PictureSide, Pixel};
use labelink::{DiscChords, PlacedGlyph, outline_runs, text_glyphs};
use mapdefs::Font;
use scanfill::{Cover, Spans};
use std::alloc::{AllocError, Global};
use test_tables::{TableFault, check_rows, numbers};

// The glyphs of a short text.
fn glyphs_of<'a>(
    alloc: Global,
    font: &'a Font,
    text: &str,
    at: Pixel,
) -> Result<Vec<PlacedGlyph<'a>>, AllocError> {
    if is_short(text) {
        text_glyphs(alloc, font, text, at)
    } else {
        Err(AllocError)
    }
}

// The pixel of a column and a row. That of a row is within the limits.
fn pixel([i, j]: [i64; 2]) -> Pixel {
    Pixel::new(i.clamp(-100, 100), j.clamp(-100, 100))
}

// Whether a glyph, or an outline, covers a pixel, by its rows, or nothing where the test of the pixel alone differs.
fn is_covered<C: Cover>(
    glyph: &C,
    spans: &mut Spans,
    width: PictureSide,
    i: u16,
    j: u16,
) -> Result<Option<bool>, AllocError> {
    let (i, j) = (i.min(2_047), j.min(2_047));
    glyph.row(j, width, spans)?;
    let is_in = spans
        .as_slice()
        .iter()
        .any(|span| span.from <= i && i < span.to);
    if is_in == glyph.covers(i, j) {
        Ok(Some(is_in))
    } else {
        Ok(None)
    }
}

// The mark of a pixel: `#` where one of the glyphs covers it, `.` where none does, and `?` where one of them
// gives two answers for it.
fn mark<C: Cover>(
    glyphs: &[C],
    spans: &mut Spans,
    width: PictureSide,
    i: u16,
    j: u16,
) -> Result<char, AllocError> {
    let mut mark = '.';
    for glyph in glyphs {
        match is_covered(glyph, spans, width, i, j)? {
            Some(true) => mark = '#',
            Some(false) => {}
            None => return Ok('?'),
        }
    }
    Ok(mark)
}

// Draws 8 columns of 5 rows, each row with a `/` after it.
fn draw<C: Cover>(out: &mut String, alloc: Global, glyphs: &[C]) -> Result<(), AllocError> {
    let width = side(8);
    let mut spans = Spans::new(alloc);
    for j in 0..5_u16 {
        for i in 0..8_u16 {
            out.push(mark(glyphs, &mut spans, width, i, j)?)?;
        }
        out.push('/')?;
    }
    Ok(())
}

// What is drawn of a row: the name of a font, a text, and the column and the row of its upper left pixel.
fn drawn(alloc: Global, row: &str) -> Result<String, AllocError> {
    let (name, row) = row.split_once('|').ok_or(AllocError)?;
    let (text, at) = row.split_once('|').ok_or(AllocError)?;
    let font = font_of(alloc, name)?;
    let at = pixel(numbers::<2>(at, ' ').ok_or(AllocError)?);
    let glyphs = glyphs_of(alloc, &font, text, at)?;
    let mut picture = String::new(alloc);
    draw(&mut picture, alloc, &glyphs)?;
    Ok(picture)
}

const TEXTS: &str = "\
......../.##.##../.#..#.../......../......../=tiny|AA|1 1
# off the picture on each side
......../......../......../#......./......../=tiny|A|-1 3
......../......../......../......../.......#/=tiny|A|7 4
#......./......../......../......../......../=tiny|A|0 -1
......../......../......../......../......../=tiny|A|8 0
......../......../......../......../......../=tiny|A|0 5
# a character without a glyph has no ink, and doesn't end the text
..##..../..#...../......../......../......../=tiny|BA|2 0
..##.##./..#..#../......../......../......../=tiny|ABA|2 0
......../......../......../......../......../=tiny||2 0
# glyphs stand by their advances and offsets
......../......../......../.#.#..../......../=uneven|AB|1 0
......../......../......../.#....#./......../=uneven|BA|1 0";

#[test]
fn texts_have_worked_glyphs(rt: HostRuntime) -> Result<(), TableFault> {
    check_rows(rt.alloc(), TEXTS, '=', 11, drawn)
}

// What is drawn of the outline of an A: how many pixels it reaches, and the column and the row of the text's upper left pixel.
fn outlined(alloc: Global, row: &str) -> Result<String, AllocError> {
    let [reach, i, j] = numbers::<3>(row, ' ').ok_or(AllocError)?;
    let font = font_of(alloc, "tiny")?;
    let glyphs = glyphs_of(alloc, &font, "A", pixel([i, j]))?;
    let chords = DiscChords::new(alloc, reach.clamp(0, 255) as u8)?;
    let mut picture = String::new(alloc);
    for glyph in &glyphs {
        let runs = outline_runs(alloc, glyph, &chords)?;
        draw(&mut picture, alloc, &runs)?;
    }
    Ok(picture)
}

// The ink of the A is that of `##` over `#.`.
const OUTLINES: &str = "\
......../...##.../...#..../......../......../=0 3 1
...##.../..####../..###.../...#..../......../=1 3 1
..####../.######./.#####../..###.../...#..../=2 3 1
# of ink that is off the picture
......../#......./......../......../......../=2 -3 1
......##/.....###/.....###/....####/....####/=4 8 3";

#[test]
fn outlines_are_discs_round_ink(rt: HostRuntime) -> Result<(), TableFault> {
    check_rows(rt.alloc(), OUTLINES, '=', 5, outlined)
}
