use geom::PictureSide;
use mapdefs::{Items, Picture, PictureFields, PixelColour, Rgb};
use png::write_png;
use std::alloc::{AllocError, Global};
use test_tables::{TableFault, check_rows, numbers};

/// The side of a picture. That of a row is within the limits.
pub(crate) fn side(pixels: i64) -> PictureSide {
    PictureSide::new(pixels.clamp(1, 2_048) as u16).unwrap()
}

/// How long the file of a picture of one row is, and 0 where the row isn't so wide.
pub(crate) fn row_length(
    alloc: Global,
    pixels: Items<PixelColour>,
    width: PictureSide,
) -> Result<usize, AllocError> {
    let height = side(1);
    if pixels.as_slice().len() != usize::from(width.pixels()) * usize::from(height.pixels()) {
        return Ok(0);
    }
    let picture = Picture::new(PictureFields {
        width,
        height,
        pixels,
    });
    Ok(write_png(alloc, &picture)?.as_slice().len())
}

// The bytes of files of two equal rows of so many colours and so many pixels, and of those whose first colour is nothing. Behind
// the others stands the last colour. 57 are signature, IHDR, IEND and the frame of IDAT, 12 and three a colour a palette, 13
// tRNS, and 6 and these bits a stream: 3 at its begin, 7 at its end, 8 or 9 for each byte of the first row and its filter
// type, and copies. One of 258 bytes takes 13 bits from the pixel before, and from the row above 23, 24 or 25.
const LENGTHS: &str = "\
# 60 and 19, of 3 + 75 + 14 + 7 bits: two pixels in a byte
136 149=16 16
# 63 and 28, of 3 + 144 + 16 + 7 bits
148 161=17 17
# 780 and 282, of 3 + 2168 + 25 + 7 bits
1119 1132=256 256
# red, green and blue: 834, of 3 + 6545 + 68 + 7 bits; with alpha each pixel repeats three bytes: 676, of 3 + 5250 + 93 + 7
891 733=257 257
# 2,031 more of the last, by seven copies and one of 225: 54, of 3 + 144 + 91 + 18 + 23 + 78 + 18 + 7 bits
174 187=17 2048
# 1,792 more, by six copies and one of 244: 306, of 3 + 2168 + 78 + 18 + 23 + 78 + 18 + 7 bits
1143 1156=256 2048
# 5,375 and 5,370 bytes are those of the pixel before: 903, of 3 + 6536 + 260 + 18 + 72 + 260 + 18 + 7 bits; with alpha 7,167
# and 7,161 are: 767, of 3 + 5238 + 351 + 18 + 100 + 351 + 18 + 7 bits
960 824=257 2048";

// Adds a row of pixels of so many colours, after nothing where it is clear.
fn add_row(
    pixels: &mut Items<PixelColour>,
    is_clear: bool,
    colours: u16,
    width: u16,
) -> Result<(), AllocError> {
    let before = u16::from(is_clear);
    if is_clear {
        pixels.push(PixelColour::new(None))?;
    }
    for k in before..width {
        let at = k.min(colours.saturating_sub(1)).saturating_sub(before);
        let colour = Rgb {
            red: (at % 256) as u8,
            green: (at / 256) as u8,
            blue: 200,
        };
        pixels.push(PixelColour::new(Some(colour)))?;
    }
    Ok(())
}

// The picture of two rows, if there are as many pixels.
fn two_rows(pixels: Items<PixelColour>, width: PictureSide) -> Option<Picture> {
    let height = side(2);
    if pixels.as_slice().len() != usize::from(width.pixels()) * usize::from(height.pixels()) {
        return None;
    }
    Some(Picture::new(PictureFields {
        width,
        height,
        pixels,
    }))
}

// How long the file of two equal rows is.
fn length_of(
    alloc: Global,
    is_clear: bool,
    colours: i64,
    width: PictureSide,
) -> Result<usize, AllocError> {
    let colours = colours.clamp(1, 2_048) as u16;
    let mut pixels = Items::new(alloc);
    add_row(&mut pixels, is_clear, colours, width.pixels())?;
    add_row(&mut pixels, is_clear, colours, width.pixels())?;
    match two_rows(pixels, width) {
        Some(picture) => Ok(write_png(alloc, &picture)?.as_slice().len()),
        None => Ok(0),
    }
}

// How many colours a picture of a row has, and how wide it is.
fn colours_and_width(row: &str) -> Option<(i64, PictureSide)> {
    let [colours, width] = numbers::<2>(row, ' ')?;
    Some((colours, side(width)))
}

fn lengths_of(alloc: Global, row: &str) -> Result<String, AllocError> {
    let Some((colours, width)) = colours_and_width(row) else {
        return format!(in alloc; "malformed");
    };
    let opaque = length_of(alloc, false, colours, width)?;
    let clear = length_of(alloc, true, colours, width)?;
    format!(in alloc; "{opaque} {clear}")
}

#[test]
fn files_have_worked_lengths(rt: HostRuntime) -> Result<(), TableFault> {
    check_rows(rt.alloc(), LENGTHS, '=', 7, lengths_of)
}
