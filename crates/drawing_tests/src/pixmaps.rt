use crate::shapes::{drawn, pixel, side, sides, three};
use geom::{PictureSide, Pixel};
use mapdefs::{Items, Picture, PictureFields, PixelColour, Pixmap, Rgb};
use scanfill::Cover;
use std::alloc::{AllocError, Global};
use std::test::Fail;
use symbols::{PixFault, Stamp, read, write_pam, write_ppm};
use test_tables::{TableFault, check_rows, numbers};

// A pixmap as its sides and its last colour.
fn summary_of(alloc: Global, pixmap: &Pixmap) -> Result<String, AllocError> {
    let fields = pixmap.get();
    let (width, height) = (fields.width, fields.height);
    match fields.pixels.as_slice().last() {
        Some(Rgb { red, green, blue }) => {
            format!(in alloc; "{width}x{height} {red}.{green}.{blue}")
        }
        None => format!(in alloc; "{width}x{height} without pixels"),
    }
}

// A pixmap, or the name of its fault.
fn pixmap_or_fault(alloc: Global, bytes: &[u8]) -> Result<String, AllocError> {
    match read(alloc, bytes) {
        Ok(pixmap) => summary_of(alloc, &pixmap),
        Err(PixFault::NoMemory) => Err(AllocError),
        Err(fault) => format!(in alloc; "{fault:?}"),
    }
}

// The pixmap that bytes are, or their fault, and the bytes, `~` for a line feed and `^` for a carriage return.
const FILES: &str = "\
1x1 97.98.99=P6 1 1 255~abc
2x1 100.101.102=P6\t2\x0b1\x0c255^abcdef
1x2 100.101.102=P6 1 2 255 abcdef
1x1 120.121.122=P6 #c~1 # d^1#e~255 xyz more
1x1 97.98.99=P6~#~#~  ~1 1 255 abc
1x1 97.98.99=P6 001 01 0000255 abc
1x1 32.98.99=P6 1 1 255  bc
1x1 35.98.99=P6 1 1 255 #bc
Short=P6 1 1 255 ab
Short=P6 2 1 255 abcde
Short=P6 256 256 255 a
Magic=
Magic=P
Magic=6P 1 1 255 abc
Magic=P5 1 1 255 abc
Magic=p6 1 1 255 abc
Header=P6
Header=P61 1 255 abc
Header=P6#c~1 1 255 abc
Header=P6 1 1 255abc
Header=P6 1 1 255#abc
Header=P6 1 1 255
Header=P6 1 1 254 abc
Header=P6 1 1 256 abc
Header=P6 1 1 65535 abcdef
Header=P6 1 1 65791 abcdef
Header=P6 0 1 255 abc
Header=P6 1 0 255 abc
Header=P6 1x1 255 abc
Header=P6 -1 1 255 abc
Header=P6 1 1
Header=P6 # 1 1 255 abc
Header=P6 257 0 255 abc
Header=P6 257 1 254 abc
Limit=P6 257 1 255 abc
Limit=P6 1 257 255 abc
Limit=P6 65537 1 255 abc
Limit=P6 99999999999999999999999 1 255 abc";

fn read_bytes(alloc: Global, row: &str) -> Result<String, AllocError> {
    let mut bytes = Vec::from_slice(alloc, row.as_bytes())?;
    for byte in bytes.as_mut_slice().iter_mut() {
        match *byte {
            b'~' => *byte = b'\n',
            b'^' => *byte = b'\r',
            _ => {}
        }
    }
    pixmap_or_fault(alloc, bytes.as_slice())
}

#[test]
fn files_are_read_or_have_their_faults(rt: HostRuntime) -> Result<(), TableFault> {
    check_rows(rt.alloc(), FILES, '=', 38, read_bytes)
}

// The message on a fault, and its name.
const FAULTS: &str = "\
the bytes don't begin with P6=Magic
a header that can't be read, or without pixels=Header
fewer bytes than the pixels need=Short
more than 256 pixels on a side=Limit
out of memory=NoMemory";

// The fault of a name.
fn fault(name: &str) -> Option<PixFault> {
    match name {
        "Magic" => Some(PixFault::Magic),
        "Header" => Some(PixFault::Header),
        "Short" => Some(PixFault::Short),
        "Limit" => Some(PixFault::Limit),
        "NoMemory" => Some(PixFault::NoMemory),
        _ => None,
    }
}

fn message_of(alloc: Global, name: &str) -> Result<String, AllocError> {
    match fault(name) {
        Some(fault) => format!(in alloc; "{fault}"),
        None => format!(in alloc; "malformed"),
    }
}

#[test]
fn faults_have_their_messages(rt: HostRuntime) -> Result<(), TableFault> {
    check_rows(rt.alloc(), FAULTS, '=', 5, message_of)
}

// Adds the pixels of rows that `/` parts, transparent where they have a `.`.
fn add_pixels(bytes: &mut Vec<u8>, rows: &str) -> Result<(), AllocError> {
    for pixel in rows.bytes() {
        match pixel {
            b'.' => bytes.extend_from_slice(&[255, 0, 255])?,
            b'#' => bytes.extend_from_slice(&[255, 0, 254])?,
            _ => {}
        }
    }
    Ok(())
}

// The file of a pixmap of rows that `/` parts.
fn file(alloc: Global, rows: &str) -> Result<Vec<u8>, AllocError> {
    let width = rows.split('/').next().map_or(0, str::len);
    let height = rows.split('/').count();
    let mut bytes = format!(in alloc; "P6 {width} {height} 255 ")?.into_bytes();
    add_pixels(&mut bytes, rows)?;
    Ok(bytes)
}

// The first row of a pixmap on the picture and the one after its last, the rows of the picture, worked by
// hand, the rows of the pixmap, the pixel that it is stamped at, and the sides of the picture.
const STAMPS: &str = "\
2-3 .... .... ..#. ....=.#|2 2|4 4
0-3 ###. #.#. ###. ....=###/#.#/###|1 1|4 4
0-2 .#. ##. ...=###/#.#/###|0 0|3 3
0-2 ##. .#. ...=##/.#|1 1|3 3
0-2 #.. ... ...=##/#.|0 1|3 3
1-2 .... #.#. ....=#.#.#|0 1|4 3
1-2 .... ..#. ....=#.#.#|4 1|4 3
1-2 .... ...# ....=#.#.#|5 1|4 3
- .... .... ....=#.#.#|6 1|4 3
- ... ... ...=##/##|-1 1|3 3
0-1 .#. ... ...=#/./#|1 -1|3 3
2-4 ... ... .#. ...=#/./#|1 3|3 4
3-4 ... ... ... .#.=#/./#|1 4|3 4
- ... ... ... ...=#/#|1 5|3 4
0-2 ... ... ...=../..|1 1|3 3
- .. ..=#|-1 0|2 2
- .. ..=#|2 0|2 2
0-1 ..#.=#..#|1 0|4 1
- .. ..=#|17592186044415 0|2 2
- .. ..=#|0 -17592186044415|2 2";

// The rows of a pixmap, and where it is stamped.
fn parts(row: &str) -> Option<(&str, Pixel, PictureSide, PictureSide)> {
    let (rows, at, size) = three(row)?;
    let (width, height) = sides(size)?;
    Some((rows, pixel(numbers(at, ' ')?), width, height))
}

fn stamped(alloc: Global, row: &str) -> Result<String, AllocError> {
    let Some((rows, at, width, height)) = parts(row) else {
        return format!(in alloc; "malformed");
    };
    let bytes = file(alloc, rows)?;
    match read(alloc, bytes.as_slice()) {
        Ok(pixmap) => drawn(alloc, &Stamp::new(&pixmap, at), width, height),
        Err(_) => format!(in alloc; "malformed"),
    }
}

#[test]
fn stamps_have_worked_pixels(rt: HostRuntime) -> Result<(), TableFault> {
    check_rows(rt.alloc(), STAMPS, '=', 20, stamped)
}

// Adds the colour of a stamp at a column of the third row, if it covers it.
fn add_colour(text: &mut String, stamp: &Stamp<'_>, column: u16) -> Result<(), AllocError> {
    let column = column.min(9);
    if !stamp.covers(column, 2) {
        return text.push_str("none ");
    }
    let Rgb { red, green, blue } = stamp.colour(column, 2);
    write!(text, "{red}.{green}.{blue} ")
}

// The colours of the two pixels of a pixmap's stamp.
fn colours(alloc: Global, bytes: &str) -> Result<String, AllocError> {
    let Ok(pixmap) = read(alloc, bytes.as_bytes()) else {
        return String::from_str(alloc, "no pixmap");
    };
    let stamp = Stamp::new(&pixmap, pixel([2, 2]));
    let mut text = String::new(alloc);
    add_colour(&mut text, &stamp, 1)?;
    add_colour(&mut text, &stamp, 2)?;
    Ok(text)
}

// The colours of a stamp, and the file of its pixmap of two pixels.
const COLOURS: &str = "\
65.66.67 97.98.99 =P6 2 1 255 ABCabc
65.66.67 65.67.66 =P6 2 1 255 ABCACB";

#[test]
fn stamps_have_the_colours_of_their_pixmap(rt: HostRuntime) -> Result<(), TableFault> {
    check_rows(rt.alloc(), COLOURS, '=', 2, colours)
}

// Adds the pixels of a picture of that many pixels on each side, all of different colours as far as there are
// so many.
fn fill(colours: &mut Items<PixelColour>, side: PictureSide) -> Result<(), AllocError> {
    for j in 0..side.pixels() {
        for i in 0..side.pixels() {
            colours.push(PixelColour::new(Some(Rgb {
                red: (i % 256) as u8,
                green: (j % 256) as u8,
                blue: 20,
            })))?;
        }
    }
    Ok(())
}

// The picture of these pixels, if they are as many as its sides say.
fn picture(width: PictureSide, height: PictureSide, pixels: Items<PixelColour>) -> Option<Picture> {
    if pixels.len() != usize::from(width.pixels()) * usize::from(height.pixels()) {
        return None;
    }
    Some(Picture::new(PictureFields {
        width,
        height,
        pixels,
    }))
}

// That picture as bytes, none where it isn't one.
fn written(alloc: Global, side: PictureSide) -> Result<Items<u8>, AllocError> {
    let mut colours = Items::new(alloc);
    fill(&mut colours, side)?;
    match picture(side, side, colours) {
        Some(picture) => write_ppm(alloc, &picture),
        None => Ok(Items::new(alloc)),
    }
}

// The pixmap that is read from a written picture, and the pixels on each side of the picture.
const WRITTEN: &str = "\
7x7 6.6.20=7
256x256 255.255.20=256
Limit=257";

fn read_again(alloc: Global, row: &str) -> Result<String, AllocError> {
    let bytes = written(alloc, side(row.parse::<i64>().unwrap_or(1)))?;
    pixmap_or_fault(alloc, bytes.as_slice())
}

#[test]
fn written_pictures_are_read(rt: HostRuntime) -> Result<(), TableFault> {
    check_rows(rt.alloc(), WRITTEN, '=', 3, read_again)
}

// A picture of two colours and nothing between them.
fn three_pixels(alloc: Global) -> Result<Option<Picture>, AllocError> {
    let [first, second] = [2, 5].map(|blue| Rgb {
        red: 10,
        green: 20,
        blue,
    });
    let pixels = [Some(first), None, Some(second)].map(PixelColour::new);
    let pixels = Items::of(Vec::from_array(alloc, pixels)?);
    Ok(picture(side(3), side(1), pixels))
}

// The bytes of that picture as PPM and as PAM, none where it isn't one.
fn both_written(alloc: Global) -> Result<(Items<u8>, Items<u8>), AllocError> {
    match three_pixels(alloc)? {
        Some(picture) => Ok((write_ppm(alloc, &picture)?, write_pam(alloc, &picture)?)),
        None => Ok((Items::new(alloc), Items::new(alloc))),
    }
}

#[test]
fn pictures_are_written_in_both_formats(rt: HostRuntime) -> Result<(), Fail> {
    let (ppm, pam) = both_written(rt.alloc())?;
    assert_eq!(rt;
        ppm.as_slice(),
        b"P6\n3 1\n255\n\x0a\x14\x02\0\0\0\x0a\x14\x05".as_slice()
    );
    assert_eq!(rt;
        pam.as_slice(),
        b"P7\nWIDTH 3\nHEIGHT 1\nDEPTH 4\nMAXVAL 255\nTUPLTYPE RGB_ALPHA\nENDHDR\n\
        \x0a\x14\x02\xff\0\0\0\0\x0a\x14\x05\xff"
            .as_slice()
    );
    Ok(())
}
