use crate::lengths::side;
use geom::PictureSide;
use mapdefs::{Items, Rgba, SmoothFields, SmoothPicture};
use png::write_smooth_png;
use std::alloc::{AllocError, Global};
use test_tables::{TableFault, check_rows};

// The smoothed picture of some pixels, if there are as many as its sides say.
fn picture_of(
    pixels: Items<Rgba>,
    width: PictureSide,
    height: PictureSide,
) -> Option<SmoothPicture> {
    if pixels.as_slice().len() != usize::from(width.pixels()) * usize::from(height.pixels()) {
        return None;
    }
    Some(SmoothPicture::new(SmoothFields {
        width,
        height,
        pixels,
    }))
}

// How long the file of a smoothed picture is, and 0 where there is no such picture.
fn length_of(
    alloc: Global,
    pixels: Items<Rgba>,
    width: PictureSide,
    height: PictureSide,
) -> Result<usize, AllocError> {
    match picture_of(pixels, width, height) {
        Some(picture) => Ok(write_smooth_png(alloc, &picture)?.as_slice().len()),
        None => Ok(0),
    }
}

// Two rows of 17 pixels of one colour, of which the alpha rises from 15 to 255.
fn alphas(alloc: Global) -> Result<usize, AllocError> {
    let mut pixels = Items::new(alloc);
    for i in 0..34_u8 {
        pixels.push(Rgba {
            red: 10,
            green: 20,
            blue: 30,
            alpha: i % 17 * 15 + 15,
        })?;
    }
    length_of(alloc, pixels, side(17), side(2))
}

// Three rows of 300 pixels, whose red rises by 7 to the right and by 1 downwards, and green by 13 and by 2, both modulo 256.
fn gradient(alloc: Global) -> Result<usize, AllocError> {
    let mut pixels = Items::new(alloc);
    for i in 0..900_u32 {
        pixels.push(Rgba {
            red: ((i % 300 * 7 + i / 300) % 256) as u8,
            green: ((i % 300 * 13 + i / 300 * 2) % 256) as u8,
            blue: 200,
            alpha: 255,
        })?;
    }
    length_of(alloc, pixels, side(300), side(3))
}

// The file of alphas has 57 bytes, 63 of a palette, 28 of 16 alphas, since the last colour is opaque, and a stream of 28. That
// of the gradient has a stream of 44 if filter type 1 is chosen, of 3 + 113 + 96 + 80 + 7 bits, and 2,700 without filters.
const LENGTHS: &str = "\
176=alphas
at most 101=gradient";

fn lengths_of(alloc: Global, name: &str) -> Result<String, AllocError> {
    if name == "alphas" {
        let length = alphas(alloc)?;
        return format!(in alloc; "{length}");
    }
    let length = gradient(alloc)?;
    if (1..=101).contains(&length) {
        format!(in alloc; "at most 101")
    } else {
        format!(in alloc; "{length}")
    }
}

#[test]
fn smoothed_files_have_worked_lengths(rt: HostRuntime) -> Result<(), TableFault> {
    check_rows(rt.alloc(), LENGTHS, '=', 2, lengths_of)
}
