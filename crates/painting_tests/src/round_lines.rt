use crate::painted_maps::map_of_two;
use crate::smoothed::smoothed;
use geom::{Factor, Micro, PictureSide, WorldBox};
use mapdefs::SmoothPicture;
use std::alloc::{AllocError, Global};
use test_tables::{TableFault, check_rows};
use viewport::{Fine, Heights, View};

// The picture of four degrees by four in four pixels by four, so many times as fine.
fn fine(factor: &str) -> Option<Fine> {
    let (low, high) = (Micro::new(0), Micro::new(4_000_000));
    let side = PictureSide::with_last(3);
    let view = View::new(
        Heights::Latitudes,
        WorldBox::new(low, low, high, high),
        side,
        side,
    );
    Fine::new(view, Factor::new(factor.parse::<u8>().ok()?)?)
}

// The alphas of the pixels of a picture, four a row.
fn alphas_of(alloc: Global, picture: &SmoothPicture) -> Result<String, AllocError> {
    let mut text = String::new(alloc);
    for (index, pixel) in picture.get().pixels.as_slice().iter().enumerate() {
        let separator = match (index, index % 4) {
            (0, _) => "",
            (_, 0) => "/",
            _ => " ",
        };
        write!(text, "{separator}{}", pixel.alpha)?;
    }
    Ok(text)
}

// The alphas for a row: the factor, and codes and vertices of a layer, in tenths of a degree.
fn alphas_of_row(alloc: Global, row: &str) -> Result<String, AllocError> {
    let (factor, layer) = row.split_once(';').unwrap_or(("", ""));
    let (codes, vertices) = layer.split_once(';').unwrap_or(("", ""));
    let map = map_of_two(alloc, codes, vertices)?;
    let fine = fine(factor).ok_or(AllocError)?;
    alphas_of(alloc, &smoothed(alloc, &map, fine, None)?)
}

// Lines on a pixel a degree. Of 4 fine pixels 1, 2 and 3 have the alphas 63.75, 127.5 and 191.25; of 16 fine pixels 3 have
// 47.8, 6 have 95.6 and 12 have 191.25. All were counted by hand from the distances of fine pixels' centres.
const ALPHAS: &str = "\
0 0 0 0/64 128 128 64/64 128 128 64/0 0 0 0=2;line #-1/- none;10,20 30,20
# discs, of four and of six fine pixels
0 0 0 0/0 48 48 0/0 48 48 0/0 0 0 0=4;line #-1/- none;20,20
0 128 128 0/128 255 255 128/128 255 255 128/0 128 128 0=2;line #-3/- none;20,20
# the end of a line of width 3
128 128 96 0/255 255 255 96/255 255 255 96/128 128 96 0=4;line #-3/- none;-40,20 20,20
# a bend, there and back
48 128 128 48/48 128 191 128/0 0 128 128/0 0 48 48=4;line #-1/- none;10,30 30,30 30,10
48 128 128 48/48 128 191 128/0 0 128 128/0 0 48 48=4;line #-1/- none;30,10 30,30 10,30
# a diagonal, whose centres lie within the square root of 2 of it along a row
0 0 64 64/0 64 255 64/64 255 64 0/64 64 0 0=2;line #-1/- none;10,10 30,30
# the outline of a square
64 128 128 64/128 191 191 128/128 191 191 128/64 128 128 64=2;polygon -#1/- none;10,10 30,10 30,30 10,30
# a wide style below a narrow one, and two parts
0 128 128 0/128 255 255 128/128 255 255 128/0 128 128 0=2;line #-3/o-1 none;20,20
48 0 0 0/0 0 0 0/0 48 48 0/0 48 48 0=4;line #-1/- none;20,10/0,40";

#[test]
fn lines_of_smoothed_pictures_are_round(rt: HostRuntime) -> Result<(), TableFault> {
    check_rows(rt.alloc(), ALPHAS, '=', 10, alphas_of_row)
}
