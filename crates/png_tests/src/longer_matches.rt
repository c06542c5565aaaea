use crate::lengths::{row_length, side};
use mapdefs::{Items, PixelColour, Rgb};
use std::alloc::{AllocError, Global};
use test_tables::{TableFault, check_rows};

// Colours by their numbers. The last nine begin like the first four, and behind the first of them like the eight from the
// sixth on.
const COLOURS: [u8; 46] = [
    0, 1, 2, 3, 4, 1, 2, 3, 5, 6, 7, 8, 9, 10, 11, 12, 13, 14, 15, 16, 17, 18, 19, 20, 21, 22, 23,
    24, 25, 26, 27, 28, 29, 30, 31, 32, 33, 0, 1, 2, 3, 5, 6, 7, 8, 9,
];

// A row of these colours.
fn coloured(alloc: Global) -> Result<Items<PixelColour>, AllocError> {
    let mut pixels = Items::new(alloc);
    for number in COLOURS {
        let colour = Rgb {
            red: number,
            green: 20,
            blue: 200,
        };
        pixels.push(PixelColour::new(Some(colour)))?;
    }
    Ok(pixels)
}

// The file has 57 bytes, 12 and 102 of the palette, and a stream of 49: 6 and these bits, 3 at its begin, 304 of 38 bytes, 8 of a
// byte, 7 and 9 of a copy of eight bytes from 33 before, and 7 of the end. Without that byte there were two copies, of four
// bytes and of five, which have 8 bits more than the byte and the one copy, and the stream 50 bytes.
const LENGTHS: &str = "220=longer";

fn lengths_of(alloc: Global, _name: &str) -> Result<String, AllocError> {
    let length = row_length(alloc, coloured(alloc)?, side(46))?;
    format!(in alloc; "{length}")
}

#[test]
fn a_byte_goes_before_a_longer_match(rt: HostRuntime) -> Result<(), TableFault> {
    check_rows(rt.alloc(), LENGTHS, '=', 1, lengths_of)
}
