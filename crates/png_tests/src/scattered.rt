use crate::lengths::{row_length, side};
use mapdefs::{Items, PixelColour, Rgb};
use std::alloc::{AllocError, Global};
use test_tables::{TableFault, check_rows};

// A row of 2,048 pixels of 64 colours, each of 32 pixels, in which no three pixels come twice: within 64 pixels each is as many
// colours on from the one before, by an odd number that is another for each 64.
fn scattered(alloc: Global) -> Result<Items<PixelColour>, AllocError> {
    let mut pixels = Items::new(alloc);
    for at in 0..2_048_u32 {
        let step = at / 64 * 2 + 1;
        let colour = Rgb {
            red: (at * step % 64) as u8,
            green: 10,
            blue: 200,
        };
        pixels.push(PixelColour::new(Some(colour)))?;
    }
    Ok(pixels)
}

// The file has 57 bytes, 12 and 192 of the palette, and a stream of 1,576: 6 and these bits, 3 at its begin, a header of 218,
// 12,326 of the bytes and 7 of the end. Of 65 symbols 63 have 6 bits, the last colour and the end 7, so that the codes are
// complete: 63 / 64 and 2 / 128. A colour stands 32 times, and the first one 33 times with the filter type. Of the header 71 bits are
// numbers and the codes of sizes, 79 say 63 times 6 (once, ten times six more, and two), 3 and 12 + 12 a 7 and 192 zeros, 3 and 12 a 7
// and 29 zeros, 14 and 12 the ranges of distances, two of one bit and 28 of none. With fixed codes the stream had 2,057 bytes.
const LENGTHS: &str = "1837=scattered";

fn lengths_of(alloc: Global, _name: &str) -> Result<String, AllocError> {
    let length = row_length(alloc, scattered(alloc)?, side(2_048))?;
    format!(in alloc; "{length}")
}

#[test]
fn a_block_has_codes_of_its_own(rt: HostRuntime) -> Result<(), TableFault> {
    check_rows(rt.alloc(), LENGTHS, '=', 1, lengths_of)
}
