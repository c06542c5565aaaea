ghost use Rattle.std.specs.Prelude.{◌≡◌, ◌++◌, IfOk, OnOk, string_bytes};
ghost use Rattle.std.specs.List.{flat_map};
ghost use Rattle.symbols.specs.Netpbm.{pixmap_bytes, ppm, ppm_header};

use crate::BLOCK;
use mapdefs::{Items, Picture, PixelColour};
use std::alloc::{AllocError, Global};

/// The header of a pixmap of these sides.
pub fn ppm_header(alloc: Global, width: u16, height: u16) -> Result<String, AllocError>
    ensures { IfOk result (λ text. string_bytes text ≡ ppm_header width height) }
{
    format!(in alloc; "P6\n{width} {height}\n255\n")
}

// The bytes of a pixel.
fn pixel_bytes(pixel: PixelColour) -> [u8; 3]
    ensures { result ≡ pixmap_bytes pixel }
{
    let [red, green, blue, _] = pixel.bytes();
    [red, green, blue]
}

// The bytes of as many pixels as are written at once.
fn block_bytes(pixels: &[PixelColour; BLOCK]) -> [u8; 3 * BLOCK]
    ensures { result ≡ flat_map pixmap_bytes pixels.now }
{
    let mut bytes = [0; 3 * BLOCK];
    for i in 0..BLOCK {
        let [red, green, blue] = pixel_bytes(pixels[i]);
        bytes[3 * i] = red;
        bytes[3 * i + 1] = green;
        bytes[3 * i + 2] = blue;
    }
    bytes
}

// Adds the bytes of pixels that are written many at once.
fn add_blocks(bytes: &mut Vec<u8>, blocks: &[[PixelColour; BLOCK]]) -> Result<(), AllocError>
    ensures { OnOk result (bytes.new.items ≡ bytes.old.items ++ flat_map (flat_map pixmap_bytes) blocks.now) }
{
    for block in blocks {
        bytes.extend_from_slice(&block_bytes(block))?;
    }
    Ok(())
}

// Adds the bytes of pixels that are written one by one.
fn add_rest(bytes: &mut Vec<u8>, pixels: &[PixelColour]) -> Result<(), AllocError>
    ensures { OnOk result (bytes.new.items ≡ bytes.old.items ++ flat_map pixmap_bytes pixels.now) }
{
    for pixel in pixels {
        bytes.extend_from_slice(&pixel_bytes(*pixel))?;
    }
    Ok(())
}

// Adds the bytes of some pixels.
fn add_pixels(bytes: &mut Vec<u8>, pixels: &[PixelColour]) -> Result<(), AllocError>
    ensures { OnOk result (bytes.new.items ≡ bytes.old.items ++ flat_map pixmap_bytes pixels.now) }
{
    bytes.reserve(pixels.len().saturating_mul(3))?;
    let (blocks, rest) = pixels.as_chunks::<BLOCK>();
    add_blocks(bytes, blocks)?;
    add_rest(bytes, rest)
}

/// The bytes of a picture as a portable pixmap. A pixel that has nothing is written as 0 0 0.
pub fn write_ppm(alloc: Global, picture: &Picture) -> Result<Items<u8>, AllocError>
    ensures { IfOk result (λ bytes. bytes ≡ ppm picture.now) }
{
    let fields = picture.get();
    let header = ppm_header(alloc, fields.width.pixels(), fields.height.pixels())?;
    let mut bytes = Vec::new(alloc);
    bytes.extend_from_slice(header.as_bytes())?;
    add_pixels(&mut bytes, fields.pixels.as_slice())?;
    Ok(Items::of(bytes))
}
