ghost use Rattle.std.specs.Prelude.{◌≡◌, ◌++◌, IfOk, OnOk, string_bytes};
ghost use Rattle.std.specs.List.{flat_map};
ghost use Rattle.symbols.specs.Netpbm.{opacity_bytes, pam, pam_header};

use crate::BLOCK;
use mapdefs::{Items, Picture, PixelColour};
use std::alloc::{AllocError, Global};

/// The header of an arbitrary map of these sides.
pub fn pam_header(alloc: Global, width: u16, height: u16) -> Result<String, AllocError>
    ensures { IfOk result (λ text. string_bytes text ≡ pam_header width height) }
{
    format!(in alloc;
        "P7\nWIDTH {width}\nHEIGHT {height}\nDEPTH 4\nMAXVAL 255\nTUPLTYPE RGB_ALPHA\nENDHDR\n"
    )
}

// The bytes of as many pixels as are written at once.
fn block_bytes(pixels: &[PixelColour; BLOCK]) -> [u8; 4 * BLOCK]
    ensures { result ≡ flat_map opacity_bytes pixels.now }
{
    let mut bytes = [0; 4 * BLOCK];
    for i in 0..BLOCK {
        let [red, green, blue, alpha] = pixels[i].bytes();
        bytes[4 * i] = red;
        bytes[4 * i + 1] = green;
        bytes[4 * i + 2] = blue;
        bytes[4 * i + 3] = alpha;
    }
    bytes
}

// Adds the bytes of pixels that are written many at once.
fn add_blocks(bytes: &mut Vec<u8>, blocks: &[[PixelColour; BLOCK]]) -> Result<(), AllocError>
    ensures { OnOk result (bytes.new.items ≡ bytes.old.items ++ flat_map (flat_map opacity_bytes) blocks.now) }
{
    for block in blocks {
        bytes.extend_from_slice(&block_bytes(block))?;
    }
    Ok(())
}

// Adds the bytes of pixels that are written one by one.
fn add_rest(bytes: &mut Vec<u8>, pixels: &[PixelColour]) -> Result<(), AllocError>
    ensures { OnOk result (bytes.new.items ≡ bytes.old.items ++ flat_map opacity_bytes pixels.now) }
{
    for pixel in pixels {
        bytes.extend_from_slice(&pixel.bytes())?;
    }
    Ok(())
}

// Adds the bytes of some pixels.
fn add_pixels(bytes: &mut Vec<u8>, pixels: &[PixelColour]) -> Result<(), AllocError>
    ensures { OnOk result (bytes.new.items ≡ bytes.old.items ++ flat_map opacity_bytes pixels.now) }
{
    bytes.reserve(pixels.len().saturating_mul(4))?;
    let (blocks, rest) = pixels.as_chunks::<BLOCK>();
    add_blocks(bytes, blocks)?;
    add_rest(bytes, rest)
}

/// The bytes of a picture as a portable arbitrary map: a colour is opaque, and a pixel that has nothing is 0 0 0 0.
pub fn write_pam(alloc: Global, picture: &Picture) -> Result<Items<u8>, AllocError>
    ensures { IfOk result (λ bytes. bytes ≡ pam picture.now) }
{
    let fields = picture.get();
    let header = pam_header(alloc, fields.width.pixels(), fields.height.pixels())?;
    let mut bytes = Vec::new(alloc);
    bytes.extend_from_slice(header.as_bytes())?;
    add_pixels(&mut bytes, fields.pixels.as_slice())?;
    Ok(Items::of(bytes))
}
