ghost use Rattle.std.specs.Prelude.{◌≡◌, ◌++◌, IfOk, OnOk};
ghost use Rattle.std.specs.List.{flat_map};
ghost use Rattle.mapdefs.specs.PixelBytes.{rgba_bytes};
ghost use Rattle.symbols.specs.Netpbm.{colour_of, rgb_bytes, smooth_pam, smooth_ppm};

use crate::netpbm::ppm_header;
use crate::pam::pam_header;
use mapdefs::{Items, Rgba, SmoothPicture};
use std::alloc::{AllocError, Global};

// Adds the colours of some pixels.
fn add_colours(bytes: &mut Vec<u8>, pixels: &[Rgba]) -> Result<(), AllocError>
    ensures { OnOk result (bytes.new.items ≡ bytes.old.items ++ flat_map (λ pixel. rgb_bytes (colour_of pixel)) pixels.now) }
{
    for pixel in pixels {
        bytes.extend_from_slice(&[pixel.red, pixel.green, pixel.blue])?;
    }
    Ok(())
}

// Adds the colours of some pixels, and their alphas.
fn add_alphas(bytes: &mut Vec<u8>, pixels: &[Rgba]) -> Result<(), AllocError>
    ensures { OnOk result (bytes.new.items ≡ bytes.old.items ++ flat_map rgba_bytes pixels.now) }
{
    for pixel in pixels {
        bytes.extend_from_slice(&pixel.bytes())?;
    }
    Ok(())
}

/// The bytes of a smoothed picture as a portable pixmap, which has its colours, and not its alphas.
pub fn write_smooth_ppm(alloc: Global, picture: &SmoothPicture) -> Result<Items<u8>, AllocError>
    ensures { IfOk result (λ bytes. bytes ≡ smooth_ppm picture.now) }
{
    let fields = picture.get();
    let header = ppm_header(alloc, fields.width.pixels(), fields.height.pixels())?;
    let mut bytes = Vec::new(alloc);
    bytes.extend_from_slice(header.as_bytes())?;
    add_colours(&mut bytes, fields.pixels.as_slice())?;
    Ok(Items::of(bytes))
}

/// The bytes of a smoothed picture as a portable arbitrary map, with its alphas.
pub fn write_smooth_pam(alloc: Global, picture: &SmoothPicture) -> Result<Items<u8>, AllocError>
    ensures { IfOk result (λ bytes. bytes ≡ smooth_pam picture.now) }
{
    let fields = picture.get();
    let header = pam_header(alloc, fields.width.pixels(), fields.height.pixels())?;
    let mut bytes = Vec::new(alloc);
    bytes.extend_from_slice(header.as_bytes())?;
    add_alphas(&mut bytes, fields.pixels.as_slice())?;
    Ok(Items::of(bytes))
}
