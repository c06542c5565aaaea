ghost use Rattle.std.specs.Prelude.{◌≡◌, ◌++◌, ◌≤◌, ◌*◌, length, take, Ok, Err, IfOk, IfErr, OnOk};
ghost use Rattle.symbols.specs.Format.{IsFaultOf, colours_of, pixels_of, pixmap_of};

use crate::fault::PixFault;
use crate::header::header_of;
use mapdefs::{Items, MAX_SYMBOL_SIDE, Pixmap, PixmapFields, Rgb};
use std::alloc::{AllocError, Global};

/// The pixmap that some bytes are in Netpbm's P6 format. Bytes after the last pixel are ignored.
///
/// `pixmap_of` is either a pixmap or a fault. Unless memory is refused, which is `NoMemory`, the call
/// gives the pixmap or the fault that it is, by the two clauses.
pub fn read(alloc: Global, bytes: &[u8]) -> Result<Pixmap, PixFault>
    ensures pixmap { IfOk result (λ pixmap. pixmap_of bytes.now ≡ Ok pixmap) }
    ensures fault { IfErr result (IsFaultOf (pixmap_of bytes.now)) }
{
    let [b'P', b'6', ..] = bytes else {
        return Err(PixFault::Magic);
    };
    match header_of(bytes) {
        Some(header) => read_pixels(alloc, header.width, header.height, &bytes[header.start..]),
        None => Err(PixFault::Header),
    }
}

// The pixmap of some sides and the bytes after a header.
fn read_pixels(alloc: Global, width: u16, height: u16, bytes: &[u8]) -> Result<Pixmap, PixFault>
    requires width { 1 ≤ width }
    requires height { 1 ≤ height }
    ensures pixmap { IfOk result (λ pixmap. pixels_of width height bytes.now ≡ Ok pixmap) }
    ensures fault { IfErr result (IsFaultOf (pixels_of width height bytes.now)) }
{
    if width > MAX_SYMBOL_SIDE || height > MAX_SYMBOL_SIDE {
        return Err(PixFault::Limit);
    }
    let count = 3 * (usize::from(width) * usize::from(height));
    if bytes.len() < count {
        return Err(PixFault::Short);
    }
    match colours(alloc, &bytes[..count]) {
        Ok(pixels) => Ok(Pixmap::new(PixmapFields {
            width,
            height,
            pixels,
        })),
        Err(_) => Err(PixFault::NoMemory),
    }
}

// The colours of three bytes each.
fn colours(alloc: Global, bytes: &[u8]) -> Result<Items<Rgb>, AllocError>
    ensures { IfOk result (λ colours. colours ≡ colours_of bytes.now) }
{
    let mut colours = Vec::new(alloc);
    colours.reserve(bytes.len() / 3)?;
    let mut rest = bytes;
    while let [red, green, blue, after @ ..] = rest {
        colours.push(Rgb {
            red: *red,
            green: *green,
            blue: *blue,
        })?;
        rest = after;
    }
    Ok(Items::of(colours))
}
