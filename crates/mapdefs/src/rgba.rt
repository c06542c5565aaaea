ghost use Rattle.std.specs.Prelude.{◌≡◌};
ghost use Rattle.mapdefs.specs.PixelBytes.{rgba_bytes};

/// A colour and its alpha: how much of it is seen, from 0, where nothing is, to 255, where nothing behind it is.
#[derive(Clone, Copy, Debug)]
pub struct Rgba {
    pub red: u8,
    pub green: u8,
    pub blue: u8,
    pub alpha: u8,
}

impl Rgba {
    /// Its red, green, blue and alpha.
    pub fn bytes(self) -> [u8; 4]
        ensures { result ≡ rgba_bytes self }
    {
        [self.red, self.green, self.blue, self.alpha]
    }
}
