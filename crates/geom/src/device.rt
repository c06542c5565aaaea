ghost use Rattle.std.specs.Prelude.{◌≡◌, ◌^◌, pos};
ghost use Rattle.geom.specs.Device.{centre};
ghost use Rattle.geom.specs.Range.{IsBelow};

use std::marker::Model;

/// A device point: a point of the picture, in sixteenths of a pixel from the upper left corner, to
/// the right and down. Both numbers have sizes below 2^47.
#[derive(Clone, Copy)]
pub struct Device {
    x: i64,
    y: i64,
}

impl Model for Device {
    ghost use Rattle.geom.specs.Device.{DevicePoint, IsDevicePoint};

    ghost Value = { DevicePoint };

    ghost view = { λ p. record { x = p.x; y = p.y } };

    ghost invariant = { λ p. IsDevicePoint (record { x = p.x; y = p.y }) };

    ghost inverse = { λ p. record { x = p.x; y = p.y } };
}

impl Device {
    ghost use Rattle.geom.specs.Device.{IsDevicePoint, pixel_of, pixel_centre};

    /// The point that many sixteenths of a pixel to the right and down.
    pub fn new(x: i64, y: i64) -> Self
        requires across { IsBelow (2 ^ 47) x }
        requires down { IsBelow (2 ^ 47) y }
        ensures { result ≡ record { x = x; y = y } }
    {
        Device { x, y }
    }

    /// The pixel centre in a column and a row of the picture.
    pub fn pixel_centre(column: u16, row: u16) -> Self
        ensures { result ≡ pixel_centre (pos column) (pos row) }
    {
        Device {
            x: 16 * i64::from(column) + 8,
            y: 16 * i64::from(row) + 8,
        }
    }

    /// The sixteenths of a pixel from the left.
    pub fn x(self) -> i64
        ensures value { result ≡ self.x }
        ensures limits { IsDevicePoint self }
    {
        self.x
    }

    /// The sixteenths of a pixel from the top.
    pub fn y(self) -> i64
        ensures value { result ≡ self.y }
        ensures limits { IsDevicePoint self }
    {
        self.y
    }

    /// The pixel that the point lies in.
    pub fn pixel(self) -> Pixel
        ensures { result ≡ pixel_of self }
    {
        Pixel {
            i: self.x.div_euclid(16),
            j: self.y.div_euclid(16),
        }
    }
}

/// A pixel: its column `i` and its row `j`, from the upper left corner. Both have sizes below 2^44,
/// and are below 0 left of the picture or above it.
#[derive(Clone, Copy)]
pub struct Pixel {
    i: i64,
    j: i64,
}

impl Model for Pixel {
    ghost use Rattle.geom.specs.Device.{PixelValue, IsPixel};

    ghost Value = { PixelValue };

    ghost view = { λ p. record { i = p.i; j = p.j } };

    ghost invariant = { λ p. IsPixel (record { i = p.i; j = p.j }) };

    ghost inverse = { λ p. record { i = p.i; j = p.j } };
}

impl Pixel {
    ghost use Rattle.geom.specs.Device.{IsPixel};

    /// The pixel in a column and a row.
    pub fn new(i: i64, j: i64) -> Self
        requires column { IsBelow (2 ^ 44) i }
        requires row { IsBelow (2 ^ 44) j }
        ensures { result ≡ record { i = i; j = j } }
    {
        Pixel { i, j }
    }

    /// The column.
    pub fn i(self) -> i64
        ensures value { result ≡ self.i }
        ensures limits { IsPixel self }
    {
        self.i
    }

    /// The row.
    pub fn j(self) -> i64
        ensures value { result ≡ self.j }
        ensures limits { IsPixel self }
    {
        self.j
    }
}

/// The sixteenths of a pixel from the top to the pixel centres of a row.
pub fn row_centre(row: u16) -> i64
    ensures value { result ≡ centre (pos row) }
    ensures range { IsBelow (2 ^ 47) result }
    ensures small { IsBelow (2 ^ 24) result }
{
    16 * i64::from(row) + 8
}
