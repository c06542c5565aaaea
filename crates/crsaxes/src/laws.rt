//! Laws of the definitions. A law is a function without arguments whose contract states it.

ghost use Rattle.crsaxes.specs.Axes.{AxesAreExchanged};
ghost use Rattle.crsaxes.specs.Metres.{MetresAreRead, MetresAreRounded};

/// Four coordinates in the order of EPSG:4326 are the box of the same coordinates in that of CRS:84,
/// longitudes and latitudes exchanged.
pub fn axes_are_exchanged()
    ensures { AxesAreExchanged }
{}

/// Metres that are rounded down are the degrees or less, by less than a millionth of a metre. Those that are rounded up
/// are the degrees or more.
pub fn metres_are_rounded()
    ensures { MetresAreRounded }
{}

/// Metres that are written out, rounded either way, are read as the coordinate that they are of.
pub fn metres_are_read()
    ensures { MetresAreRead }
{}
