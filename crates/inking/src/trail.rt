use geom::{Device, World, WorldBox};

/// How far a line is painted: the place of its last vertex, and a *quiet* box round that. A step within the box needs no
/// painting, since all that it covers has the line's colour already.
#[derive(Clone, Copy)]
pub struct Trail {
    pub from: World,
    pub quiet: WorldBox,
}

/// The last vertex of a line as far as it is painted, and where it lies on the picture.
#[derive(Clone, Copy)]
pub struct Tip {
    pub from: World,
    pub at: Device,
}

/// Where the last vertex of a round line lies, and whether the disc round it is known to be painted.
#[derive(Clone, Copy)]
pub struct RoundTip {
    pub at: Device,
    pub has_disc: bool,
}
