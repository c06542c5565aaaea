/// A side of the pixels that are near the queried one.
#[derive(Clone, Copy)]
pub enum Side {
    Right,
    Left,
    Bottom,
    Top,
}
