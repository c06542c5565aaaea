/// How far the outline of a label reaches from its ink.
#[derive(Clone, Copy)]
pub enum Reach {
    /// To the eight neighbours of each pixel of ink.
    Neighbours,
    /// To all pixels whose centres are at most that many pixels away from that of a pixel of ink, which is one of them.
    Disc(u8),
}
