/// How far a session has come.
#[derive(Clone, Copy, Debug, PartialEq, Eq)]
pub enum Stage {
    /// Heads are read.
    Reading,
    /// A head ended the connection: no byte after it is taken.
    Closed,
    /// The stream ended.
    Ended,
}
