/// The result of a read.
#[derive(Clone, Copy, Debug, PartialEq, Eq)]
pub enum ReadOutcome {
    /// So many bytes were read, at least one.
    Bytes(usize),
    /// None yet: the call would wait.
    WouldBlock,
    /// No more will come.
    End,
    /// The connection failed.
    Failed,
}

/// The result of a write.
#[derive(Clone, Copy, Debug, PartialEq, Eq)]
pub enum WriteOutcome {
    /// So many bytes were taken, at least one.
    Bytes(usize),
    /// None now: the call would wait.
    WouldBlock,
    /// The connection failed.
    Failed,
}
