/// How many bytes of a client are read and dropped after its last answer, at most, besides those of one read.
pub const MAX_DRAINED_BYTES: usize = 1_048_576;
