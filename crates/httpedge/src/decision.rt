use crate::Refusal;

/// What the bytes of a head, or their end, decide.
#[derive(Clone, Copy, Debug)]
pub enum Decision {
    /// The answerer gets a query, which `Conn::query` has.
    Ask,
    /// The request is refused.
    Refused(Refusal),
}
