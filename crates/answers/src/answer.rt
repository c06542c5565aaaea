use mapdefs::Items;
use operations::Mime;

/// The answer to a query.
#[derive(Drop)]
pub struct Answer {
    /// The type of the body.
    pub mime: Mime,
    /// The bytes of the body.
    pub body: Items<u8>,
}
