/// A client that administers a shared map: where its bytes come from, and where its lines go.
#[derive(Drop)]
pub struct Client<I, O> {
    /// The bytes of its commands.
    pub reader: I,
    /// The lines that report their results.
    pub writer: O,
}
