/// A gate that gets a call before and after each query of a worker. A test may hold a worker there.
pub trait Gate {
    /// A query of the connection of this number is about to be answered.
    fn asked(&self, number: u64);

    /// The query is answered.
    fn answered(&self, number: u64);
}

/// A gate that holds no worker.
#[derive(Clone, Copy)]
pub struct OpenGate;

impl Gate for OpenGate {
    fn asked(&self, _number: u64) {}

    fn answered(&self, _number: u64) {}
}
