ghost use Rattle.std.specs.Prelude.{◌≡◌};
ghost use Rattle.operations.specs.Operation.{name_of};

/// The operation that a query requests.
#[derive(Clone, Copy, Debug)]
pub enum Operation {
    /// The document that says what the service offers.
    Capabilities,
    /// A picture of the map.
    Map,
    /// The features that are seen near a pixel of a picture.
    Information,
}

impl Operation {
    /// The name of the operation.
    #[tactic(auto, unfolding(crate::specs::Operation::name_of))]
    pub fn name(self) -> &'static str
        ensures { result.now ≡ name_of self }
    {
        match self {
            Operation::Capabilities => "GetCapabilities",
            Operation::Map => "GetMap",
            Operation::Information => "GetFeatureInfo",
        }
    }
}
