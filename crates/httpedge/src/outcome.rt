ghost use Rattle.std.specs.Prelude.{◌≡◌};
ghost use Rattle.httpedge.specs.Response.{outcome_status};

use crate::Refusal;
use answers::Answer;
use http::StatusCode;

/// What is written to a client.
#[derive(Drop)]
pub enum Outcome {
    /// The answer to its query.
    Answered(Answer),
    /// The refusal of its request.
    Refused(Refusal),
    /// The server is busy: its query can't be answered now.
    Busy,
}

impl Outcome {
    /// The status of its response.
    pub fn status(&self) -> u16
        ensures { result ≡ outcome_status self.now }
    {
        match self {
            Outcome::Answered(_) => StatusCode::OK.as_u16(),
            Outcome::Refused(refusal) => refusal.status().as_u16(),
            Outcome::Busy => StatusCode::SERVICE_UNAVAILABLE.as_u16(),
        }
    }
}
