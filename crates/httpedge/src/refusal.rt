ghost use Rattle.std.specs.Prelude.{◌≡◌};
ghost use Rattle.httpedge.specs.Response.{status_of};

use http::StatusCode;

/// Why a request has no query for the answerer.
#[derive(Clone, Copy, Debug)]
pub enum Refusal {
    /// There is no head, or it announces a body.
    BadRequest,
    /// Its target has a path that isn't served.
    NotFound,
    /// Its method isn't GET.
    MethodNotAllowed,
}

impl Refusal {
    /// The status of its response.
    pub fn status(self) -> StatusCode
        ensures { result ≡ status_of self }
    {
        match self {
            Refusal::BadRequest => StatusCode::BAD_REQUEST,
            Refusal::NotFound => StatusCode::NOT_FOUND,
            Refusal::MethodNotAllowed => StatusCode::METHOD_NOT_ALLOWED,
        }
    }
}
