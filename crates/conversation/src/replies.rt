ghost use Rattle.std.specs.Prelude.{◌≡◌, ℕ, List};
ghost use Rattle.sheets_http.specs.declared.request.Wire.{Wire};
ghost use Rattle.conversation.specs.Responses.{IsSaid};

use cell_value::Bytes;
use sheets_http::Wire;
use std::sync::Wait;

/// What is said to a request.
#[derive(Debug, Drop)]
pub enum Said {
    /// This response, with its head.
    Response(Bytes),
    /// The constant response for want of memory, with the status 507.
    Constant,
    /// The call was done, but no memory was left for its response.
    Lost,
}

/// Who answers requests, each at a point of what is told, as that of a history.
pub trait Replies {
    /// What no request changes, as who asks and where.
    type Context;

    /// What a request may change, or what is seen to have changed meanwhile.
    type Point;

    /// What no request changes.
    ghost about: { Self → Self.Context };

    /// The point at which the next request is answered.
    ghost at: { Self → Self.Point };

    /// A request may be answered at a point by this response, and the next one at the other point. The constant
    /// response for want of memory is one, where it is answered.
    ghost answers: { Self.Context → Self.Point → Wire → Self.Point → List ℕ → Type 0 };

    /// Answers a request.
    fn reply<R: Wait>(self, rt: &R, request: Wire) -> (Self, Said)
        ensures same { about result.0 ≡ about self }
        ensures said { IsSaid (answers (about self) (at self) request (at result.0)) request.close result.1 };
}
