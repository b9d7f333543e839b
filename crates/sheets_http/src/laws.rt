ghost use Rattle.sheets_http.specs.Laws.{HasOneNext, HasOneTalk, KeepsRequests, HasTalk, TakesBytes, HoldsRequests};
ghost use Rattle.sheets_http.specs.Routes.{HasOneCall};
ghost use Rattle.sheets_http.specs.RouteLaws.{HasRoute};

/// The laws of a conversation, as its contract has them: one thing comes next in a stream, it has
/// one list of requests and one end, a longer stream keeps the requests of a shorter one, the bytes
/// of a request with what stands behind it are the stream, and so are the bytes of all requests with
/// what is left. It does nothing when it runs.
pub fn conversation_laws()
    ensures one_next { HasOneNext }
    ensures one_talk { HasOneTalk }
    ensures has_talk { HasTalk }
    ensures longer { KeepsRequests }
    ensures parts { TakesBytes }
    ensures whole { HoldsRequests }
{}

/// At most one line of the table of calls has the method and the path of a request. It does nothing
/// when it runs.
pub fn one_call()
    ensures { HasOneCall }
{}

/// No request line is without a route, or one of the faults of a request line. It does nothing when it runs.
#[tactic(auto, using(crate::proofs::HasRoute::has_route))]
pub fn has_route()
    ensures { HasRoute }
{}
