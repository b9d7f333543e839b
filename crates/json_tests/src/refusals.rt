ghost use Rattle.sheets_json.specs.Refusals.{IsRefusal};

use crate::common::{check, joined};
use sheets_json::{Place, refusal_text};
use std::alloc::Global;

/// Whether a refusal has that code, in decimal, that message, and that name of its status.
fn is_refusal(alloc: Global, status: u16, code: &str, message: &str, name: &str) -> bool
    requires { IsRefusal status }
{
    let front = joined(alloc, "{\"error\":{\"code\":", code, ",\"message\":\"");
    let message_and_name = joined(alloc, message, "\",\"status\":\"", name);
    let wanted = joined(alloc, front.as_str(), message_and_name.as_str(), "\"}}");
    match refusal_text(alloc, status, message) {
        Ok(text) => text.as_slice() == wanted.as_bytes(),
        Err(_) => false,
    }
}

#[test]
fn faults_of_requests_have_names(rt: HostRuntime) {
    let alloc = rt.alloc();
    let message = "requests[1]: OutsideGrid";
    let holds = is_refusal(alloc, 400, "400", message, "INVALID_ARGUMENT");
    check(&rt, &400, holds);
    let holds = is_refusal(alloc, 401, "401", "NoUser", "UNAUTHENTICATED");
    check(&rt, &401, holds);
    let holds = is_refusal(alloc, 403, "403", "Protected 1", "PERMISSION_DENIED");
    check(&rt, &403, holds);
    let holds = is_refusal(alloc, 404, "404", "NoBook", "NOT_FOUND");
    check(&rt, &404, holds);
}

#[test]
fn limits_and_shortages_have_names(rt: HostRuntime) {
    let alloc = rt.alloc();
    let holds = is_refusal(alloc, 413, "413", "BodyLong", "BODY_TOO_LARGE");
    check(&rt, &413, holds);
    let holds = is_refusal(alloc, 429, "429", "HistoryFull", "RESOURCE_EXHAUSTED");
    check(&rt, &429, holds);
    let holds = is_refusal(alloc, 431, "431", "HeadLong", "HEAD_TOO_LARGE");
    check(&rt, &431, holds);
    let holds = is_refusal(alloc, 503, "503", "Unavailable", "UNAVAILABLE");
    check(&rt, &503, holds);
    let holds = is_refusal(alloc, 507, "507", "NoMemory", "OUT_OF_MEMORY");
    check(&rt, &507, holds);
}

/// Places, and what they print in the message of a refusal.
static PLACES: [(Place, &str); 5] = [
    (Place::Alone, ""),
    (Place::Requests(1), "requests[1]: "),
    (Place::Data(0), "data[0]: "),
    (Place::Ranges(20), "ranges[20]: "),
    (Place::Filters(0), "dataFilters[0]: "),
];

/// Whether a place prints so.
fn is_printed(alloc: Global, place: Place, wanted: &str) -> bool {
    match format!(in alloc; "{place}") {
        Ok(printed) => printed.as_str() == wanted,
        Err(_) => false,
    }
}

#[test]
fn places_are_printed(rt: HostRuntime) {
    for row in &PLACES {
        let holds = is_printed(rt.alloc(), row.0, row.1);
        check(&rt, row, holds);
    }
}
