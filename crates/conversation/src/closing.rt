ghost use Rattle.std.specs.Prelude.{◌≡◌, IfOk};
ghost use Rattle.sheets_http.specs.Responses.{IsServedStatus};
ghost use Rattle.sheets_json.specs.Refusals.{IsRefusal};
ghost use Rattle.conversation.specs.Responses.{no_memory_text, closing_text, status_of_head, message_of_head};

use cell_value::{Bytes, NoMemory};
use sheets_http::{HeadFault, no_memory_response, response_text};
use sheets_json::refusal_text;
use std::alloc::Global;

/// The response where memory runs out, for which none is taken.
pub(crate) fn no_memory_reply(close: bool) -> &'static [u8]
    ensures { result.now ≡ no_memory_text close }
{
    no_memory_response(close)
}

/// The response that closes a conversation at a refused head.
///
/// # Errors
///
/// [`NoMemory`] where memory runs out.
pub(crate) fn closing_reply(alloc: Global, refused: HeadFault) -> Result<Bytes, NoMemory>
    ensures { IfOk result (λ response. response ≡ closing_text refused) }
{
    let body = refusal_text(alloc, head_status(refused), head_message(refused))?;
    response_text(alloc, head_status(refused), true, body.as_slice())
}

/// The status of the refusal of a head (RFC 9110, sections 15.5.1 and 15.5.14; RFC 6585, section 5).
fn head_status(refused: HeadFault) -> u16
    ensures status { result ≡ status_of_head refused }
    ensures served { IsServedStatus result }
    ensures refusal { IsRefusal result }
{
    match refused {
        HeadFault::HeadLong => 431,
        HeadFault::BadHead | HeadFault::NoLength => 400,
        HeadFault::BodyLong => 413,
    }
}

/// The message of the refusal of a head.
fn head_message(refused: HeadFault) -> &'static str
    ensures { result.now ≡ message_of_head refused }
{
    match refused {
        HeadFault::HeadLong => "HeadLong",
        HeadFault::BadHead => "BadHead",
        HeadFault::NoLength => "NoLength",
        HeadFault::BodyLong => "BodyLong",
    }
}
