use cell_value::{Bytes, Text};
use std::error::Error;
use std::fmt;

/// A request as it came: its request line, what its head says that matters, and its body.
#[derive(Debug, Drop)]
pub struct Wire {
    /// The method, as it stands (RFC 9110, section 9).
    pub method: Text,
    /// The request target, as it stands (RFC 9112, section 3.2).
    pub target: Text,
    /// The token that it comes with, where it has one (RFC 6750, section 2.1).
    pub user_token: Option<Text>,
    /// The project that it is made for; empty where it names none.
    pub project: Text,
    /// Whether its body has a coding, as gzip (RFC 9110, section 8.4).
    pub coded: bool,
    /// Whether the connection is closed after it (RFC 9112, section 9.6).
    pub close: bool,
    /// The body.
    pub body: Bytes,
}

/// Why a head is refused. The connection is closed after it, since what follows can't be told apart.
#[derive(Clone, Copy, Debug, PartialEq, Eq)]
pub enum HeadFault {
    /// It has no end within 16,384 bytes and 66 lines.
    HeadLong,
    /// It breaks the grammar, or tells the length of its body in no form or twice.
    BadHead,
    /// It is a POST or PUT without a length, or its body has a transfer coding.
    NoLength,
    /// Its body has more than 8,388,608 bytes.
    BodyLong,
}

impl fmt::Display for HeadFault {
    ghost use Rattle.std.specs.Prelude.{Some};
    ghost use Rattle.sheets_http.specs.Faults.{head_fault_text};

    ghost output = { λ fault. Some (head_fault_text fault) };

    fn fmt<W: fmt::Write>(&self, f: &mut fmt::Formatter<W>) -> fmt::Result {
        f.write_str(match self {
            HeadFault::HeadLong => "the head is too long",
            HeadFault::BadHead => "the head is malformed",
            HeadFault::NoLength => "the length of the body is missing",
            HeadFault::BodyLong => "the body is too long",
        })
    }
}

impl Error for HeadFault {}

/// What comes next in a conversation.
#[derive(Debug, Drop)]
pub enum Next {
    /// A whole request.
    Request(Wire),
    /// The stream ended where no request has begun.
    End,
    /// A head was refused, and what follows isn't read.
    Closed(HeadFault),
    /// The stream ended inside a request, of which it has so many bytes.
    Truncated(u64),
    /// The conversation reached its bound in bytes.
    LongTalk,
    /// The source failed; its count of faults rose in this call.
    ReadFault,
    /// Memory ran out.
    NoMemory,
}
