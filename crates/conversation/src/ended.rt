use sheets_http::HeadFault;

/// How a conversation ended.
#[derive(Clone, Copy, Debug, PartialEq, Eq)]
pub enum Ended {
    /// The stream was read to its end.
    End,
    /// A request asked for the end.
    Asked,
    /// A head was refused.
    Closed(HeadFault),
    /// The stream ended inside a request, of which it has so many bytes.
    Truncated(u64),
    /// The conversation reached its bound in bytes.
    LongTalk,
    /// The source failed.
    ReadFault,
    /// The sink failed.
    WriteFault,
    /// Memory ran out.
    NoMemory,
}
