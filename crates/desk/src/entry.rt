use cell_value::{Bytes, Text};

/// An accepted call, as the history and the journal have it.
#[derive(Debug, Drop)]
pub struct Entry {
    /// The number of the pass that made the call.
    pub caller: u32,
    /// Who made it.
    pub user: Text,
    /// The project that it was made for; empty where it named none.
    pub project: Text,
    /// The method, a space and the request target.
    pub target: Text,
    /// The body.
    pub body: Bytes,
}

/// A call that is asked for.
#[derive(Debug, Drop)]
pub struct Ask {
    /// Who asks, where that is known.
    pub user: Option<Text>,
    /// The project that it is made for; empty where it names none.
    pub project: Text,
    /// The method, a space and the request target.
    pub target: Text,
    /// Whether the body has a coding, as gzip (RFC 9110, section 8.4).
    pub coded: bool,
    /// The body.
    pub body: Bytes,
}

/// What a call is answered, and where in the history.
#[derive(Debug, Drop)]
pub struct Reply {
    /// The status of the response (RFC 9110, section 15).
    pub status: u16,
    /// Its body; none exactly for 507, whose response is constant.
    pub body: Option<Bytes>,
    /// How many entries the history had at that point, the call's own aside.
    pub at: u64,
    /// How often the keeper had failed before the call, and after it.
    pub faults: (u64, u64),
}

/// An item of the list that a desk tells.
#[derive(Debug, Drop)]
pub enum Noted {
    /// A call that was accepted.
    Entry(Entry),
    /// A call that was answered 503: the entry that it would have made, and how often the keeper had failed before it
    /// and after it.
    Mark(Entry, u64, u64),
}
