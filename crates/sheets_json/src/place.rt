use std::fmt;

/// What a refusal speaks of: the call, or a member of one of its lists, counted from 0. It is printed in
/// the message of the refusal, before the name of the rule.
#[derive(Clone, Copy, Debug, PartialEq, Eq)]
pub enum Place {
    /// The call.
    Alone,
    /// A request of a batch.
    Requests(u64),
    /// A range of values of a write.
    Data(u64),
    /// A range of a read or a clear.
    Ranges(u64),
    /// A filter.
    Filters(u64),
}

impl fmt::Display for Place {
    ghost use Rattle.std.specs.Prelude.{Some};
    ghost use Rattle.sheets_json.specs.Faults.{place_text};

    ghost output = { λ place. Some (place_text place) };

    fn fmt<W: fmt::Write>(&self, f: &mut fmt::Formatter<W>) -> fmt::Result {
        match self {
            Place::Alone => f.write_str(""),
            Place::Requests(at) => write!(f, "requests[{at}]: "),
            Place::Data(at) => write!(f, "data[{at}]: "),
            Place::Ranges(at) => write!(f, "ranges[{at}]: "),
            Place::Filters(at) => write!(f, "dataFilters[{at}]: "),
        }
    }
}
