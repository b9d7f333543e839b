use crate::Verb;
use cell_value::{Items, NoMemory, Text};
use std::alloc::AllocError;
use std::error::Error;
use std::fmt;

/// Which call of the API a request is.
#[derive(Debug, Drop)]
pub struct Route {
    /// The call.
    pub verb: Verb,
    /// The id of the spreadsheet; empty where the path has none.
    pub book: Text,
    /// The range; empty where the path has none.
    pub range: Text,
    /// The id of the item of metadata; empty where the path has none.
    pub id: Text,
    /// The names and the values of the query's members, in order.
    pub query: Items<(Text, Text)>,
}

/// Why a request is no call.
#[derive(Clone, Copy, Debug, PartialEq, Eq)]
pub enum RouteFault {
    /// No call has the method and the path.
    NoRoute,
    /// The query has a member that the call doesn't take, a name twice, or a value that the member
    /// may not have, or it lacks one.
    BadQuery,
    /// Memory ran out.
    NoMemory,
}

impl fmt::Display for RouteFault {
    ghost use Rattle.std.specs.Prelude.{Some};
    ghost use Rattle.sheets_http.specs.Faults.{route_fault_text};

    ghost output = { λ fault. Some (route_fault_text fault) };

    fn fmt<W: fmt::Write>(&self, f: &mut fmt::Formatter<W>) -> fmt::Result {
        f.write_str(match self {
            RouteFault::NoRoute => "no call has the method and the path",
            RouteFault::BadQuery => "the call doesn't take the query",
            RouteFault::NoMemory => "no memory",
        })
    }
}

impl Error for RouteFault {}

impl From<NoMemory> for RouteFault {
    ghost use Rattle.std.specs.Prelude.{◌≡◌};
    ghost use Rattle.sheets_http.specs.declared.routes.RouteFault.{RouteFault};

    ghost from_gives = { λ _ fault. fault ≡ RouteFault.NoMemory };

    fn from(_none: NoMemory) -> RouteFault {
        RouteFault::NoMemory
    }
}

impl From<AllocError> for RouteFault {
    ghost use Rattle.std.specs.Prelude.{◌≡◌};
    ghost use Rattle.sheets_http.specs.declared.routes.RouteFault.{RouteFault};

    ghost from_gives = { λ _ fault. fault ≡ RouteFault.NoMemory };

    fn from(_error: AllocError) -> RouteFault {
        RouteFault::NoMemory
    }
}
