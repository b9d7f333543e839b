ghost use Rattle.std.specs.Prelude.{◌≡◌};
ghost use Rattle.sheets_json.specs.Refusals.{IsRefusal};
ghost use Rattle.sheet_engine.specs.Answers.{status_of_rule, status_of_fault};

use dimension_ops::Rule;
use sheets_json::Place;
use std::error::Error;
use std::fmt;

/// Why an ask isn't answered; what it prints is the message of its refusal.
#[derive(Clone, Copy, Debug, PartialEq, Eq)]
pub enum Fault {
    /// Nobody is known who asks.
    NoUser,
    /// No call has the method and the path.
    NoRoute,
    /// The call doesn't take the query.
    BadQuery,
    /// No spreadsheet has the id.
    NoBook,
    /// The body isn't that of the call.
    BadBody,
    /// The call names nothing to be done.
    EmptyBatch,
    /// The call, or its member at the place, breaks the rule.
    Broken(Place, Rule),
}

impl Fault {
    /// The status of its refusal (RFC 9110, section 15.5).
    pub(crate) fn status(self) -> u16
        ensures status { result ≡ status_of_fault self }
        ensures refusal { IsRefusal result }
    {
        match self {
            Fault::NoUser => 401,
            Fault::NoRoute | Fault::NoBook => 404,
            Fault::BadQuery | Fault::BadBody | Fault::EmptyBatch => 400,
            Fault::Broken(_, rule) => status_of_rule(rule),
        }
    }
}

/// The status of the refusal of a call that breaks the rule.
fn status_of_rule(rule: Rule) -> u16
    ensures status { result ≡ status_of_rule rule }
    ensures refusal { IsRefusal result }
{
    match rule {
        Rule::Protected(_) | Rule::NotEditor => 403,
        _ => 400,
    }
}

impl fmt::Display for Fault {
    ghost use Rattle.std.specs.Prelude.{Some};
    ghost use Rattle.sheet_engine.specs.Answers.{message_of};

    ghost output = { λ fault. Some (message_of fault) };

    fn fmt<W: fmt::Write>(&self, f: &mut fmt::Formatter<W>) -> fmt::Result {
        match self {
            Fault::NoUser => f.write_str("NoUser"),
            Fault::NoRoute => f.write_str("NoRoute"),
            Fault::BadQuery => f.write_str("BadQuery"),
            Fault::NoBook => f.write_str("NoBook"),
            Fault::BadBody => f.write_str("BadBody"),
            Fault::EmptyBatch => f.write_str("EmptyBatch"),
            Fault::Broken(place, rule) => write!(f, "{place}{rule}"),
        }
    }
}

impl Error for Fault {}
