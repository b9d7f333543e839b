ghost use Rattle.std.specs.Prelude.{◌≡◌};
ghost use Rattle.json_shapes.specs.Reading.{first_of, both, or_bad_shape};

use std::error::Error;
use std::fmt;

/// Why a JSON value isn't what a request asks for. The first of them that a value has is told; what is
/// printed of one is the message of the refusal.
#[derive(Clone, Copy, Debug, PartialEq, Eq)]
pub enum ShapeFault {
    /// A member that is required is missing, or a value has a wrong type or form.
    BadShape,
    /// A member isn't one of those that are known.
    Unsupported,
    /// A number that is entered isn't whole within 2^53 either way.
    BadNumber,
    /// A text that is entered has more than 50,000 bytes.
    TextLong,
}

impl fmt::Display for ShapeFault {
    ghost use Rattle.std.specs.Prelude.{Some};
    ghost use Rattle.json_shapes.specs.Faults.{shape_fault_text};

    ghost output = { λ fault. Some (shape_fault_text fault) };

    fn fmt<W: fmt::Write>(&self, f: &mut fmt::Formatter<W>) -> fmt::Result {
        f.write_str(match self {
            ShapeFault::BadShape => "BadShape",
            ShapeFault::Unsupported => "Unsupported",
            ShapeFault::BadNumber => "BadNumber",
            ShapeFault::TextLong => "TextLong",
        })
    }
}

impl Error for ShapeFault {}

impl ShapeFault {
    /// The first of two faults by the order of the rules.
    pub fn first_of(self, other: ShapeFault) -> ShapeFault
        ensures { result ≡ first_of self other }
    {
        match self {
            ShapeFault::BadShape => self,
            ShapeFault::Unsupported => match other {
                ShapeFault::BadShape => other,
                ShapeFault::Unsupported | ShapeFault::BadNumber | ShapeFault::TextLong => self,
            },
            ShapeFault::BadNumber => match other {
                ShapeFault::BadShape | ShapeFault::Unsupported => other,
                ShapeFault::BadNumber | ShapeFault::TextLong => self,
            },
            ShapeFault::TextLong => other,
        }
    }
}

/// What is read of a JSON value: what it says, or its first fault.
pub type Read<T> = Result<T, ShapeFault>;

/// Two parts of a value, each of which is judged.
pub fn both<A: Drop, B: Drop>(one: Read<A>, other: Read<B>) -> Read<(A, B)>
    ensures { result ≡ both one other }
{
    match one {
        Ok(a) => match other {
            Ok(b) => Ok((a, b)),
            Err(fault) => Err(fault),
        },
        Err(fault) => match other {
            Ok(_) => Err(fault),
            Err(more) => Err(fault.first_of(more)),
        },
    }
}

/// What is there, or else the value has a wrong form.
pub fn or_bad_shape<T>(found: Option<T>) -> Read<T>
    ensures { result ≡ or_bad_shape found }
{
    match found {
        Some(value) => Ok(value),
        None => Err(ShapeFault::BadShape),
    }
}
