use cell_value::NoMemory;
use std::error::Error;
use std::fmt;

/// Why a formula is not read, or its tree is not told.
#[derive(Clone, Copy, Debug, PartialEq, Eq)]
pub enum FormulaFault {
    /// It has more than 512 tokens.
    Tokens,
    /// It has more than 64 references and words.
    References,
    /// It has more than 32 brackets open at once.
    Depth,
    /// Memory ran out.
    NoMemory,
}

impl fmt::Display for FormulaFault {
    ghost use Rattle.std.specs.Prelude.{Some};
    ghost use Rattle.formula_reader.specs.Faults.{fault_text};

    ghost output = { λ fault. Some (fault_text fault) };

    fn fmt<W: fmt::Write>(&self, f: &mut fmt::Formatter<W>) -> fmt::Result {
        f.write_str(match self {
            FormulaFault::Tokens => "more than 512 tokens",
            FormulaFault::References => "more than 64 references and words",
            FormulaFault::Depth => "more than 32 brackets open at once",
            FormulaFault::NoMemory => "no memory",
        })
    }
}

impl Error for FormulaFault {}

impl From<NoMemory> for FormulaFault {
    ghost use Rattle.std.specs.Prelude.{◌≡◌};
    ghost use Rattle.formula_reader.specs.declared.fault.FormulaFault.TheVariants as fault;

    ghost from_gives = { λ _ e. e ≡ fault.NoMemory };

    fn from(_error: NoMemory) -> FormulaFault {
        FormulaFault::NoMemory
    }
}
