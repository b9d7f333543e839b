ghost use Rattle.std.specs.Prelude.{◌≡◌};
ghost use Rattle.cell_calc.specs.FunctionNames.{takes_any};

/// A function of formulas (Google Docs Editors Help, "Google Sheets function list"), by its name there.
#[derive(Clone, Copy, Debug, PartialEq, Eq)]
pub enum Function {
    /// `SUM`
    Sum,
    /// `MIN`
    Min,
    /// `MAX`
    Max,
    /// `COUNT`
    Count,
    /// `COUNTA`
    CountA,
    /// `IF`
    If,
    /// `AND`
    And,
    /// `OR`
    Or,
    /// `NOT`
    Not,
    /// `ABS`
    Abs,
    /// `SIGN`
    Sign,
    /// `MOD`
    Mod,
    /// `QUOTIENT`
    Quotient,
    /// `LEN`
    Len,
    /// `LEFT`
    Left,
    /// `RIGHT`
    Right,
    /// `MID`
    Mid,
    /// `CONCATENATE`
    Concatenate,
    /// `EXACT`
    Exact,
    /// `INDEX`
    Index,
    /// `MATCH`
    Match,
    /// `COUNTIF`
    CountIf,
    /// `SUMIF`
    SumIf,
    /// `ROWS`
    Rows,
    /// `COLUMNS`
    Columns,
    /// `ISBLANK`
    IsBlank,
    /// `ISNUMBER`
    IsNumber,
    /// `ISTEXT`
    IsText,
    /// `ISERROR`
    IsError,
    /// `IFERROR`
    IfError,
}

impl Function {
    /// Whether the function takes any number of arguments but none.
    pub(super) fn takes_any(self) -> bool
        ensures { result ≡ takes_any self }
    {
        match self {
            Function::Sum
            | Function::Min
            | Function::Max
            | Function::Count
            | Function::CountA
            | Function::And
            | Function::Or
            | Function::Concatenate => true,
            Function::If
            | Function::Not
            | Function::Abs
            | Function::Sign
            | Function::Mod
            | Function::Quotient
            | Function::Len
            | Function::Left
            | Function::Right
            | Function::Mid
            | Function::Exact
            | Function::Index
            | Function::Match
            | Function::CountIf
            | Function::SumIf
            | Function::Rows
            | Function::Columns
            | Function::IsBlank
            | Function::IsNumber
            | Function::IsText
            | Function::IsError
            | Function::IfError => false,
        }
    }
}
