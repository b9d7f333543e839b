use cell_value::Text;
use grid_range::Band;
use ref_rewrite::Marks;

/// An operator between two operands (Google Docs Editors Help, "Using arithmetic formulas in Sheets").
#[derive(Clone, Copy, Debug, PartialEq, Eq)]
pub enum Operator {
    /// `=`
    Equal,
    /// `<>`
    NotEqual,
    /// `<`
    Less,
    /// `<=`
    AtMost,
    /// `>`
    Greater,
    /// `>=`
    AtLeast,
    /// `&`
    Join,
    /// `+`
    Add,
    /// `-`
    Subtract,
    /// `*`
    Multiply,
    /// `/`
    Divide,
}

/// What a reference names on its sheet, with its corners in order (the A1 notation of the Google
/// Sheets API v4 guide), and the coordinates with a `$`.
#[derive(Clone, Copy, Debug, PartialEq, Eq)]
pub struct MarkedArea {
    /// The rows, counted from 0.
    pub rows: Band,
    /// The columns, counted from 0.
    pub cols: Band,
    /// The coordinates with a `$`; a coordinate that isn't written has none.
    pub marks: Marks,
}

/// A token of a formula text.
#[derive(Debug, Drop)]
pub enum Token {
    /// A reference to cells of the formula's own sheet.
    Reference(MarkedArea),
    /// A reference to cells of the sheet with this title.
    TitledReference(Text, MarkedArea),
    /// The name of a function; its opening bracket is the next token.
    Function(Text),
    /// A word that is none of these: a named range is called so, if any is.
    Word(Text),
    /// A truth value.
    Truth(bool),
    /// A whole number within 2^53.
    Number(i64),
    /// A text, without its quotes.
    Text(Text),
    /// `#REF!`
    Lost,
    /// An operator; `+` and `-` stand before an operand, too.
    Operator(Operator),
    /// `(`
    Open,
    /// `)`
    Close,
    /// `,`
    Comma,
}

/// A token and where it stands in its text: from the byte `start` to the one before `end`, counted
/// from 0.
#[derive(Debug, Drop)]
pub struct Placed {
    pub start: usize,
    pub end: usize,
    pub token: Token,
}
