use cell_value::NoMemory;
use std::alloc::AllocError;
use std::error::Error;
use std::fmt;

/// A rule that a request breaks. Rules are tried in this order, and a refusal names the first that is
/// broken; what is printed of one is the message of the refusal.
#[derive(Clone, Copy, Debug, PartialEq, Eq)]
pub enum Rule {
    /// The request isn't of the shape that its kind has.
    BadShape,
    /// The kind, or a member of it, isn't one that is served.
    Unsupported,
    /// A number isn't whole, or is past 2^53 either way.
    BadNumber,
    /// A text is longer than one that a cell takes.
    TextLong,
    /// No sheet has the id, or the title of a range text.
    NoSheet,
    /// A range text names nothing, or a start isn't below its end.
    BadRange,
    /// The first line of an area isn't there.
    OutsideGrid,
    /// Nothing has the id.
    NoId,
    /// A given id is in use.
    IdTaken,
    /// The text can't be a name or a title.
    BadName,
    /// Another one has the name or the title, whatever the case of its ASCII letters.
    NameTaken,
    /// There is no line before the first from which an inserted line could inherit.
    InheritAtZero,
    /// A sheet would have no row or no column.
    LastLine,
    /// No visible sheet would be left.
    LastSheet,
    /// A limit would be passed.
    PastLimit(Limit),
    /// Values need a line past those that they may be written to.
    ValuesPastRange,
    /// A merge would be cut.
    MergeCut,
    /// Developer metadata can't be looked up so.
    BadLookup,
    /// A protected range, of which this is the id, denies a cell.
    Protected(u32),
    /// The user may not edit the protected range.
    NotEditor,
}

/// What there can be only so many of; the limits are tried in this order.
#[derive(Clone, Copy, Debug, PartialEq, Eq)]
pub enum Limit {
    /// Spreadsheets.
    Books,
    /// Sheets of a spreadsheet.
    Sheets,
    /// Rows of a sheet.
    Rows,
    /// Columns of a sheet.
    Columns,
    /// Places of a spreadsheet's sheets.
    Cells,
    /// Cells of a spreadsheet in which something is stored.
    Filled,
    /// Formulas of a spreadsheet.
    Formulas,
    /// Tokens of a formula.
    Tokens,
    /// References and words of a formula.
    References,
    /// Brackets of a formula that are open at once.
    Depth,
    /// Merges of a sheet.
    Merges,
    /// Named ranges of a spreadsheet.
    Names,
    /// Protected ranges of a spreadsheet.
    Protections,
    /// Developer metadata of a spreadsheet.
    Metadata,
}

/// Why a request isn't done.
#[derive(Clone, Copy, Debug, PartialEq, Eq)]
pub enum RuleOr {
    /// It breaks a rule.
    Rule(Rule),
    /// Memory ran out.
    NoMemory,
}

impl Limit {
    ghost use Rattle.std.specs.Prelude.{◌≡◌};
    ghost use Rattle.dimension_ops.specs.Rules.{limit_word};

    /// The limit's word, as a refusal names it.
    pub fn word(self) -> &'static str
        ensures { result.now ≡ limit_word self }
    {
        match self {
            Limit::Books => "books",
            Limit::Sheets => "sheets",
            Limit::Rows => "rows",
            Limit::Columns => "columns",
            Limit::Cells => "cells",
            Limit::Filled => "filled",
            Limit::Formulas => "formulas",
            Limit::Tokens => "tokens",
            Limit::References => "references",
            Limit::Depth => "depth",
            Limit::Merges => "merges",
            Limit::Names => "names",
            Limit::Protections => "protections",
            Limit::Metadata => "metadata",
        }
    }
}

impl fmt::Display for Rule {
    ghost use Rattle.std.specs.Prelude.{Some};
    ghost use Rattle.dimension_ops.specs.Rules.{rule_text};

    ghost output = { λ rule. Some (rule_text rule) };

    fn fmt<W: fmt::Write>(&self, f: &mut fmt::Formatter<W>) -> fmt::Result {
        match self {
            Rule::BadShape => f.write_str("BadShape"),
            Rule::Unsupported => f.write_str("Unsupported"),
            Rule::BadNumber => f.write_str("BadNumber"),
            Rule::TextLong => f.write_str("TextLong"),
            Rule::NoSheet => f.write_str("NoSheet"),
            Rule::BadRange => f.write_str("BadRange"),
            Rule::OutsideGrid => f.write_str("OutsideGrid"),
            Rule::NoId => f.write_str("NoId"),
            Rule::IdTaken => f.write_str("IdTaken"),
            Rule::BadName => f.write_str("BadName"),
            Rule::NameTaken => f.write_str("NameTaken"),
            Rule::InheritAtZero => f.write_str("InheritAtZero"),
            Rule::LastLine => f.write_str("LastLine"),
            Rule::LastSheet => f.write_str("LastSheet"),
            Rule::PastLimit(limit) => {
                f.write_str("PastLimit ")?;
                f.write_str(limit.word())
            }
            Rule::ValuesPastRange => f.write_str("ValuesPastRange"),
            Rule::MergeCut => f.write_str("MergeCut"),
            Rule::BadLookup => f.write_str("BadLookup"),
            Rule::Protected(id) => {
                f.write_str("Protected ")?;
                write!(f, "{id}")
            }
            Rule::NotEditor => f.write_str("NotEditor"),
        }
    }
}

impl Error for Rule {}

impl fmt::Display for RuleOr {
    ghost use Rattle.std.specs.Prelude.{Some};
    ghost use Rattle.dimension_ops.specs.Rules.{refusal_text};

    ghost output = { λ fault. Some (refusal_text fault) };

    fn fmt<W: fmt::Write>(&self, f: &mut fmt::Formatter<W>) -> fmt::Result {
        match self {
            RuleOr::Rule(rule) => write!(f, "{rule}"),
            RuleOr::NoMemory => f.write_str("NoMemory"),
        }
    }
}

impl Error for RuleOr {}

impl From<Rule> for RuleOr {
    ghost use Rattle.std.specs.Prelude.{◌≡◌};
    ghost use Rattle.dimension_ops.specs.declared.rule.RuleOr.TheVariants.{Rule as broken};

    ghost from_gives = { λ rule fault. fault ≡ broken rule };

    fn from(rule: Rule) -> RuleOr {
        RuleOr::Rule(rule)
    }
}

impl From<NoMemory> for RuleOr {
    ghost use Rattle.std.specs.Prelude.{◌≡◌};
    ghost use Rattle.dimension_ops.specs.declared.rule.RuleOr.TheVariants.{NoMemory as out_of_memory};

    ghost from_gives = { λ _ fault. fault ≡ out_of_memory };

    fn from(_none: NoMemory) -> RuleOr {
        RuleOr::NoMemory
    }
}

impl From<AllocError> for RuleOr {
    ghost use Rattle.std.specs.Prelude.{◌≡◌};
    ghost use Rattle.dimension_ops.specs.declared.rule.RuleOr.TheVariants.{NoMemory as out_of_memory};

    ghost from_gives = { λ _ fault. fault ≡ out_of_memory };

    fn from(_error: AllocError) -> RuleOr {
        RuleOr::NoMemory
    }
}
