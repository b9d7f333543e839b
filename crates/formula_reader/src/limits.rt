ghost use Rattle.std.specs.Prelude.{◌≡◌, ◌<◌, max};
ghost use Rattle.std.specs.List.{count_by};
ghost use Rattle.formula_reader.specs.Limits.{names_cells, depth_behind, deepest, first_passed};

use crate::fault::FormulaFault;
use crate::symbols::Symbol;
use crate::tokens::{Placed, Token};

/// The most tokens that a formula has.
pub const TOKENS: usize = 512;

/// The most references and words that a formula has.
pub const REFERENCES: usize = 64;

/// The most brackets that are open at once in a formula.
pub const DEPTH: usize = 32;

/// What the limits count of a token.
#[derive(Clone, Copy)]
pub(crate) enum Counted {
    /// A reference or a word.
    Cells,
    /// `(`
    Opens,
    /// `)`
    Closes,
    /// Any other token.
    Other,
}

/// What the limits are counted on: the tokens of a text, or the symbols of a formula.
pub(crate) trait Limited {
    ghost use Rattle.std.specs.Prelude.{◌≡◌};
    ghost use Rattle.formula_reader.specs.declared.limits.Counted.{Counted};

    /// What the limits count of it.
    ghost counts_as: { Self → Counted };

    fn counted(&self) -> Counted
        ensures { result ≡ counts_as self.now };
}

impl Limited for Placed {
    ghost use Rattle.formula_reader.specs.Limits.{counted_token};

    ghost counts_as = { λ placed. counted_token placed.token };

    fn counted(&self) -> Counted {
        match &self.token {
            Token::Reference(_) | Token::TitledReference(_, _) | Token::Word(_) => Counted::Cells,
            Token::Open => Counted::Opens,
            Token::Close => Counted::Closes,
            Token::Function(_)
            | Token::Truth(_)
            | Token::Number(_)
            | Token::Text(_)
            | Token::Lost
            | Token::Operator(_)
            | Token::Comma => Counted::Other,
        }
    }
}

impl Limited for Symbol {
    ghost use Rattle.formula_reader.specs.Limits.{counted_symbol};

    ghost counts_as = { counted_symbol };

    fn counted(&self) -> Counted {
        match self {
            Symbol::Ref(_) | Symbol::Word(_) => Counted::Cells,
            Symbol::Open => Counted::Opens,
            Symbol::Close => Counted::Closes,
            Symbol::Function(_)
            | Symbol::Truth(_)
            | Symbol::Number(_)
            | Symbol::Text(_)
            | Symbol::Lost
            | Symbol::Operator(_)
            | Symbol::Comma => Counted::Other,
        }
    }
}

impl Counted {
    /// Whether a reference or a word was counted.
    fn names_cells(self) -> bool
        ensures { result ≡ names_cells self }
    {
        matches!(self, Counted::Cells)
    }

    /// How many brackets are open behind it, where so many are before.
    fn depth_behind(self, depth: usize) -> usize
        requires { depth < 18446744073709551615 }
        ensures { result ≡ depth_behind self depth }
    {
        match self {
            Counted::Opens => depth + 1,
            Counted::Closes => depth.saturating_sub(1),
            Counted::Cells | Counted::Other => depth,
        }
    }
}

/// The first limit that the tokens or symbols pass; None where they keep all.
pub(crate) fn passed<T: Limited>(items: &[T]) -> Option<FormulaFault>
    ensures { result ≡ first_passed T.counts_as items.now }
{
    if items.len() > TOKENS {
        Some(FormulaFault::Tokens)
    } else if references(items) > REFERENCES {
        Some(FormulaFault::References)
    } else if deepest(items) > DEPTH {
        Some(FormulaFault::Depth)
    } else {
        None
    }
}

/// How many of the items are references or words.
fn references<T: Limited>(items: &[T]) -> usize
    ensures { result ≡ count_by (λ item. names_cells (T.counts_as item)) items.now }
{
    items
        .iter()
        .filter(|item| item.counted().names_cells())
        .count()
}

/// How many brackets are open at once at most.
fn deepest<T: Limited>(items: &[T]) -> usize
    ensures { result ≡ deepest (λ item. depth_behind (T.counts_as item)) 0 items.now }
{
    let mut depth = 0;
    let mut deepest = 0;
    for item in items {
        depth = item.counted().depth_behind(depth);
        deepest = larger(deepest, depth);
    }
    deepest
}

/// The larger of two numbers.
fn larger(one: usize, other: usize) -> usize
    ensures { result ≡ max one other }
{
    if one < other { other } else { one }
}
