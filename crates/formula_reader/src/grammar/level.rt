ghost use Rattle.std.specs.Prelude.{◌≡◌, ◌≢◌, List, ◌∷◌, IfSome, IfNone};
ghost use Rattle.formula_reader.specs.declared.tokens.token.Operator.{Operator};
ghost use Rattle.formula_reader.specs.declared.symbols.Symbol.{Symbol};
ghost use Rattle.formula_reader.specs.Grammar.{level_of, tighter};

use crate::symbols::Symbol;
use crate::tokens::Operator;

/// A level of the grammar of formulas, the loosest first: an operand of a level's operators is of
/// the next level.
#[derive(Clone, Copy, PartialEq, Eq)]
pub(super) enum Level {
    /// Operands of `=`, `<>`, `<`, `<=`, `>` and `>=`.
    Comparison,
    /// Operands of `&`.
    Join,
    /// Operands of `+` and `-`.
    Sum,
    /// Operands of `*` and `/`.
    Term,
    /// Signs before an operand.
    Unary,
    /// What has no operator outside its brackets.
    Primary,
}

impl Level {
    /// The level of the operator between two operands.
    pub(super) fn of(operator: Operator) -> Level
        ensures { result ≡ level_of operator }
    {
        match operator {
            Operator::Equal
            | Operator::NotEqual
            | Operator::Less
            | Operator::AtMost
            | Operator::Greater
            | Operator::AtLeast => Level::Comparison,
            Operator::Join => Level::Join,
            Operator::Add | Operator::Subtract => Level::Sum,
            Operator::Multiply | Operator::Divide => Level::Term,
        }
    }

    /// The level of its operands.
    pub(super) fn tighter(self) -> Level
        ensures { result ≡ tighter self }
    {
        match self {
            Level::Comparison => Level::Join,
            Level::Join => Level::Sum,
            Level::Sum => Level::Term,
            Level::Term => Level::Unary,
            Level::Unary | Level::Primary => Level::Primary,
        }
    }

    /// The operator of the level that the symbols begin with, and what is behind it.
    pub(super) fn operator_at(self, symbols: &[Symbol]) -> Option<(Operator, &[Symbol])>
        ensures some { IfSome result (λ found. (symbols.now ≡ Symbol.Operator found.0 ∷ found.1.now)
            × (level_of found.0 ≡ self)) }
        ensures none { IfNone result ((operator : Operator) (rest : List Symbol)
            → symbols.now ≡ Symbol.Operator operator ∷ rest → level_of operator ≢ self) }
    {
        match symbols {
            [Symbol::Operator(operator), rest @ ..] if Level::of(*operator) == self => {
                Some((*operator, rest))
            }
            _ => None,
        }
    }
}
