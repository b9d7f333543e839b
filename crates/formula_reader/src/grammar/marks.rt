ghost use Rattle.std.specs.Prelude.{◌≡◌, ◌≢◌, List, ◌∷◌, IfSome, IfNone};
ghost use Rattle.formula_reader.specs.declared.symbols.Symbol.{Symbol};

use crate::symbols::Symbol;

/// What is behind the opening bracket that the symbols begin with.
pub(super) fn strip_open(symbols: &[Symbol]) -> Option<&[Symbol]>
    ensures some { IfSome result (λ rest. symbols.now ≡ Symbol.Open ∷ rest.now) }
    ensures none { IfNone result ((rest : List Symbol) → symbols.now ≢ Symbol.Open ∷ rest) }
{
    match symbols {
        [Symbol::Open, rest @ ..] => Some(rest),
        _ => None,
    }
}

/// What is behind the closing bracket that the symbols begin with.
pub(super) fn strip_close(symbols: &[Symbol]) -> Option<&[Symbol]>
    ensures some { IfSome result (λ rest. symbols.now ≡ Symbol.Close ∷ rest.now) }
    ensures none { IfNone result ((rest : List Symbol) → symbols.now ≢ Symbol.Close ∷ rest) }
{
    match symbols {
        [Symbol::Close, rest @ ..] => Some(rest),
        _ => None,
    }
}

/// What is behind the comma that the symbols begin with.
pub(super) fn strip_comma(symbols: &[Symbol]) -> Option<&[Symbol]>
    ensures some { IfSome result (λ rest. symbols.now ≡ Symbol.Comma ∷ rest.now) }
    ensures none { IfNone result ((rest : List Symbol) → symbols.now ≢ Symbol.Comma ∷ rest) }
{
    match symbols {
        [Symbol::Comma, rest @ ..] => Some(rest),
        _ => None,
    }
}
