mod pieces;

ghost use Rattle.std.specs.Prelude.{◌≡◌, IfOk, option_map};
ghost use Rattle.formula_reader.specs.LevelReading.{leaf};
ghost use Rattle.formula_reader.specs.Symbols.{symbol_of};
ghost use Rattle.formula_reader.specs.Tree.{expression_of};

use crate::tokens::{Operator, Token};
use crate::tree::Tree;
use cell_value::{Duplicate, NoMemory, Text};
use grid_range::Area;
pub(crate) use pieces::symbols_of_formula;

/// A token of a formula, where a reference is the cells that it names.
#[derive(Drop)]
pub(crate) enum Symbol {
    /// A whole number within 2^53.
    Number(i64),
    /// A text, without its quotes.
    Text(Text),
    /// A truth value.
    Truth(bool),
    /// A reference to cells.
    Ref(Area),
    /// A reference whose cells are gone.
    Lost,
    /// A word: a named range is called so, if any is.
    Word(Text),
    /// The name of a function; its opening bracket is the next symbol.
    Function(Text),
    /// An operator; `+` and `-` stand before an operand, too.
    Operator(Operator),
    /// `(`
    Open,
    /// `)`
    Close,
    /// `,`
    Comma,
}

impl Symbol {
    /// The tree of a symbol that stands alone, None for one that doesn't.
    pub(crate) fn leaf(&self) -> Result<Option<Tree>, NoMemory>
        ensures { IfOk result (λ tree. option_map expression_of tree ≡ leaf self.now) }
    {
        match self {
            Symbol::Number(number) => Ok(Some(Tree::Number(*number))),
            Symbol::Text(text) => Ok(Some(Tree::Text(text.duplicate()?))),
            Symbol::Truth(truth) => Ok(Some(Tree::Truth(*truth))),
            Symbol::Ref(area) => Ok(Some(Tree::Ref(*area))),
            Symbol::Lost => Ok(Some(Tree::Lost)),
            Symbol::Word(word) => Ok(Some(Tree::Word(word.duplicate()?))),
            Symbol::Function(_) => Ok(None),
            Symbol::Operator(_) => Ok(None),
            Symbol::Open => Ok(None),
            Symbol::Close => Ok(None),
            Symbol::Comma => Ok(None),
        }
    }

    /// The symbol of a token, None for one that is a piece of a formula of its own.
    fn of_token(token: Token) -> Option<Symbol>
        ensures { result ≡ symbol_of token }
    {
        match token {
            Token::Number(number) => Some(Symbol::Number(number)),
            Token::Text(text) => Some(Symbol::Text(text)),
            Token::Truth(truth) => Some(Symbol::Truth(truth)),
            Token::Function(name) => Some(Symbol::Function(name)),
            Token::Operator(operator) => Some(Symbol::Operator(operator)),
            Token::Open => Some(Symbol::Open),
            Token::Close => Some(Symbol::Close),
            Token::Comma => Some(Symbol::Comma),
            Token::Reference(_) => None,
            Token::TitledReference(_, _) => None,
            Token::Word(_) => None,
            Token::Lost => None,
        }
    }
}
