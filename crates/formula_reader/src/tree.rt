ghost use Rattle.std.specs.Prelude.{◌≡◌, map, IfOk};
ghost use Rattle.formula_reader.specs.Tree.{expression_of, negative, binary, call, no_arguments, arguments_before};

use crate::tokens::Operator;
use cell_value::{Items, NoMemory, Text};
use grid_range::Area;
use std::alloc::Global;

/// What a formula is by the grammar of formulas. Brackets and a sign `+` leave no node.
#[derive(Debug, Drop)]
pub enum Tree {
    /// A whole number within 2^53.
    Number(i64),
    /// A text.
    Text(Text),
    /// A truth value.
    Truth(bool),
    /// A reference to cells.
    Ref(Area),
    /// A reference whose cells are gone: `#REF!`.
    Lost,
    /// A word: a named range is called so, if any is.
    Word(Text),
    /// The negative of a value: the sign `-` before it.
    Negate(Box<Tree>),
    /// An operator between two operands.
    Binary(Operator, Box<Tree>, Box<Tree>),
    /// A function by its name, and its arguments.
    Call(Text, Items<Tree>),
}

impl Tree {
    /// The tree of `-` before a tree.
    pub(crate) fn negated(self, alloc: Global) -> Result<Tree, NoMemory>
        ensures { IfOk result (λ tree. expression_of tree ≡ negative (expression_of self)) }
    {
        Ok(Tree::Negate(Box::new(alloc, self)?))
    }

    /// The tree of an operator between two trees.
    pub(crate) fn joined(
        alloc: Global,
        operator: Operator,
        left: Tree,
        right: Tree,
    ) -> Result<Tree, NoMemory>
        ensures { IfOk result (λ tree.
            expression_of tree ≡ binary operator (expression_of left) (expression_of right)) }
    {
        let left = Box::new(alloc, left)?;
        let right = Box::new(alloc, right)?;
        Ok(Tree::Binary(operator, left, right))
    }

    /// The tree of a function and its arguments.
    pub(crate) fn call(name: Text, arguments: Vec<Tree>) -> Tree
        ensures { expression_of result ≡ call name (arguments_before (map expression_of arguments.items) no_arguments) }
    {
        Tree::Call(name, Items::of(arguments))
    }
}
