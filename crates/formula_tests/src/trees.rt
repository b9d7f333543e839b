use crate::common::{behind, check, repeated_text, text};
use crate::workbook::Workbook;
use cell_value::Items;
use formula_reader::{FormulaFault, Operator, Tree, read_formula, tree_of};
use ref_rewrite::{Formula, Piece};
use std::alloc::Global;

/// A formula text of the first sheet, and its tree with each operator before its operands; `none` where
/// it has no tree, `~` is the sign `-` before an operand, and `[]` a reference.
static TREES: [(&str, &str); 79] = [
    ("=1", "1"),
    ("=\"a\"\"b\"", "a\"b"),
    ("=TRUE", "TRUE"),
    ("=false", "FALSE"),
    ("=SUM()", "SUM()"),
    ("=SUM(1)", "SUM(1)"),
    ("=SUM(1,2,3)", "SUM(1,2,3)"),
    ("=SUM(1+2,(3))", "SUM((+ 1 2),3)"),
    ("=IF(1,SUM(2),MAX())", "IF(1,SUM(2),MAX())"),
    ("=(1)", "1"),
    ("=((1))", "1"),
    ("= ( 1 + 2 ) ", "(+ 1 2)"),
    ("=-1", "(~ 1)"),
    ("=+1", "1"),
    ("=--1", "(~ (~ 1))"),
    ("=+-+1", "(~ 1)"),
    ("=-(1)", "(~ 1)"),
    ("=-(1+2)", "(~ (+ 1 2))"),
    ("=1--1", "(- 1 (~ 1))"),
    ("=1*2", "(* 1 2)"),
    ("=1/2", "(/ 1 2)"),
    ("=1+2", "(+ 1 2)"),
    ("=1-2", "(- 1 2)"),
    ("=1&2", "(& 1 2)"),
    ("=1=2", "(= 1 2)"),
    ("=1<>2", "(<> 1 2)"),
    ("=1<2", "(< 1 2)"),
    ("=1<=2", "(<= 1 2)"),
    ("=1>2", "(> 1 2)"),
    ("=1>=2", "(>= 1 2)"),
    ("=1+2*3", "(+ 1 (* 2 3))"),
    ("=1*2+3", "(+ (* 1 2) 3)"),
    ("=(1+2)*3", "(* (+ 1 2) 3)"),
    ("=1-2-3", "(- (- 1 2) 3)"),
    ("=1-(2-3)", "(- 1 (- 2 3))"),
    ("=1/2/3", "(/ (/ 1 2) 3)"),
    ("=1/2*3", "(* (/ 1 2) 3)"),
    ("=1-2+3", "(+ (- 1 2) 3)"),
    ("=1&2&3", "(& (& 1 2) 3)"),
    ("=1&2+3", "(& 1 (+ 2 3))"),
    ("=1+2&3", "(& (+ 1 2) 3)"),
    ("=1&2=3", "(= (& 1 2) 3)"),
    ("=1=2&3", "(= 1 (& 2 3))"),
    ("=1<2=3", "(= (< 1 2) 3)"),
    ("=1=2<3", "(< (= 1 2) 3)"),
    ("=-2*3", "(* (~ 2) 3)"),
    ("=2*-3", "(* 2 (~ 3))"),
    ("=-2+3", "(+ (~ 2) 3)"),
    ("=", "none"),
    ("= ", "none"),
    ("=()", "none"),
    ("=1 2", "none"),
    ("=(1", "none"),
    ("=1)", "none"),
    ("=(1))", "none"),
    ("=1+", "none"),
    ("=*1", "none"),
    ("=1+*2", "none"),
    ("=-", "none"),
    ("=SUM(1,)", "none"),
    ("=SUM(,1)", "none"),
    ("=SUM(1 2)", "none"),
    ("=SUM(1", "none"),
    ("=1,2", "none"),
    ("=!", "none"),
    // With references and words.
    ("=A1:B2", "[]"),
    ("=x", "x"),
    ("=#REF!+1", "(+ #REF! 1)"),
    ("=A1001+1", "(+ #REF! 1)"),
    ("=SUM(A1:B2,x)*2", "(* SUM([],x) 2)"),
    ("=-x&y", "(& (~ x) y)"),
    ("=A1:B2 1", "none"),
    ("=x (", "none"),
    // Without tokens.
    ("=1^2", "none"),
    ("1", "none"),
    ("x", "none"),
    ("A1", "none"),
    ("#REF!", "none"),
    ("", "none"),
];

#[test]
fn formulas_have_their_trees(rt: HostRuntime) {
    let workbook = Workbook::of_two(rt.alloc());
    for row in &TREES {
        check(&rt, &row.0, has_tree(rt.alloc(), &workbook, row.0, row.1));
    }
}

/// Whether what is read of a text has the tree.
fn has_tree(alloc: Global, workbook: &Workbook, text: &str, wanted: &str) -> bool {
    match read_formula(alloc, text, workbook, 0) {
        Ok(formula) => is_tree_of(alloc, &formula, wanted),
        Err(_) => false,
    }
}

fn is_tree_of(alloc: Global, formula: &Formula, wanted: &str) -> bool {
    match tree_of(alloc, formula) {
        Ok(Some(tree)) => behind_tree(Some(wanted), &tree) == Some(""),
        Ok(None) => wanted == "none",
        Err(_) => false,
    }
}

/// What is left of the text behind the tree, with each operator before its operands.
fn behind_tree<'a>(text: Option<&'a str>, tree: &Tree) -> Option<&'a str> {
    match tree {
        Tree::Number(number) => behind(text, digit(*number)),
        Tree::Text(own) => behind(text, own.as_str()),
        Tree::Truth(truth) => behind(text, if *truth { "TRUE" } else { "FALSE" }),
        Tree::Ref(_) => behind(text, "[]"),
        Tree::Lost => behind(text, "#REF!"),
        Tree::Word(word) => behind(text, word.as_str()),
        Tree::Negate(operand) => behind(behind_tree(behind(text, "(~ "), operand), ")"),
        Tree::Binary(operator, left, right) => {
            let front = behind(behind(behind(text, "("), sign(*operator)), " ");
            let first = behind(behind_tree(front, left), " ");
            behind(behind_tree(first, right), ")")
        }
        Tree::Call(name, arguments) => {
            let mut rest = behind(behind(text, name.as_str()), "(");
            let mut is_first = true;
            for argument in arguments.as_slice() {
                let front = if is_first { rest } else { behind(rest, ",") };
                rest = behind_tree(front, argument);
                is_first = false;
            }
            behind(rest, ")")
        }
    }
}

fn digit(number: i64) -> &'static str {
    match number {
        1 => "1",
        2 => "2",
        3 => "3",
        _ => "?",
    }
}

fn sign(operator: Operator) -> &'static str {
    match operator {
        Operator::Equal => "=",
        Operator::NotEqual => "<>",
        Operator::Less => "<",
        Operator::AtMost => "<=",
        Operator::Greater => ">",
        Operator::AtLeast => ">=",
        Operator::Join => "&",
        Operator::Add => "+",
        Operator::Subtract => "-",
        Operator::Multiply => "*",
        Operator::Divide => "/",
    }
}

/// Texts that are pieces of no formula that is read.
static UNREAD: [&str; 2] = ["=A1", "=x+1"];

#[test]
fn other_formulas_have_none(rt: HostRuntime) {
    for text in &UNREAD {
        check(
            &rt,
            text,
            is_tree_of(rt.alloc(), &one_text(rt.alloc(), text), "none"),
        );
    }
}

/// The formula whose piece is that text.
fn one_text(alloc: Global, own: &str) -> Formula {
    let mut pieces = Vec::new(alloc);
    let _ = pieces.push(Piece::Text(text(alloc, own)));
    Formula {
        pieces: Items::of(pieces),
    }
}

/// A text that is repeated so often behind a beginning and before an end, and how many nodes with
/// operands are above the leftmost leaf of the tree, or the limit that is passed.
static LONG: [(&str, &str, usize, &str, Result<usize, FormulaFault>); 6] = [
    ("=", "-", 250, "1", Ok(250)),
    ("=1", "+1", 250, "", Ok(250)),
    ("=", "-", 20_000, "1", Err(FormulaFault::Tokens)),
    ("=", "(", 20_000, "1", Err(FormulaFault::Tokens)),
    ("=", "(", 33, "1", Err(FormulaFault::Depth)),
    ("=((((((((((((((((((((((((((((((((1", ")", 32, "", Ok(0)),
];

#[test]
fn long_formulas_have_deep_trees(rt: HostRuntime) {
    for row in &LONG {
        let text = repeated_text(rt.alloc(), row.0, row.1, row.2, row.3);
        let formula = one_text(rt.alloc(), text.as_str());
        check(&rt, &row.1, depth_of(rt.alloc(), &formula) == row.4);
    }
}

/// How many nodes with operands are above the leftmost leaf of a formula's tree, or its fault.
fn depth_of(alloc: Global, formula: &Formula) -> Result<usize, FormulaFault> {
    match tree_of(alloc, formula) {
        Ok(Some(tree)) => Ok(depth(&tree)),
        Ok(None) => Ok(0),
        Err(fault) => Err(fault),
    }
}

fn depth(tree: &Tree) -> usize {
    let mut node = tree;
    let mut depth = 0usize;
    loop {
        match node {
            Tree::Negate(operand) => node = operand,
            Tree::Binary(_, left, _) => node = left,
            _ => return depth,
        }
        depth = depth.saturating_add(1);
    }
}
