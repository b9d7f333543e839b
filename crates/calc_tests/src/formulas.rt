use crate::common::Plain::{self, Blank, Number, Text, Truth};
use crate::common::{DIV0, ERROR, MOST, NA, NAME, NUM, REF, VALUE, check, is_same, text};
use crate::spreadsheet::Spreadsheet;
use cell_calc::{value_of_content, value_of_tree};
use cell_value::{NoMemory, Value};
use formula_reader::{read_formula, read_pieces, tree_of};
use ref_rewrite::{Content, Formula};
use std::alloc::Global;

/// A formula of a sheet of four rows and two columns with 3, `x`, TRUE and nothing in A1:A4 and an error in
/// B1, where `items` names A1:A4 and `price` A1; and its value.
type Row = (&'static str, Plain);

/// References and words.
static READ: [Row; 36] = [
    ("=A1", Number(3)),
    ("=A2", Text("x")),
    ("=A3", Truth(true)),
    ("=A4", Blank),
    ("=B1", DIV0),
    ("=$A$1", Number(3)),
    ("=Sheet1!A1+'sheet1'!a1", Number(6)),
    ("=A1:A1", Number(3)),
    ("=A1:A4", VALUE),
    ("=A1:A4+1", VALUE),
    ("=-A1:A4", VALUE),
    ("=A4+1", Number(1)),
    ("=A2+1", VALUE),
    ("=A3+1", Number(2)),
    ("=A4&\"y\"", Text("y")),
    ("=A4=0", Truth(true)),
    ("=A4=\"\"", Truth(true)),
    ("=A4=FALSE", Truth(true)),
    ("=A2=\"X\"", Truth(true)),
    ("=-A4", Number(0)),
    ("=+A2", Text("x")),
    ("=price", Number(3)),
    ("=PRICE*2", Number(6)),
    ("=items", VALUE),
    ("=SUM(items)", Number(3)),
    ("=ROWS(items)", Number(4)),
    ("=nothing", NAME),
    ("=nothing+1/0", NAME),
    ("=1/0+nothing", DIV0),
    ("=SUM(nothing,1)", NAME),
    ("=ROWS(nothing)", NAME),
    ("=COUNT(nothing)", Number(0)),
    ("=COUNTA(nothing)", Number(1)),
    ("=ISERROR(nothing)", Truth(true)),
    ("=IFERROR(nothing,7)", Number(7)),
    ("=IF(FALSE,nothing,1)", Number(1)),
];

#[test]
fn references_and_words_are_read(rt: HostRuntime) {
    let spreadsheet = Spreadsheet::filled(rt.alloc());
    for row in &READ {
        check(&rt, row, has_value(rt.alloc(), &spreadsheet, row));
    }
}

/// Functions over the cells.
static CALLED: [Row; 38] = [
    ("=SUM(A1:A4)", Number(3)),
    ("=sum(a1:a4)", Number(3)),
    ("=COUNT(A1:A4)", Number(1)),
    ("=COUNTA(A1:A4)", Number(3)),
    ("=MAX(A1:A4,-1)", Number(3)),
    ("=AND(A1:A4)", Truth(true)),
    ("=OR(A1:A4)", Truth(true)),
    ("=CONCATENATE(A1:A4)", Text("3xTRUE")),
    ("=MATCH(\"X\",A1:A4,0)", Number(2)),
    ("=MATCH(\"3\",A1:A4,0)", NA),
    ("=INDEX(A1:A4,2)", Text("x")),
    ("=INDEX(A1:A4,4)", Blank),
    ("=INDEX(A1:A4,5)", NUM),
    ("=COUNTIF(A1:A4,\"3\")", Number(1)),
    ("=SUMIF(A1:A4,3)", Number(3)),
    ("=SUMIF(A1:A4,3,A1)", VALUE),
    ("=ROWS(A1:A4)", Number(4)),
    ("=COLUMNS(A1:A4)", Number(1)),
    ("=SUM(1,TRUE)", Number(2)),
    ("=SUM(A3)", Number(0)),
    ("=SUM(--A3)", Number(1)),
    ("=COUNT(A2)", Number(0)),
    ("=LEN(A4)", Number(0)),
    ("=ISBLANK(A4)", Truth(true)),
    ("=ISBLANK(A1:A4)", Truth(false)),
    // Brackets and a sign `+` leave an area what it is.
    ("=SUM((A1:A4))", Number(3)),
    ("=SUM(+A1:A4)", Number(3)),
    ("=SUM(+A3)", Number(0)),
    ("=ROWS((A1:A4))", Number(4)),
    ("=ROWS(+(items))", Number(4)),
    ("=SUM(-A1:A4)", VALUE),
    ("=ROWS(-A1)", VALUE),
    ("=ROWS(A1+0)", VALUE),
    ("=ROWS(IF(TRUE,A1))", VALUE),
    ("=SUM(B1)", DIV0),
    ("=SUM(B1,#REF!)", REF),
    ("=COUNT(B1)", Number(0)),
    ("=COUNTA(B1)", Number(1)),
];

#[test]
fn functions_take_the_cells_of_areas(rt: HostRuntime) {
    let spreadsheet = Spreadsheet::filled(rt.alloc());
    for row in &CALLED {
        check(&rt, row, has_value(rt.alloc(), &spreadsheet, row));
    }
}

/// Whole lines, and more than one line both ways.
static LINES: [Row; 38] = [
    ("=ROWS(A:A)", Number(4)),
    ("=COLUMNS(A:A)", Number(1)),
    ("=ROWS(1:1)", Number(1)),
    ("=COLUMNS(1:1)", Number(2)),
    ("=ROWS(A2:A)", Number(3)),
    ("=ROWS(A1:B4)", Number(4)),
    ("=COLUMNS(A1:B4)", Number(2)),
    ("=A:A", VALUE),
    ("=1:1", VALUE),
    ("=SUM(A:A)", Number(3)),
    ("=SUM(A2:A)", Number(0)),
    ("=SUM(1:1)", DIV0),
    ("=SUM(A1:B4)", DIV0),
    ("=COUNTA(A:A)", Number(3)),
    ("=COUNTA(A2:A)", Number(2)),
    ("=COUNTA(1:1)", Number(2)),
    ("=COUNTA(A1:B4)", Number(4)),
    ("=COUNT(A:A,1:1)", Number(2)),
    ("=MATCH(TRUE,A:A,0)", Number(3)),
    ("=MATCH(TRUE,A2:A,0)", Number(2)),
    ("=MATCH(3,1:1,0)", Number(1)),
    ("=MATCH(3,A1:B4,0)", NA),
    ("=MATCH(3,A1:B4,1)", VALUE),
    ("=INDEX(A2:A,1)", Text("x")),
    ("=INDEX(A2:A,3)", Blank),
    ("=INDEX(A2:A,4)", NUM),
    ("=INDEX(1:1,1,2)", DIV0),
    ("=INDEX(1:1,2)", NUM),
    // By rows.
    ("=INDEX(A1:B4,1,2)", DIV0),
    ("=INDEX(A1:B4,2,1)", Text("x")),
    ("=INDEX(A1:B4,3)", Truth(true)),
    ("=INDEX(A1:B4,2,2)", Blank),
    ("=INDEX(A1:B4,1,3)", NUM),
    ("=INDEX(A1:B4,5,1)", NUM),
    ("=COUNTIF(A1:B4,\"X\")", Number(1)),
    ("=SUMIF(A1:B4,3)", Number(3)),
    ("=SUMIF(A:A,3,A1:A4)", Number(3)),
    ("=SUMIF(A2:A,\"x\",A:A)", VALUE),
];

#[test]
fn areas_have_their_cells_by_rows_as_far_as_the_sheet_goes(rt: HostRuntime) {
    let spreadsheet = Spreadsheet::filled(rt.alloc());
    for row in &LINES {
        check(&rt, row, has_value(rt.alloc(), &spreadsheet, row));
    }
}

/// Errors, lost references and branches.
static FAULTS: [Row; 40] = [
    ("=#REF!", REF),
    ("=#REF!+1", REF),
    ("=1/0&#REF!", DIV0),
    ("=SUM(#REF!,1)", REF),
    ("=ROWS(#REF!)", REF),
    ("=COUNTA(#REF!)", Number(1)),
    ("=IFERROR(#REF!,1)", Number(1)),
    ("=A5", REF),
    ("=C1+1/0", REF),
    ("=Nowhere!A1", REF),
    ("=IF(TRUE,1,1/0)", Number(1)),
    ("=IF(FALSE,1/0,2)", Number(2)),
    ("=IF(FALSE,1/0)", Truth(false)),
    ("=IF(1/0,1,2)", DIV0),
    ("=IF(TRUE,1/0,2)", DIV0),
    ("=IF(A3,A1,#REF!)", Number(3)),
    ("=IF(A4,A1,A2)", Text("x")),
    ("=IF(A1,A4,1)", Blank),
    ("=IF(TRUE,A1:A4,1)", VALUE),
    ("=IF(FALSE,NOPE(),nothing)", NAME),
    ("=IF(A1>2,\"big\",\"small\")", Text("big")),
    ("=IFERROR(1/0,A2)", Text("x")),
    ("=IFERROR(A1,1/0)", Number(3)),
    ("=IFERROR(1/0)", Blank),
    ("=IFERROR(1/0)&\"\"", Text("")),
    ("=IFERROR(B1,IFERROR(A2+1,5))", Number(5)),
    ("=NOPE(1/0)", NAME),
    ("=ABS(1/0,2)", NA),
    ("=AND()", NA),
    ("=OR()", NA),
    ("=\"x\"+1/0", DIV0),
    ("=SUM(\"x\",1/0)", DIV0),
    ("=ROWS(1/0)", DIV0),
    ("=INDEX(5,1/0)", DIV0),
    ("=ROWS(1)", VALUE),
    ("=B1+#REF!", DIV0),
    ("=#REF!=#REF!", REF),
    ("=-(1/0)", DIV0),
    ("=ISERROR(B1)", Truth(true)),
    ("=ISTEXT(\"#REF!\")", Truth(true)),
];

#[test]
fn errors_come_first_and_untaken_branches_do_not_matter(rt: HostRuntime) {
    let spreadsheet = Spreadsheet::filled(rt.alloc());
    for row in &FAULTS {
        check(&rt, row, has_value(rt.alloc(), &spreadsheet, row));
    }
}

/// Operators.
static LEVELS: [Row; 38] = [
    ("=7", Number(7)),
    ("=\"a\"\"b\"", Text("a\"b")),
    ("=true", Truth(true)),
    ("=1+2*3", Number(7)),
    ("=(1+2)*3", Number(9)),
    ("=2*3+1", Number(7)),
    ("=10-4-3", Number(3)),
    ("=10-(4-3)", Number(9)),
    ("=24/4/3", Number(2)),
    ("=24/(4/2)", Number(12)),
    ("=2*7/2", Number(7)),
    ("=7/2*2", NUM),
    ("=10/4", NUM),
    ("=-2*3", Number(-6)),
    ("=2--3", Number(5)),
    ("=--2", Number(2)),
    ("=+-+2", Number(-2)),
    ("=2*-3", Number(-6)),
    ("=2&3*2", Text("26")),
    ("=1&2+3", Text("15")),
    ("=1+2&3", Text("33")),
    ("=2&-3", Text("2-3")),
    ("=1-1&1", Text("01")),
    ("=-A1&\"a\"", Text("-3a")),
    ("=\"1\"&\"2\"+3", Text("15")),
    ("=1=\"1\"", Truth(false)),
    ("=1&2=12", Truth(false)),
    ("=1&2=\"12\"", Truth(true)),
    ("=\"a\"<TRUE", Truth(true)),
    ("=1<2=TRUE", Truth(true)),
    ("=3>2>1", Truth(true)),
    ("=1=1=1", Truth(false)),
    ("=2+2>=4", Truth(true)),
    ("=1<>1&\"\"", Truth(true)),
    ("=9007199254740992+1", NUM),
    ("=9007199254740992+1-1", NUM),
    ("=9007199254740992-1+1", Number(MOST)),
    ("=-9007199254740992", Number(-MOST)),
];

#[test]
fn operators_bind_by_their_levels_and_group_to_the_left(rt: HostRuntime) {
    let spreadsheet = Spreadsheet::filled(rt.alloc());
    for row in &LEVELS {
        check(&rt, row, has_value(rt.alloc(), &spreadsheet, row));
    }
}

/// Whether the formula has the value, by its tree and as the content of a cell.
fn has_value(alloc: Global, spreadsheet: &Spreadsheet, row: &Row) -> bool {
    match read_formula(alloc, row.0, spreadsheet, 0) {
        Ok(formula) => {
            has_value_by_tree(alloc, spreadsheet, &formula, row.1)
                && is_value(alloc, value_in_cell(alloc, spreadsheet, formula), row.1)
        }
        Err(_) => false,
    }
}

fn has_value_by_tree(
    alloc: Global,
    spreadsheet: &Spreadsheet,
    formula: &Formula,
    wanted: Plain,
) -> bool {
    match tree_of(alloc, formula) {
        Ok(Some(tree)) => is_value(alloc, value_of_tree(alloc, spreadsheet, &tree), wanted),
        Ok(None) | Err(_) => false,
    }
}

fn value_in_cell(
    alloc: Global,
    spreadsheet: &Spreadsheet,
    formula: Formula,
) -> Result<Value, NoMemory> {
    value_of_content(alloc, spreadsheet, &Content::Formula(formula))
}

fn is_value(alloc: Global, value: Result<Value, NoMemory>, wanted: Plain) -> bool {
    match value {
        Ok(value) => is_same(alloc, &value, wanted),
        Err(_) => false,
    }
}

/// Formulas without a tree, and one with more brackets than are read.
static TREELESS: [&str; 13] = [
    "=",
    "=1+",
    "=(1",
    "=SUM(1,)",
    "=SUM (1)",
    "=1 2",
    "=A1:A4 A1",
    "=2^3",
    "=1/0)",
    "=IFERROR(1,2",
    "=9007199254740993",
    "=\"a",
    "=(((((((((((((((((((((((((((((((((1)))))))))))))))))))))))))))))))))",
];

#[test]
fn formulas_without_a_tree_are_errors(rt: HostRuntime) {
    let spreadsheet = Spreadsheet::filled(rt.alloc());
    for row in &TREELESS {
        check(&rt, row, is_treeless(rt.alloc(), &spreadsheet, row));
    }
}

fn is_treeless(alloc: Global, spreadsheet: &Spreadsheet, formula: &str) -> bool {
    match read_pieces(alloc, formula, spreadsheet, 0) {
        Ok(read) => is_value(alloc, value_in_cell(alloc, spreadsheet, read.0), ERROR),
        Err(_) => false,
    }
}

#[test]
fn stored_values_are_themselves(rt: HostRuntime) {
    let alloc = rt.alloc();
    let sheet = Spreadsheet::filled(alloc);
    let number = value_of_content(alloc, &sheet, &Content::Number(-7));
    check(&rt, &"number", is_value(alloc, number, Number(-7)));
    let formula = Content::Text(text(alloc, "=1"));
    let shown = value_of_content(alloc, &sheet, &formula);
    check(&rt, &"text", is_value(alloc, shown, Text("=1")));
    let truth = value_of_content(alloc, &sheet, &Content::Truth(false));
    check(&rt, &"truth", is_value(alloc, truth, Truth(false)));
}
