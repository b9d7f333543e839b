use crate::common::{behind, check, repeated_text};
use crate::workbook::Workbook;
use formula_reader::{FormulaFault, print_formula, read_formula};
use ref_rewrite::Piece;
use std::alloc::Global;

/// Formula texts of the sheet with the id 0, their pieces (a text as it is, a word in braces, a
/// reference in brackets, a lost one as `!`), and the text that they print.
static FORMULAS: [(&str, &str, &str); 46] = [
    ("=sum( a2:$b$1 )", "=sum( [] )", "=sum( A$1:$B2 )"),
    ("=A1", "=[]", "=A1"),
    ("=$A$1", "=[]", "=$A$1"),
    ("=a1:B2", "=[]", "=A1:B2"),
    ("=B2:A1", "=[]", "=A1:B2"),
    ("=$B2:A$1", "=[]", "=A$1:$B2"),
    ("=A$1:$A1", "=[]", "=A$1"),
    ("=A1:A1", "=[]", "=A1"),
    ("=A:$B", "=[]", "=A:$B"),
    ("=$C:A", "=[]", "=A:$C"),
    ("=A:A", "=[]", "=A:A"),
    ("=$2:1", "=[]", "=1:$2"),
    ("=3:3", "=[]", "=3:3"),
    ("=A5:B", "=[]", "=A5:B"),
    ("=B$5:$A", "=[]", "=$A$5:B"),
    ("=A1:A5000", "=[]", "=A1:A1000"),
    ("=A1000:B$5000", "=[]", "=A1000:B$1000"),
    ("=A1001", "=!", "=#REF!"),
    ("=AA1", "=!", "=#REF!"),
    ("=A1001:B", "=!", "=#REF!"),
    ("=AA:AB", "=!", "=#REF!"),
    ("=1+A1001", "=1+!", "=1+#REF!"),
    ("=Sheet1!A1", "=[]", "=Sheet1!A1"),
    ("=sheet1!a1:b2", "=[]", "=Sheet1!A1:B2"),
    ("='Sheet1'!A:A", "=[]", "=Sheet1!A:A"),
    ("='Jon''s data'!A1", "=[]", "='Jon''s data'!A1"),
    ("='JON''S DATA'!$A1", "=[]", "='Jon''s data'!$A1"),
    ("=Nowhere!A1", "=!", "=#REF!"),
    ("='Jon''s data'!AA1", "=!", "=#REF!"),
    ("=rate*2", "={}*2", "=rate*2"),
    ("=A01", "={}", "=A01"),
    ("=A1.x", "={}", "=A1.x"),
    ("=SUM1(B2)", "=SUM1([])", "=SUM1(B2)"),
    ("=A1(B2)", "=A1([])", "=A1(B2)"),
    ("=TRUE", "=TRUE", "=TRUE"),
    ("=TRUE(1)", "=TRUE(1)", "=TRUE(1)"),
    ("=\"A1\"&A1", "=\"A1\"&[]", "=\"A1\"&A1"),
    ("=\"a\"\"b\"", "=\"a\"\"b\"", "=\"a\"\"b\""),
    ("=#REF!+A1", "=!+[]", "=#REF!+A1"),
    ("= A1 ", "= [] ", "= A1 "),
    ("=A1'Sheet1'!B2", "=[][]", "=A1Sheet1!B2"),
    ("=2^A1", "=2^A1", "=2^A1"),
    ("=A1:A5:B2", "=A1:A5:B2", "=A1:A5:B2"),
    (
        "=9007199254740993+A1",
        "=9007199254740993+A1",
        "=9007199254740993+A1",
    ),
    ("A1", "A1", "A1"),
    ("", "", ""),
];

#[test]
fn formulas_are_read_and_printed(rt: HostRuntime) {
    let workbook = Workbook::of_two(rt.alloc());
    for row in &FORMULAS {
        check(
            &rt,
            &row.0,
            is_printed(rt.alloc(), &workbook, row.0, row.1, row.2),
        );
    }
}

/// Whether a text has the pieces, and prints as it should.
fn is_printed(alloc: Global, workbook: &Workbook, text: &str, pieces: &str, printed: &str) -> bool {
    let Ok(formula) = read_formula(alloc, text, workbook, 0) else {
        return false;
    };
    if !workbook.is_known() {
        return false;
    }
    match print_formula(alloc, &formula, workbook) {
        Ok(again) => again.as_str() == printed && are_pieces(formula.pieces.as_slice(), pieces),
        Err(_) => false,
    }
}

/// Whether the pieces one behind another are that text.
fn are_pieces(pieces: &[Piece], text: &str) -> bool {
    let mut rest = Some(text);
    for piece in pieces {
        rest = behind(rest, shown(piece));
    }
    rest == Some("")
}

/// A word as `{}`, a reference as `[]`, a lost one as `!`.
fn shown(piece: &Piece) -> &str {
    match piece {
        Piece::Text(text) => text.as_str(),
        Piece::Word(_) => "{}",
        Piece::Ref(_) => "[]",
        Piece::Lost => "!",
    }
}

/// A text and how often it is repeated behind a beginning, an end, and the limit that is passed.
static LIMITS: [(&str, &str, usize, &str, Option<FormulaFault>); 16] = [
    ("=1", "+1", 255, "", None),
    ("=-1", "+1", 255, "", None),
    ("=1", "+1", 256, "", Some(FormulaFault::Tokens)),
    ("=", "-", 511, "1", None),
    ("=", "-", 512, "1", Some(FormulaFault::Tokens)),
    ("=0", "+A1", 64, "", None),
    ("=0", "+A1", 65, "", Some(FormulaFault::References)),
    ("=0", "+x", 65, "", Some(FormulaFault::References)),
    ("=0", "+Nowhere!A1", 65, "", Some(FormulaFault::References)),
    ("=0", "+TRUE", 65, "", None),
    ("=0", "+#REF!", 65, "", None),
    ("=", "(", 32, "1", None),
    ("=", "(", 33, "1", Some(FormulaFault::Depth)),
    ("=", "SUM(", 33, "1", Some(FormulaFault::Depth)),
    ("=", "A1(", 300, "A1", Some(FormulaFault::Tokens)),
    ("=^", "(", 600, "", None),
];

#[test]
fn limits_are_kept(rt: HostRuntime) {
    let workbook = Workbook::of_two(rt.alloc());
    for row in &LIMITS {
        let text = repeated_text(rt.alloc(), row.0, row.1, row.2, row.3);
        check(
            &rt,
            &row.1,
            has_fault(rt.alloc(), &workbook, text.as_str(), row.4),
        );
    }
}

/// Whether reading a text has the fault, or none.
fn has_fault(alloc: Global, workbook: &Workbook, text: &str, fault: Option<FormulaFault>) -> bool {
    read_formula(alloc, text, workbook, 0).err() == fault
}
