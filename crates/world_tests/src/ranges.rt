use crate::common::check;
use dimension_ops::{Book, Rule, RuleOr, World};
use grid_range::{Area, Band};
use std::alloc::Global;
use values_api::resolve;

/// What a range text names: bands of rows and of columns, and whether it is one cell; or the rule that it
/// breaks.
type Named = Result<(Band, Band, bool), Rule>;

/// Range texts of a spreadsheet with the one sheet `Sheet1` of 1,000 rows and 26 columns.
static RANGES: [(&str, Named); 26] = [
    ("B2", Ok((Band::Span(1, 2), Band::Span(1, 2), true))),
    ("A1:A1", Ok((Band::Span(0, 1), Band::Span(0, 1), true))),
    ("A1:B2", Ok((Band::Span(0, 2), Band::Span(0, 2), false))),
    ("B2:A1", Ok((Band::Span(0, 2), Band::Span(0, 2), false))),
    ("A:B", Ok((Band::Whole, Band::Span(0, 2), false))),
    ("1:2", Ok((Band::Span(0, 2), Band::Whole, false))),
    ("A5:B", Ok((Band::From(4), Band::Span(0, 2), false))),
    (
        "A1:B5000",
        Ok((Band::Span(0, 1000), Band::Span(0, 2), false)),
    ),
    (
        "Z1000:ZZZ9999999",
        Ok((Band::Span(999, 1000), Band::Span(25, 26), false)),
    ),
    ("Sheet1", Ok((Band::Whole, Band::Whole, false))),
    ("sHEET1", Ok((Band::Whole, Band::Whole, false))),
    ("'Sheet1'", Ok((Band::Whole, Band::Whole, false))),
    ("sheet1!C3", Ok((Band::Span(2, 3), Band::Span(2, 3), true))),
    ("'Sheet1'!A:A", Ok((Band::Whole, Band::Span(0, 1), false))),
    ("A1001", Err(Rule::OutsideGrid)),
    ("AA1", Err(Rule::OutsideGrid)),
    ("ZZZ1", Err(Rule::OutsideGrid)),
    ("A1001:B", Err(Rule::OutsideGrid)),
    ("AAAA1", Err(Rule::BadRange)),
    ("A01", Err(Rule::BadRange)),
    ("Sheet1!AAAA1", Err(Rule::BadRange)),
    ("Nowhere", Err(Rule::BadRange)),
    ("Nowhere!AAAA1", Err(Rule::BadRange)),
    ("", Err(Rule::BadRange)),
    ("Nowhere!A1", Err(Rule::NoSheet)),
    ("'Nowhere'", Err(Rule::NoSheet)),
];

/// What the text names in the spreadsheet of the beginning; None where memory runs out.
fn named(alloc: Global, text: &str) -> Option<Named> {
    match World::opening(alloc) {
        Ok(world) => match world.at(0) {
            Some(book) => named_in(alloc, book, text),
            None => None,
        },
        Err(_) => None,
    }
}

/// The same in a spreadsheet, of which the sheet 0 is the one that is named.
fn named_in(alloc: Global, book: &Book, text: &str) -> Option<Named> {
    match resolve(alloc, book, text) {
        Ok(
            (
                Area {
                    sheet: 0,
                    rows,
                    cols,
                },
                one_cell,
            ),
        ) => Some(Ok((rows, cols, one_cell))),
        Ok(_) => None,
        Err(RuleOr::Rule(rule)) => Some(Err(rule)),
        Err(RuleOr::NoMemory) => None,
    }
}

#[test]
fn range_texts_are_resolved(rt: HostRuntime) {
    for row in &RANGES {
        check(&rt, row, named(rt.alloc(), row.0) == Some(row.1));
    }
}
