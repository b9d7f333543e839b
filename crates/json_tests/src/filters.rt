use crate::common::check;
use crate::steps::is_step;

/// Requests for filters: their kinds, their members, and what they are.
static FILTERS: [(&str, &str, &str); 25] = [
    (
        "setBasicFilter",
        "{\"filter\":{\"range\":{}}}",
        "SetBasicFilter { filter: Filter { area: Area { sheet: 0, rows: Whole, cols: Whole }, criteria: Items { items: [] } } }",
    ),
    (
        "setBasicFilter",
        "{\"filter\":{\"range\":{},\"criteria\":{\"10\":{},\"2\":{\"hiddenValues\":[\"x\",\"\"]},\"3\":null}}}",
        "SetBasicFilter { filter: Filter { area: Area { sheet: 0, rows: Whole, cols: Whole }, criteria: Items { items: [Criterion { column: 10, hidden: Items { items: [] }, condition: None }, Criterion { column: 2, hidden: Items { items: [Text { text: \"x\" }, Text { text: \"\" }] }, condition: None }] } } }",
    ),
    (
        "setBasicFilter",
        "{\"filter\":{\"range\":{},\"criteria\":{\"01\":{}}}}",
        "BadShape",
    ),
    (
        "setBasicFilter",
        "{\"filter\":{\"range\":{},\"criteria\":{\"2147483648\":{}}}}",
        "BadShape",
    ),
    (
        "setBasicFilter",
        "{\"filter\":{\"range\":{},\"criteria\":{\"0\":{\"w\":1},\"+1\":{}}}}",
        "BadShape",
    ),
    (
        "setBasicFilter",
        "{\"filter\":{\"range\":{},\"criteria\":{\"0\":{\"w\":1}}}}",
        "Unsupported",
    ),
    (
        "setBasicFilter",
        "{\"filter\":{\"criteria\":{}}}",
        "BadShape",
    ),
    (
        "setBasicFilter",
        "{\"filter\":{\"range\":{},\"criteria\":[]}}",
        "BadShape",
    ),
    (
        "setBasicFilter",
        "{\"filter\":{\"range\":{},\"sortSpecs\":[]}}",
        "Unsupported",
    ),
    (
        "setBasicFilter",
        "{\"filter\":{\"range\":{},\"criteria\":{\"2\":{\"condition\":{\"type\":\"NUMBER_GREATER\",\"values\":[{\"userEnteredValue\":\"-05\"}]}}}}}",
        "SetBasicFilter { filter: Filter { area: Area { sheet: 0, rows: Whole, cols: Whole }, criteria: Items { items: [Criterion { column: 2, hidden: Items { items: [] }, condition: Some(NumberGreater(-5)) }] } } }",
    ),
    (
        "setBasicFilter",
        "{\"filter\":{\"range\":{},\"criteria\":{\"2\":{\"condition\":{\"type\":\"NUMBER_BETWEEN\",\"values\":[{\"userEnteredValue\":\"1\"},{\"userEnteredValue\":\"+9007199254740992\"}]}}}}}",
        "SetBasicFilter { filter: Filter { area: Area { sheet: 0, rows: Whole, cols: Whole }, criteria: Items { items: [Criterion { column: 2, hidden: Items { items: [] }, condition: Some(NumberBetween(1, 9007199254740992)) }] } } }",
    ),
    (
        "setBasicFilter",
        "{\"filter\":{\"range\":{},\"criteria\":{\"2\":{\"condition\":{\"type\":\"NUMBER_EQ\",\"values\":[{\"userEnteredValue\":\"9007199254740993\"}]}}}}}",
        "BadNumber",
    ),
    (
        "setBasicFilter",
        "{\"filter\":{\"range\":{},\"criteria\":{\"2\":{\"condition\":{\"type\":\"NUMBER_EQ\",\"values\":[{\"userEnteredValue\":\"1.0\"}]}}}}}",
        "BadNumber",
    ),
    (
        "setBasicFilter",
        "{\"filter\":{\"range\":{},\"criteria\":{\"2\":{\"condition\":{\"type\":\"NUMBER_EQ\",\"values\":[{\"userEnteredValue\":1}]}}}}}",
        "BadShape",
    ),
    (
        "setBasicFilter",
        "{\"filter\":{\"range\":{},\"criteria\":{\"2\":{\"condition\":{\"type\":\"NUMBER_EQ\",\"values\":[{\"userEnteredValue\":\"x\",\"w\":1}]}}}}}",
        "Unsupported",
    ),
    (
        "setBasicFilter",
        "{\"filter\":{\"range\":{},\"criteria\":{\"2\":{\"condition\":{\"type\":\"NUMBER_EQ\",\"values\":[{\"userEnteredValue\":\"1\"},{\"userEnteredValue\":\"2\"}],\"w\":1}}}}}",
        "BadShape",
    ),
    (
        "setBasicFilter",
        "{\"filter\":{\"range\":{},\"criteria\":{\"2\":{\"condition\":{\"type\":\"NUMBER_EQ\"}}}}}",
        "BadShape",
    ),
    (
        "setBasicFilter",
        "{\"filter\":{\"range\":{},\"criteria\":{\"2\":{\"condition\":{\"type\":\"TEXT_CONTAINS\",\"values\":[{\"userEnteredValue\":\"a\"}]}}}}}",
        "SetBasicFilter { filter: Filter { area: Area { sheet: 0, rows: Whole, cols: Whole }, criteria: Items { items: [Criterion { column: 2, hidden: Items { items: [] }, condition: Some(TextContains(Text { text: \"a\" })) }] } } }",
    ),
    (
        "setBasicFilter",
        "{\"filter\":{\"range\":{},\"criteria\":{\"2\":{\"condition\":{\"type\":\"BLANK\"}}}}}",
        "SetBasicFilter { filter: Filter { area: Area { sheet: 0, rows: Whole, cols: Whole }, criteria: Items { items: [Criterion { column: 2, hidden: Items { items: [] }, condition: Some(Blank) }] } } }",
    ),
    (
        "setBasicFilter",
        "{\"filter\":{\"range\":{},\"criteria\":{\"2\":{\"condition\":{\"type\":\"NOT_BLANK\",\"values\":[]}}}}}",
        "SetBasicFilter { filter: Filter { area: Area { sheet: 0, rows: Whole, cols: Whole }, criteria: Items { items: [Criterion { column: 2, hidden: Items { items: [] }, condition: Some(NotBlank) }] } } }",
    ),
    (
        "setBasicFilter",
        "{\"filter\":{\"range\":{},\"criteria\":{\"2\":{\"condition\":{\"type\":\"BLANK\",\"values\":[{\"userEnteredValue\":\"a\"}]}}}}}",
        "BadShape",
    ),
    (
        "setBasicFilter",
        "{\"filter\":{\"range\":{},\"criteria\":{\"2\":{\"condition\":{\"type\":\"DATE_EQ\",\"values\":[{\"userEnteredValue\":\"a\"}]}}}}}",
        "BadShape",
    ),
    (
        "setBasicFilter",
        "{\"filter\":{\"range\":{},\"criteria\":{\"2\":{\"condition\":{\"values\":[]}}}}}",
        "BadShape",
    ),
    (
        "clearBasicFilter",
        "{\"sheetId\":4}",
        "ClearBasicFilter { sheet_id: 4 }",
    ),
    ("clearBasicFilter", "{}", "BadShape"),
];

#[test]
fn filters_are_set(rt: HostRuntime) {
    for row in &FILTERS {
        let holds = is_step(rt.alloc(), row.0, row.1, row.2);
        check(&rt, row, holds);
    }
}

/// Requests for filters that aren't taken: their kinds, their members, and why.
static REFUSED: [(&str, &str, &str); 3] = [
    (
        "setBasicFilter",
        "{\"filter\":{\"range\":{}},\"w\":1}",
        "Unsupported",
    ),
    ("clearBasicFilter", "{\"sheetId\":4,\"w\":1}", "Unsupported"),
    ("clearBasicFilter", "{\"sheetId\":\"4\"}", "BadShape"),
];

#[test]
fn other_filters_are_refused(rt: HostRuntime) {
    for row in &REFUSED {
        let holds = is_step(rt.alloc(), row.0, row.1, row.2);
        check(&rt, row, holds);
    }
}
