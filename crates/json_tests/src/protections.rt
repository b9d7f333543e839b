use crate::common::check;
use crate::steps::is_step;

/// Requests for protected ranges: their kinds, their members, and what they are.
static PROTECTIONS: [(&str, &str, &str); 19] = [
    (
        "addProtectedRange",
        "{\"protectedRange\":{\"range\":{},\"requestingUserCanEdit\":7}}",
        "AddProtectedRange { protected_range_id: None, patch: ProtectionPatch { area: Some(Area { sheet: 0, rows: Whole, cols: Whole }), description: None, warning_only: None, unprotected: None, editors: None } }",
    ),
    (
        "addProtectedRange",
        "{\"protectedRange\":{\"protectedRangeId\":3,\"range\":{},\"description\":\"d\",\"warningOnly\":true,\"unprotectedRanges\":[{\"startRowIndex\":1}],\"editors\":{\"users\":[\"bob\"]}}}",
        "AddProtectedRange { protected_range_id: Some(3), patch: ProtectionPatch { area: Some(Area { sheet: 0, rows: Whole, cols: Whole }), description: Some(Text { text: \"d\" }), warning_only: Some(true), unprotected: Some(Items { items: [Area { sheet: 0, rows: From(1), cols: Whole }] }), editors: Some(Items { items: [Text { text: \"bob\" }] }) } }",
    ),
    (
        "addProtectedRange",
        "{\"protectedRange\":{\"range\":{},\"editors\":{}}}",
        "AddProtectedRange { protected_range_id: None, patch: ProtectionPatch { area: Some(Area { sheet: 0, rows: Whole, cols: Whole }), description: None, warning_only: None, unprotected: None, editors: Some(Items { items: [] }) } }",
    ),
    (
        "addProtectedRange",
        "{\"protectedRange\":{\"protectedRangeId\":3}}",
        "BadShape",
    ),
    (
        "addProtectedRange",
        "{\"protectedRange\":{\"range\":{},\"namedRangeId\":\"n\"}}",
        "Unsupported",
    ),
    (
        "addProtectedRange",
        "{\"protectedRange\":{\"range\":{},\"editors\":{\"users\":[\"a\"],\"groups\":[]}}}",
        "Unsupported",
    ),
    (
        "addProtectedRange",
        "{\"protectedRange\":{\"range\":{\"endRowIndex\":3,\"w\":1},\"unprotectedRanges\":[{}]}}",
        "BadShape",
    ),
    (
        "addProtectedRange",
        "{\"protectedRange\":{\"range\":{\"endRowIndex\":3},\"unprotectedRanges\":[]}}",
        "AddProtectedRange { protected_range_id: None, patch: ProtectionPatch { area: Some(Area { sheet: 0, rows: Span(0, 3), cols: Whole }), description: None, warning_only: None, unprotected: Some(Items { items: [] }), editors: None } }",
    ),
    (
        "addProtectedRange",
        "{\"protectedRange\":{\"range\":{},\"warningOnly\":1}}",
        "BadShape",
    ),
    (
        "updateProtectedRange",
        "{\"protectedRange\":{\"protectedRangeId\":3,\"range\":{\"endRowIndex\":3},\"unprotectedRanges\":[{}],\"description\":\"d\"},\"fields\":\"description,range\"}",
        "UpdateProtectedRange { protected_range_id: 3, patch: ProtectionPatch { area: Some(Area { sheet: 0, rows: Span(0, 3), cols: Whole }), description: Some(Text { text: \"d\" }), warning_only: None, unprotected: None, editors: None } }",
    ),
    (
        "updateProtectedRange",
        "{\"protectedRange\":{\"protectedRangeId\":3,\"range\":{\"endRowIndex\":3,\"w\":1},\"unprotectedRanges\":[{}]},\"fields\":\"*\"}",
        "BadShape",
    ),
    (
        "updateProtectedRange",
        "{\"protectedRange\":{\"protectedRangeId\":3,\"range\":{\"endRowIndex\":3,\"w\":1},\"unprotectedRanges\":[{}]},\"fields\":\"range\"}",
        "Unsupported",
    ),
    (
        "updateProtectedRange",
        "{\"protectedRange\":{\"protectedRangeId\":3,\"warningOnly\":true},\"fields\":\"*\"}",
        "UpdateProtectedRange { protected_range_id: 3, patch: ProtectionPatch { area: None, description: None, warning_only: Some(true), unprotected: None, editors: None } }",
    ),
    (
        "updateProtectedRange",
        "{\"protectedRange\":{\"warningOnly\":true},\"fields\":\"*\"}",
        "BadShape",
    ),
    (
        "updateProtectedRange",
        "{\"protectedRange\":{\"protectedRangeId\":3},\"fields\":\"editors\"}",
        "BadShape",
    ),
    (
        "updateProtectedRange",
        "{\"protectedRange\":{\"protectedRangeId\":3},\"fields\":\"protectedRangeId\"}",
        "Unsupported",
    ),
    (
        "deleteProtectedRange",
        "{\"protectedRangeId\":3}",
        "DeleteProtectedRange { protected_range_id: 3 }",
    ),
    (
        "deleteProtectedRange",
        "{\"protectedRangeId\":2147483648}",
        "BadShape",
    ),
    ("deleteProtectedRange", "{}", "BadShape"),
];

#[test]
fn ranges_are_protected(rt: HostRuntime) {
    for row in &PROTECTIONS {
        let holds = is_step(rt.alloc(), row.0, row.1, row.2);
        check(&rt, row, holds);
    }
}

/// Requests for protected ranges that aren't taken: their kinds, their members, and why.
static REFUSED: [(&str, &str, &str); 5] = [
    (
        "addProtectedRange",
        "{\"protectedRange\":{\"range\":{}},\"w\":1}",
        "Unsupported",
    ),
    (
        "updateProtectedRange",
        "{\"protectedRange\":{\"protectedRangeId\":\"3\"},\"fields\":\"*\"}",
        "BadShape",
    ),
    (
        "updateProtectedRange",
        "{\"protectedRange\":{\"protectedRangeId\":3},\"fields\":\"*\",\"w\":1}",
        "Unsupported",
    ),
    (
        "deleteProtectedRange",
        "{\"protectedRangeId\":3,\"w\":1}",
        "Unsupported",
    ),
    (
        "deleteProtectedRange",
        "{\"protectedRangeId\":\"3\"}",
        "BadShape",
    ),
];

#[test]
fn other_protections_are_refused(rt: HostRuntime) {
    for row in &REFUSED {
        let holds = is_step(rt.alloc(), row.0, row.1, row.2);
        check(&rt, row, holds);
    }
}
