use crate::calls::is_call;
use crate::common::{Line, check, joined};
use cell_value::Items;
use sheets_http::route;
use sheets_json::{Call, Step, read_call};
use std::alloc::Global;

const BATCH: &str = "/v4/spreadsheets/b1:batchUpdate";

/// Bodies of batches, and what they are.
static BATCHES: [(&str, &str); 8] = [
    (
        "{\"requests\":[{\"sortRange\":{}},{\"sortRange\":7},{},7,{\"addSheet\":{},\"deleteSheet\":{\"sheetId\":1}},{\"addSheet\":{},\"sortRange\":{}}]}",
        "Batch b1 [Shape(Unsupported), Shape(BadShape), Shape(BadShape), Shape(BadShape), Shape(BadShape), Shape(BadShape)]",
    ),
    (
        "{\"requests\":[{\"addSheet\":null,\"deleteSheet\":{\"sheetId\":1},\"sortRange\":null},null]}",
        "Batch b1 [Read(DeleteSheet { sheet_id: 1 }), Shape(BadShape)]",
    ),
    ("{\"requests\":[]}", "EmptyBatch"),
    ("{}", "BadBody"),
    ("{\"requests\":{}}", "BadBody"),
    ("{\"requests\":[],\"x\":1}", "BadBody"),
    (
        "{\"requests\":[{}],\"includeSpreadsheetInResponse\":true}",
        "BadBody",
    ),
    (
        "{\"requests\":[{}],\"includeSpreadsheetInResponse\":false,\"responseIncludeGridData\":false}",
        "Batch b1 [Shape(BadShape)]",
    ),
];

#[test]
fn batches_are_steps(rt: HostRuntime) {
    for row in &BATCHES {
        let holds = is_call(rt.alloc(), "POST", BATCH, row.0, row.1);
        check(&rt, row, holds);
    }
}

/// Whether a request of a kind with these members, alone in its batch, is that.
pub(crate) fn is_step(alloc: Global, kind: &str, members: &str, wanted: &str) -> bool {
    let named = joined(alloc, "{\"", kind, "\":");
    let request = joined(alloc, named.as_str(), members, "}");
    let body = joined(alloc, "{\"requests\":[", request.as_str(), "]}");
    let mut line = Line::new(alloc);
    add_batch(&mut line, alloc, body.as_str());
    line.as_str() == wanted
}

/// What the requests of a batch are.
fn add_batch(line: &mut Line, alloc: Global, body: &str) {
    match route(alloc, "POST", BATCH) {
        Ok(route) => match read_call(alloc, &route, body.as_bytes()) {
            Ok(call) => {
                add_call_steps(line, &call);
                drop(call);
            }
            Err(fault) => line.value(&fault),
        },
        Err(fault) => line.value(&fault),
    }
}

/// What the requests of a call are, if it is a batch.
fn add_call_steps(line: &mut Line, call: &Call) {
    match call {
        Call::Batch { requests, .. } => add_steps(line, requests),
        _ => line.word("another call"),
    }
}

fn add_steps(line: &mut Line, steps: &Items<Step>) {
    for step in steps.as_slice() {
        match step {
            Step::Read(request) => line.value(request),
            Step::Shape(fault) => line.value(fault),
        }
    }
}
