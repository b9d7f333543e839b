use crate::common::Line;
use cell_value::{Block, Items, Text};
use sheets_http::route;
use sheets_json::{Call, RangeBlock, ShapeFault, ValueRange, read_call};
use std::alloc::Global;

/// Whether a request is that call.
pub(crate) fn is_call(alloc: Global, method: &str, target: &str, body: &str, wanted: &str) -> bool {
    let mut line = Line::new(alloc);
    add_request(&mut line, alloc, method, target, body);
    line.as_str() == wanted
}

/// Whether a request is a write whose values are as they should be.
pub(crate) fn is_write(alloc: Global, target: &str, body: &str) -> bool {
    match route(alloc, "PUT", target) {
        Ok(route) => match read_call(alloc, &route, body.as_bytes()) {
            Ok(call) => {
                let holds = has_values(&call);
                drop(call);
                holds
            }
            Err(_) => false,
        },
        Err(_) => false,
    }
}

/// Whether a call is a write whose values are as they should be.
fn has_values(call: &Call) -> bool {
    match call {
        Call::Write { values, .. } => values.is_ok(),
        _ => false,
    }
}

/// What a request is.
fn add_request(line: &mut Line, alloc: Global, method: &str, target: &str, body: &str) {
    match route(alloc, method, target) {
        Ok(route) => match read_call(alloc, &route, body.as_bytes()) {
            Ok(call) => {
                add_call(line, &call);
                drop(call);
            }
            Err(fault) => line.value(&fault),
        },
        Err(fault) => line.value(&fault),
    }
}

/// What a call asks for.
fn add_call(line: &mut Line, call: &Call) {
    match call {
        Call::Create { spreadsheet } => {
            line.word("Create");
            line.value(spreadsheet);
        }
        Call::Get {
            id,
            include_grid_data,
        } => {
            add_start(line, "Get", id);
            line.value(include_grid_data);
        }
        Call::Batch { id, requests } => {
            add_start(line, "Batch", id);
            line.value(&requests.as_slice());
        }
        Call::Read {
            id,
            range,
            major_dimension,
            value_render_option,
        } => {
            add_range(line, "Read", id, range);
            line.value(major_dimension);
            line.value(value_render_option);
        }
        Call::Write {
            id,
            range,
            value_input_option,
            values,
        } => {
            add_range(line, "Write", id, range);
            line.value(value_input_option);
            add_values(line, values);
        }
        Call::Append {
            id,
            range,
            value_input_option,
            insert_data_option,
            values,
        } => {
            add_range(line, "Append", id, range);
            line.value(value_input_option);
            line.value(insert_data_option);
            add_values(line, values);
        }
        Call::Clear { id, range } => add_range(line, "Clear", id, range),
        Call::ReadMany {
            id,
            ranges,
            major_dimension,
            value_render_option,
        } => {
            add_start(line, "ReadMany", id);
            line.value(&ranges.as_slice());
            line.value(major_dimension);
            line.value(value_render_option);
        }
        Call::WriteMany {
            id,
            value_input_option,
            data,
        } => {
            add_start(line, "WriteMany", id);
            line.value(value_input_option);
            add_data(line, data);
        }
        Call::ClearMany { id, ranges } => {
            add_start(line, "ClearMany", id);
            line.value(&ranges.as_slice());
        }
        Call::ReadFiltered {
            id,
            data_filters,
            major_dimension,
            value_render_option,
        } => {
            add_start(line, "ReadFiltered", id);
            line.value(&data_filters.as_slice());
            line.value(major_dimension);
            line.value(value_render_option);
        }
        Call::Item { id, metadata_id } => {
            add_start(line, "Item", id);
            line.value(metadata_id);
        }
        Call::Search { id, data_filters } => {
            add_start(line, "Search", id);
            line.value(&data_filters.as_slice());
        }
    }
}

/// A call's name, and the spreadsheet's id.
fn add_start(line: &mut Line, name: &str, id: &Text) {
    line.word(name);
    line.word(id.as_str());
}

/// The same, and a range.
fn add_range(line: &mut Line, name: &str, id: &Text, range: &Text) {
    add_start(line, name, id);
    line.word(range.as_str());
}

/// The values of a body, line by line.
fn add_block(line: &mut Line, block: &Block) {
    line.word(if block.columns_first {
        "columns"
    } else {
        "rows"
    });
    for values in block.values.as_slice() {
        line.value(&values.as_slice());
    }
}

/// What a body says, or the fault that is kept.
fn add_values(line: &mut Line, values: &Result<ValueRange, ShapeFault>) {
    match values {
        Ok(values) => {
            if let Some(range) = &values.range {
                line.word(range.as_str());
            }
            add_block(line, &values.block);
        }
        Err(fault) => line.value(fault),
    }
}

/// What several bodies say, or the faults that are kept.
fn add_data(line: &mut Line, data: &Items<Result<RangeBlock, ShapeFault>>) {
    for values in data.as_slice() {
        add_range_block(line, values);
        line.word(";");
    }
}

fn add_range_block(line: &mut Line, values: &Result<RangeBlock, ShapeFault>) {
    match values {
        Ok(values) => {
            line.word(values.range.as_str());
            add_block(line, &values.block);
        }
        Err(fault) => line.value(fault),
    }
}
