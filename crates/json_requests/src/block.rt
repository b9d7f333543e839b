ghost use Rattle.std.specs.Prelude.{◌≡◌, [], Some, unwrap_or};
ghost use Rattle.json_requests.specs.Blocks.{is_columns, block_of};

use cell_value::{Block, Input, Items};
use grid_range::Axis;
use std::alloc::Global;

/// The lines of values that are given.
type Lines = Option<Items<Items<Input>>>;

/// The values, which are rows unless the dimension says otherwise.
pub fn block_of(alloc: Global, dimension: Option<Axis>, values: Lines) -> Block
    ensures { result ≡ block_of dimension values }
{
    Block {
        columns_first: is_columns(dimension),
        values: lines_of(alloc, values),
    }
}

/// The lines, none where none are given.
fn lines_of(alloc: Global, values: Lines) -> Items<Items<Input>>
    ensures { result ≡ unwrap_or values [] }
{
    match values {
        Some(lines) => lines,
        None => Items::of(Vec::new(alloc)),
    }
}

/// Whether the inner lists are columns.
fn is_columns(dimension: Option<Axis>) -> bool
    ensures { result ≡ is_columns dimension }
{
    match dimension {
        None => false,
        Some(axis) => is_column_axis(axis),
    }
}

/// Whether the axis is that of columns.
fn is_column_axis(axis: Axis) -> bool
    ensures { result ≡ is_columns (Some axis) }
{
    match axis {
        Axis::Rows => false,
        Axis::Columns => true,
    }
}
