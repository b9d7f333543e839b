ghost use Rattle.std.specs.Prelude.{◌≡◌, ◌<◌, ◌≤◌, ◌∷◌, [], IfErr, IfOk, IsSomeAnd, None, Some};
ghost use Rattle.grid_range.specs.Change.{Fits};
ghost use Rattle.grid_range.specs.declared.change.Change.TheVariants.{Insert};
ghost use Rattle.world_model.specs.BookChange.BookChange.{LinesChanged};
ghost use Rattle.world_model.specs.Sound.{place_sheet_with};
ghost use Rattle.dimension_ops.specs.Broken.{first_broken, judged_by};
ghost use Rattle.dimension_ops.specs.Lines.{lines_broken, lines_of_sheet};
ghost use Rattle.dimension_ops.specs.Rules.{IsUnlessNoMemory};
ghost use Rattle.sheets_json.specs.declared.spreadsheet.Reply.TheVariants.{Empty};
ghost use Rattle.values_api.specs.Denials.{IsDenial};
ghost use Rattle.request_kinds.specs.Dimensions.{append_broken, delete_broken, insert_broken, move_broken, end_of};
ghost use Rattle.request_kinds.specs.Dimensions.{dimension_appended, dimension_deleted, dimension_inserted, dimension_moved};
ghost use Rattle.request_kinds.specs.Dimensions.{DeletedCells, MovedCells, lines_area, whole_sheet};
ghost use Rattle.request_kinds.specs.Telling.{IsDoneTo};

use dimension_ops::{Book, Rule, RuleOr, Sheet, change_sheet, insert_lines};
use grid_range::{Area, Axis, Band, Change};
use sheets_json::{DimensionRange, Reply};
use values_api::area_denial;

/// Inserts the lines of the range; `inherits` tells whether they are to be like the line before them.
pub(crate) fn insert_dimension(
    book: &mut Book,
    range: DimensionRange,
    inherits: bool,
) -> Result<Reply, RuleOr>
    ensures { IsUnlessNoMemory
        (IsDoneTo (λ told. told ≡ dimension_inserted range inherits book.old.sheets) book.old book.new) result }
{
    match inserted(book, range, inherits) {
        Ok(end) => {
            let count = end - range.start_index;
            insert(
                book,
                range.sheet_id,
                range.dimension,
                range.start_index,
                count,
            )
        }
        Err(rule) => Err(RuleOr::Rule(rule)),
    }
}

/// Deletes the lines of the range.
pub(crate) fn delete_dimension(book: &mut Book, range: DimensionRange) -> Result<Reply, RuleOr>
    ensures { IsUnlessNoMemory
        (IsDoneTo (λ told. told ≡ dimension_deleted range book.old.sheets) book.old book.new) result }
{
    match deleted(book, range) {
        Ok(end) => {
            let start = range.start_index;
            change(
                book,
                range.sheet_id,
                range.dimension,
                &Change::Delete { start, end },
            )
        }
        Err(rule) => Err(RuleOr::Rule(rule)),
    }
}

/// Moves the lines of the range before the line `to`, which is counted before they are taken away.
pub(crate) fn move_dimension(
    book: &mut Book,
    range: DimensionRange,
    to: u32,
) -> Result<Reply, RuleOr>
    ensures { IsUnlessNoMemory
        (IsDoneTo (λ told. told ≡ dimension_moved range to book.old.sheets) book.old book.new) result }
{
    match moved(book, range, to) {
        Ok(end) => {
            let start = range.start_index;
            change(
                book,
                range.sheet_id,
                range.dimension,
                &Change::Move { start, end, to },
            )
        }
        Err(rule) => Err(RuleOr::Rule(rule)),
    }
}

/// Appends so many lines to a sheet.
pub(crate) fn append_dimension(
    book: &mut Book,
    sheet: u32,
    axis: Axis,
    length: u32,
) -> Result<Reply, RuleOr>
    ensures { IsUnlessNoMemory
        (IsDoneTo (λ told. told ≡ dimension_appended sheet axis length book.old.sheets) book.old book.new) result }
{
    match appended(book, sheet, axis, length) {
        Ok(at) => insert(book, sheet, axis, at, length),
        Err(rule) => Err(RuleOr::Rule(rule)),
    }
}

/// The end of a range of lines that can be inserted, or the first rule that it breaks.
fn inserted(book: &Book, range: DimensionRange, inherits: bool) -> Result<u32, Rule>
    ensures broken { IfErr result (λ rule. first_broken (insert_broken range inherits book.now.sheets) ≡ Some rule) }
    ensures unbroken { IfOk result (λ _. first_broken (insert_broken range inherits book.now.sheets) ≡ None) }
    ensures end { IfOk result (λ end. end ≡ end_of range book.now.sheets) }
    ensures some { IfOk result (λ end. range.start_index < end) }
    ensures there { IfOk result (λ _. IsSomeAnd (place_sheet_with range.sheet_id book.now.sheets)
        (λ sheet. range.start_index ≤ lines_of_sheet range.dimension sheet)) }
{
    let Some(sheet) = book.sheet(range.sheet_id) else {
        return Err(Rule::NoSheet);
    };
    let lines = lines_of(sheet, range.dimension);
    let end = range.end_index.unwrap_or(lines);
    if end <= range.start_index {
        return Err(Rule::BadRange);
    }
    let is_outside = if inherits {
        range.start_index > lines
    } else {
        range.start_index >= lines
    };
    if is_outside {
        return Err(Rule::OutsideGrid);
    }
    if inherits && range.start_index == 0 {
        return Err(Rule::InheritAtZero);
    }
    Ok(end)
}

/// The end of a range of lines that can be deleted, or the first rule that it breaks.
fn deleted(book: &Book, range: DimensionRange) -> Result<u32, Rule>
    ensures broken { IfErr result (λ rule. first_broken (delete_broken range book.now.sheets) ≡ Some rule) }
    ensures unbroken { IfOk result (λ _. first_broken (delete_broken range book.now.sheets) ≡ None) }
    ensures end { IfOk result (λ end. end ≡ end_of range book.now.sheets) }
    ensures some { IfOk result (λ end. range.start_index < end) }
    ensures there { IfOk result (λ end. IsSomeAnd (place_sheet_with range.sheet_id book.now.sheets)
        (λ sheet. end ≤ lines_of_sheet range.dimension sheet)) }
{
    let Some(sheet) = book.sheet(range.sheet_id) else {
        return Err(Rule::NoSheet);
    };
    let lines = lines_of(sheet, range.dimension);
    let end = range.end_index.unwrap_or(lines);
    if end <= range.start_index {
        return Err(Rule::BadRange);
    }
    if end > lines {
        return Err(Rule::OutsideGrid);
    }
    Ok(end)
}

/// The end of a range of lines that can be moved before the line `to`, or the first rule that it breaks.
fn moved(book: &Book, range: DimensionRange, to: u32) -> Result<u32, Rule>
    ensures broken { IfErr result (λ rule. first_broken (move_broken range to book.now.sheets) ≡ Some rule) }
    ensures unbroken { IfOk result (λ _. first_broken (move_broken range to book.now.sheets) ≡ None) }
    ensures end { IfOk result (λ end. end ≡ end_of range book.now.sheets) }
    ensures some { IfOk result (λ end. range.start_index < end) }
    ensures there { IfOk result (λ end. IsSomeAnd (place_sheet_with range.sheet_id book.now.sheets)
        (λ sheet. end ≤ lines_of_sheet range.dimension sheet)) }
    ensures destination { IfOk result (λ _. IsSomeAnd (place_sheet_with range.sheet_id book.now.sheets)
        (λ sheet. to ≤ lines_of_sheet range.dimension sheet)) }
{
    let Some(sheet) = book.sheet(range.sheet_id) else {
        return Err(Rule::NoSheet);
    };
    let lines = lines_of(sheet, range.dimension);
    let end = range.end_index.unwrap_or(lines);
    if end <= range.start_index {
        return Err(Rule::BadRange);
    }
    if end > lines || to > lines {
        return Err(Rule::OutsideGrid);
    }
    Ok(end)
}

/// The place of lines that can be appended to a sheet, or the first rule that is broken.
fn appended(book: &Book, sheet: u32, axis: Axis, length: u32) -> Result<u32, Rule>
    ensures broken { IfErr result (λ rule. first_broken (append_broken sheet length book.now.sheets) ≡ Some rule) }
    ensures unbroken { IfOk result (λ _. first_broken (append_broken sheet length book.now.sheets) ≡ None) }
    ensures some { IfOk result (λ _. 0 < length) }
    ensures there { IfOk result
        (λ at. IsSomeAnd (place_sheet_with sheet book.now.sheets) (λ found. at ≡ lines_of_sheet axis found)) }
{
    let Some(found) = book.sheet(sheet) else {
        return Err(Rule::NoSheet);
    };
    if length == 0 {
        return Err(Rule::BadRange);
    }
    Ok(lines_of(found, axis))
}

/// How many lines the sheet has on the axis.
pub(crate) fn lines_of(sheet: &Sheet, axis: Axis) -> u32
    ensures { result ≡ lines_of_sheet axis sheet.now }
{
    match axis {
        Axis::Rows => sheet.rows(),
        Axis::Columns => sheet.cols(),
    }
}

/// Inserts so many lines before the line `at`.
fn insert(book: &mut Book, sheet: u32, axis: Axis, at: u32, count: u32) -> Result<Reply, RuleOr>
    requires some { 0 < count }
    requires there { IsSomeAnd (place_sheet_with sheet book.old.sheets) (λ found. at ≤ lines_of_sheet axis found) }
    ensures { IsUnlessNoMemory
        (IsDoneTo (λ told. told ≡ judged_by (lines_broken sheet axis (Insert at count) book.old.sheets)
        (Empty, LinesChanged sheet axis (Insert at count) ∷ [])) book.old book.new) result }
{
    match insert_lines(book, sheet, axis, at, count) {
        Ok(()) => Ok(Reply::Empty),
        Err(fault) => Err(fault),
    }
}

/// Makes the change of lines.
fn change(book: &mut Book, sheet: u32, axis: Axis, change: &Change) -> Result<Reply, RuleOr>
    requires { IsSomeAnd (place_sheet_with sheet book.old.sheets)
        (λ found. Fits change.now (lines_of_sheet axis found)) }
    ensures { IsUnlessNoMemory (IsDoneTo (λ told. told ≡ judged_by (lines_broken sheet axis change.now book.old.sheets)
        (Empty, LinesChanged sheet axis change.now ∷ [])) book.old book.new) result }
{
    match change_sheet(book, sheet, axis, change) {
        Ok(()) => Ok(Reply::Empty),
        Err(fault) => Err(fault),
    }
}

/// The least id of a protected range that denies the user a cell of the lines that are deleted; None where none does.
pub(crate) fn deleted_denial(book: &Book, user: &str, range: DimensionRange) -> Option<u32>
    ensures { IsDenial user.now book.now (DeletedCells range book.now.sheets) result }
{
    area_denial(book, user, &lines_area(book, range))
}

/// The same of lines that are moved before the line `to`; where they stay there none is denied.
pub(crate) fn moved_denial(book: &Book, user: &str, range: DimensionRange, to: u32) -> Option<u32>
    ensures { IsDenial user.now book.now (MovedCells range to book.now.sheets) result }
{
    if range.start_index <= to && to <= end_of(book, range) {
        return None;
    }
    area_denial(book, user, &lines_area(book, range))
}

/// The lines of a range (Sheets API v4 reference, DimensionRange); without an end it goes to the sheet's last line.
pub fn lines_area(book: &Book, range: DimensionRange) -> Area
    ensures { result ≡ lines_area range book.now.sheets }
{
    let lines = Band::Span(range.start_index, end_of(book, range));
    match range.dimension {
        Axis::Rows => Area {
            rows: lines,
            ..whole_sheet(range.sheet_id)
        },
        Axis::Columns => Area {
            cols: lines,
            ..whole_sheet(range.sheet_id)
        },
    }
}

/// The line behind the last one of a range; without it the range goes to the sheet's end.
pub(crate) fn end_of(book: &Book, range: DimensionRange) -> u32
    ensures { result ≡ end_of range book.now.sheets }
{
    match range.end_index {
        Some(end) => end,
        None => match book.sheet(range.sheet_id) {
            Some(sheet) => lines_of(sheet, range.dimension),
            None => 0,
        },
    }
}

/// All cells of a sheet.
pub fn whole_sheet(sheet: u32) -> Area
    ensures { result ≡ whole_sheet sheet }
{
    Area {
        sheet,
        rows: Band::Whole,
        cols: Band::Whole,
    }
}
