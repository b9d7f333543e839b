ghost use Rattle.std.specs.Prelude.{◌≡◌, ◌∷◌, [], IfOk, IsTrue};
ghost use Rattle.grid_range.specs.declared.band.Band.TheVariants.{Whole, From, Span};
ghost use Rattle.cell_calc.specs.Lent.{AreCells};

use crate::common::text;
use cell_calc::{AreaCells, CellReader, FilledCell, HeldValue, is_blank};
use cell_value::{Kind, NoMemory, Text, Value};
use formula_reader::SheetNames;
use grid_range::{Area, Band};
use std::alloc::Global;

/// A spreadsheet of one sheet of four rows and two columns. It lends the cells A1, A2, A3, A4 and B1, and the
/// areas A1:A4, A:A, A2:A, 1:1 and A1:B4.
#[derive(Drop)]
pub(crate) struct Spreadsheet {
    title: Text,
    a1: Value,
    a2: Value,
    a3: Value,
    b1: Value,
    rest: Value,
}

impl Spreadsheet {
    /// The sheet `Sheet1` with 3, `x`, TRUE and nothing in A1:A4, and an error in B1.
    pub(crate) fn filled(alloc: Global) -> Spreadsheet {
        Spreadsheet {
            title: text(alloc, "Sheet1"),
            a1: Value::Number(3),
            a2: Value::Text(text(alloc, "x")),
            a3: Value::Truth(true),
            b1: Value::Error(Kind::Div0),
            rest: Value::Blank,
        }
    }

    /// All cells.
    fn table(&self, alloc: Global) -> Result<AreaCells<'_>, NoMemory>
        ensures { IfOk result (λ lent. AreCells lent (record {
          rows = 4;
          columns = 2;
          values = self.now.a1 ∷ self.now.b1 ∷ self.now.a2 ∷ self.now.rest ∷ self.now.a3 ∷ self.now.rest
              ∷ self.now.rest ∷ self.now.rest ∷ [];
        })) }
    {
        if is_blank(&self.a1) {
            return Err(NoMemory);
        }
        if is_blank(&self.b1) {
            return Err(NoMemory);
        }
        if is_blank(&self.a2) {
            return Err(NoMemory);
        }
        if is_blank(&self.a3) {
            return Err(NoMemory);
        }
        if !is_blank(&self.rest) {
            return Err(NoMemory);
        }
        let mut filled = Vec::new(alloc);
        filled.push(FilledCell {
            place: 0,
            value: HeldValue::Lent(&self.a1),
        })?;
        filled.push(FilledCell {
            place: 1,
            value: HeldValue::Lent(&self.b1),
        })?;
        filled.push(FilledCell {
            place: 2,
            value: HeldValue::Lent(&self.a2),
        })?;
        filled.push(FilledCell {
            place: 4,
            value: HeldValue::Lent(&self.a3),
        })?;
        Ok(AreaCells {
            rows: 4,
            columns: 2,
            filled,
        })
    }
}

impl SheetNames for Spreadsheet {
    ghost use Rattle.calc_tests.specs.Spreadsheet.{sheet_titled};

    ghost sheets = { λ s. sheet_titled s.title };

    fn find(&self, title: &str) -> Option<u32> {
        if self.title.as_str().eq_ignore_ascii_case(title) {
            Some(0)
        } else {
            None
        }
    }

    fn size(&self, sheet: u32) -> Option<(u32, u32)> {
        if sheet == 0 { Some((4, 2)) } else { None }
    }

    fn title(&self, sheet: u32) -> Option<&Text> {
        if sheet == 0 { Some(&self.title) } else { None }
    }
}

impl CellReader for Spreadsheet {
    ghost use Rattle.calc_tests.specs.Spreadsheet.{book_of, value_at};

    ghost book = { λ s. book_of (record { a1 = s.a1; a2 = s.a2; a3 = s.a3; b1 = s.b1; rest = s.rest }) };

    ghost read = { λ s. value_at (record { a1 = s.a1; a2 = s.a2; a3 = s.a3; b1 = s.b1; rest = s.rest }) };

    fn cells(&self, alloc: Global, area: &Area) -> Result<AreaCells<'_>, NoMemory> {
        if is_area(area, 0, 1, 0, 1) {
            one_cell(alloc, &self.a1)
        } else if is_area(area, 1, 2, 0, 1) {
            one_cell(alloc, &self.a2)
        } else if is_area(area, 2, 3, 0, 1) {
            one_cell(alloc, &self.a3)
        } else if is_area(area, 3, 4, 0, 1) {
            one_cell(alloc, &self.rest)
        } else if is_area(area, 0, 1, 1, 2) {
            one_cell(alloc, &self.b1)
        } else if is_area(area, 0, 4, 0, 1) {
            four_rows(alloc, &self.a1, &self.a2, &self.a3, &self.rest)
        } else if are_columns(area, 0, 1) {
            four_rows(alloc, &self.a1, &self.a2, &self.a3, &self.rest)
        } else if are_rows_from(area, 1, 0, 1) {
            three_rows(alloc, &self.a2, &self.a3, &self.rest)
        } else if are_rows(area, 0, 1) {
            two_columns(alloc, &self.a1, &self.b1)
        } else if is_area(area, 0, 4, 0, 2) {
            self.table(alloc)
        } else {
            Err(NoMemory)
        }
    }

    fn named(&self, word: &str) -> Option<Area> {
        if word.eq_ignore_ascii_case("items") {
            Some(first_rows(4))
        } else if word.eq_ignore_ascii_case("price") {
            Some(first_rows(1))
        } else {
            None
        }
    }
}

/// Some rows of the first column.
fn first_rows(count: u32) -> Area
    ensures { result ≡ record { sheet = 0; rows = Span 0 count; cols = Span 0 1 } }
{
    Area {
        sheet: 0,
        rows: Band::Span(0, count),
        cols: Band::Span(0, 1),
    }
}

/// Whether the area has these rows and columns of the sheet.
fn is_area(area: &Area, row: u32, row_end: u32, column: u32, column_end: u32) -> bool
    ensures { IsTrue result
        → area.now ≡ record { sheet = 0; rows = Span row row_end; cols = Span column column_end } }
{
    area.sheet == 0 && is_span(area.rows, row, row_end) && is_span(area.cols, column, column_end)
}

/// Whether the area has all rows and these columns of the sheet.
fn are_columns(area: &Area, column: u32, column_end: u32) -> bool
    ensures { IsTrue result
        → area.now ≡ record { sheet = 0; rows = Whole; cols = Span column column_end } }
{
    area.sheet == 0 && is_whole(area.rows) && is_span(area.cols, column, column_end)
}

/// Whether the area has the rows from that one on, and these columns of the sheet.
fn are_rows_from(area: &Area, row: u32, column: u32, column_end: u32) -> bool
    ensures { IsTrue result
        → area.now ≡ record { sheet = 0; rows = From row; cols = Span column column_end } }
{
    area.sheet == 0 && begins_at(area.rows, row) && is_span(area.cols, column, column_end)
}

/// Whether the area has these rows and all columns of the sheet.
fn are_rows(area: &Area, row: u32, row_end: u32) -> bool
    ensures { IsTrue result
        → area.now ≡ record { sheet = 0; rows = Span row row_end; cols = Whole } }
{
    area.sheet == 0 && is_span(area.rows, row, row_end) && is_whole(area.cols)
}

fn is_whole(band: Band) -> bool
    ensures { IsTrue result → band ≡ Whole }
{
    match band {
        Band::Whole => true,
        Band::From(_) | Band::Span(_, _) => false,
    }
}

fn begins_at(band: Band, start: u32) -> bool
    ensures { IsTrue result → band ≡ From start }
{
    match band {
        Band::From(first) => first == start,
        Band::Whole | Band::Span(_, _) => false,
    }
}

fn is_span(band: Band, start: u32, end: u32) -> bool
    ensures { IsTrue result → band ≡ Span start end }
{
    match band {
        Band::Span(first, last) => first == start && last == end,
        Band::Whole | Band::From(_) => false,
    }
}

/// The cells of an area of one cell.
fn one_cell<'a>(alloc: Global, value: &'a Value) -> Result<AreaCells<'a>, NoMemory>
    ensures { IfOk result (λ lent. AreCells lent (record { rows = 1; columns = 1; values = value.now ∷ [] })) }
{
    let mut filled = Vec::new(alloc);
    if !is_blank(value) {
        filled.push(FilledCell {
            place: 0,
            value: HeldValue::Lent(value),
        })?;
    }
    Ok(AreaCells {
        rows: 1,
        columns: 1,
        filled,
    })
}

/// The cells of an area of four rows and one column, where the last one alone is blank.
fn four_rows<'a>(
    alloc: Global,
    one: &'a Value,
    two: &'a Value,
    three: &'a Value,
    four: &'a Value,
) -> Result<AreaCells<'a>, NoMemory>
    ensures { IfOk result (λ lent. AreCells lent (record {
      rows = 4;
      columns = 1;
      values = one.now ∷ two.now ∷ three.now ∷ four.now ∷ [];
    })) }
{
    if is_blank(one) {
        return Err(NoMemory);
    }
    if is_blank(two) {
        return Err(NoMemory);
    }
    if is_blank(three) {
        return Err(NoMemory);
    }
    if !is_blank(four) {
        return Err(NoMemory);
    }
    let mut filled = Vec::new(alloc);
    filled.push(FilledCell {
        place: 0,
        value: HeldValue::Lent(one),
    })?;
    filled.push(FilledCell {
        place: 1,
        value: HeldValue::Lent(two),
    })?;
    filled.push(FilledCell {
        place: 2,
        value: HeldValue::Lent(three),
    })?;
    Ok(AreaCells {
        rows: 4,
        columns: 1,
        filled,
    })
}

/// The cells of an area of three rows and one column, where the last one alone is blank.
fn three_rows<'a>(
    alloc: Global,
    one: &'a Value,
    two: &'a Value,
    three: &'a Value,
) -> Result<AreaCells<'a>, NoMemory>
    ensures { IfOk result (λ lent. AreCells lent (record {
      rows = 3;
      columns = 1;
      values = one.now ∷ two.now ∷ three.now ∷ [];
    })) }
{
    if is_blank(one) {
        return Err(NoMemory);
    }
    if is_blank(two) {
        return Err(NoMemory);
    }
    if !is_blank(three) {
        return Err(NoMemory);
    }
    let mut filled = Vec::new(alloc);
    filled.push(FilledCell {
        place: 0,
        value: HeldValue::Lent(one),
    })?;
    filled.push(FilledCell {
        place: 1,
        value: HeldValue::Lent(two),
    })?;
    Ok(AreaCells {
        rows: 3,
        columns: 1,
        filled,
    })
}

/// The cells of an area of one row and two columns, where none is blank.
fn two_columns<'a>(alloc: Global, one: &'a Value, two: &'a Value) -> Result<AreaCells<'a>, NoMemory>
    ensures { IfOk result (λ lent. AreCells lent (record {
      rows = 1;
      columns = 2;
      values = one.now ∷ two.now ∷ [];
    })) }
{
    if is_blank(one) {
        return Err(NoMemory);
    }
    if is_blank(two) {
        return Err(NoMemory);
    }
    let mut filled = Vec::new(alloc);
    filled.push(FilledCell {
        place: 0,
        value: HeldValue::Lent(one),
    })?;
    filled.push(FilledCell {
        place: 1,
        value: HeldValue::Lent(two),
    })?;
    Ok(AreaCells {
        rows: 1,
        columns: 2,
        filled,
    })
}
