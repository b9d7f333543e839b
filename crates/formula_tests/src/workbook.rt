ghost use Rattle.std.specs.Prelude.{◌≡◌, IsTrue};
ghost use Rattle.formula_reader.specs.ReadBack.{AreKnown};
ghost use Rattle.formula_tests.specs.Workbook.{sheets_of};

use crate::common::text;
use cell_value::Text;
use formula_reader::SheetNames;
use std::alloc::Global;

/// A spreadsheet of two sheets of 1,000 rows and 26 columns, with the ids 0 and 7.
#[derive(Drop)]
pub(crate) struct Workbook {
    first: Text,
    second: Text,
}

impl Workbook {
    /// The sheets `Sheet1` and `Jon's data`.
    pub(crate) fn of_two(alloc: Global) -> Workbook {
        Workbook {
            first: text(alloc, "Sheet1"),
            second: text(alloc, "Jon's data"),
        }
    }

    /// Whether both sheets have titles, which name them.
    pub(crate) fn is_known(&self) -> bool
        ensures { IsTrue result → AreKnown (sheets_of self.now.first self.now.second) 0 }
    {
        let first = self.first.as_str();
        if first.is_empty() {
            return false;
        }
        let second = self.second.as_str();
        if second.is_empty() {
            return false;
        }
        !first.eq_ignore_ascii_case(second)
    }
}

impl SheetNames for Workbook {
    ghost use Rattle.formula_tests.specs.Workbook.{sheets_of};

    ghost sheets = { λ w. sheets_of w.first w.second };

    fn find(&self, title: &str) -> Option<u32> {
        if self.first.as_str().eq_ignore_ascii_case(title) {
            Some(0)
        } else if self.second.as_str().eq_ignore_ascii_case(title) {
            Some(7)
        } else {
            None
        }
    }

    fn size(&self, sheet: u32) -> Option<(u32, u32)> {
        if sheet == 0 || sheet == 7 {
            Some((1_000, 26))
        } else {
            None
        }
    }

    fn title(&self, sheet: u32) -> Option<&Text> {
        if sheet == 0 {
            Some(&self.first)
        } else if sheet == 7 {
            Some(&self.second)
        } else {
            None
        }
    }
}
