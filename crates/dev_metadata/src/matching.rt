ghost use Rattle.std.specs.Prelude.{◌≡◌, ◌==◌, true, IfOk, if◌then◌else◌};
ghost use Rattle.std.specs.List.{list_any};
ghost use Rattle.std.specs.Option.{option_map_or};
ghost use Rattle.dev_metadata.specs.Spot.{is_same_axis, is_spreadsheet, is_sheet, is_line_on, is_on_sheet, is_line, is_same_spot, share_sheet, are_row_and_column, intersect};
ghost use Rattle.dev_metadata.specs.Kind.{has_kind};
ghost use Rattle.dev_metadata.specs.Visibility.{is_seen_under, is_of_document};
ghost use Rattle.dev_metadata.specs.VisibilityKind.{has_visibility, visibility_given};
ghost use Rattle.dev_metadata.specs.Lookup.{is_exact, asks_nothing, limits_to_spreadsheet, asks_for_sheet_or_line, is_bad, has_bad, is_text_asked, is_spot_asked, meets, finds, finds_some};

use crate::types::{Item, Lookup, Spot, SpotKind, Visibility, VisibilityKind};
use cell_value::{NoMemory, Text};
use grid_range::Axis;
use std::alloc::Global;

/// Whether one of the look-ups is bad.
pub(crate) fn has_bad(lookups: &[Lookup]) -> bool
    ensures { result ≡ has_bad lookups.now }
{
    lookups.iter().any(|lookup| lookup.is_bad())
}

impl Lookup {
    /// Whether it asks nothing, or for what can't stand together: a strategy without a location, a kind
    /// of location beside EXACT_LOCATION, or the kind SPREADSHEET beside INTERSECTING_LOCATION or
    /// another location.
    pub(crate) fn is_bad(&self) -> bool
        ensures { result ≡ is_bad self.now }
    {
        self.asks_nothing()
            || (self.strategy_given && self.spot.is_none())
            || (self.kind.is_some() && self.is_exact())
            || self.limits_to_spreadsheet()
    }

    /// Whether no member is given.
    fn asks_nothing(&self) -> bool
        ensures { result ≡ asks_nothing self.now }
    {
        self.kind.is_none()
            && self.spot.is_none()
            && !self.strategy_given
            && self.id.is_none()
            && self.key.is_none()
            && self.value.is_none()
            && self.visibility.is_none()
    }

    /// Whether the kind SPREADSHEET is given beside INTERSECTING_LOCATION or another location.
    fn limits_to_spreadsheet(&self) -> bool
        ensures { result ≡ limits_to_spreadsheet self.now }
    {
        match self.kind {
            Some(SpotKind::Spreadsheet) => {
                (self.strategy_given && self.intersecting) || self.asks_for_sheet_or_line()
            }
            _ => false,
        }
    }

    /// Whether a location other than the spreadsheet is given.
    fn asks_for_sheet_or_line(&self) -> bool
        ensures { result ≡ asks_for_sheet_or_line self.now }
    {
        match self.spot {
            Some(spot) => !spot.is_spreadsheet(),
            None => false,
        }
    }

    /// Whether EXACT_LOCATION is given.
    fn is_exact(&self) -> bool
        ensures { result ≡ is_exact self.now }
    {
        self.strategy_given && !self.intersecting
    }

    /// Whether the project sees the item and the item meets the look-up.
    pub(crate) fn finds(&self, project: &str, item: &Item) -> bool
        ensures { result ≡ finds self.now project.now item.now }
    {
        item.visibility.is_seen_under(project) && self.meets(item)
    }

    /// Whether all members hold of the item that are given.
    fn meets(&self, item: &Item) -> bool
        ensures { result ≡ meets self.now item.now }
    {
        self.is_kind_asked(item.spot)
            && self.is_spot_asked(item.spot)
            && self.is_id_asked(item.id)
            && is_text_asked(&self.key, &item.key)
            && is_text_asked(&self.value, &item.value)
            && self.is_visibility_asked(&item.visibility)
    }

    /// Whether the location is of the kind that is asked for, if one is.
    fn is_kind_asked(&self, spot: Spot) -> bool
        ensures { result ≡ option_map_or (λ kind. has_kind kind spot) self.now.kind true }
    {
        match self.kind {
            Some(kind) => spot.has_kind(kind),
            None => true,
        }
    }

    /// Whether the location is the one that is asked for or intersects it, as the strategy says, if one
    /// is.
    fn is_spot_asked(&self, spot: Spot) -> bool
        ensures { result ≡ is_spot_asked self.now spot }
    {
        match self.spot {
            Some(asked) => asked.is_met_by(self.is_exact(), spot),
            None => true,
        }
    }

    /// Whether the id is the one that is asked for, if one is.
    fn is_id_asked(&self, id: u32) -> bool
        ensures { result ≡ option_map_or (λ asked. asked == id) self.now.id true }
    {
        match self.id {
            Some(asked) => asked == id,
            None => true,
        }
    }

    /// Whether the visibility is the one that is asked for, if one is.
    fn is_visibility_asked(&self, visibility: &Visibility) -> bool
        ensures { result ≡ option_map_or (λ asked. has_visibility asked visibility.now) self.now.visibility true }
    {
        match self.visibility {
            Some(asked) => visibility.is_of(asked),
            None => true,
        }
    }
}

/// Whether the text is the one that is asked for, if one is.
fn is_text_asked(asked: &Option<Text>, text: &Text) -> bool
    ensures { result ≡ is_text_asked asked.now text.now }
{
    match asked {
        Some(asked) => asked.as_str() == text.as_str(),
        None => true,
    }
}

impl Item {
    /// Whether the project sees the item and the item meets one of the look-ups.
    pub(crate) fn is_found(&self, lookups: &[Lookup], project: &str) -> bool
        ensures { result ≡ finds_some lookups.now project.now self.now }
    {
        self.visibility.is_seen_under(project) && self.meets_some(lookups)
    }

    /// Whether the item meets one of the look-ups.
    fn meets_some(&self, lookups: &[Lookup]) -> bool
        ensures { result ≡ list_any (λ lookup. meets lookup self.now) lookups.now }
    {
        lookups.iter().any(|lookup| lookup.meets(self))
    }
}

impl VisibilityKind {
    /// Under which projects an item is seen that a call of the project gives this word.
    ///
    /// # Errors
    ///
    /// Only where the project can't be copied.
    pub fn under(self, alloc: Global, project: &str) -> Result<Visibility, NoMemory>
        ensures { IfOk result (λ visibility. visibility ≡ visibility_given project.now self) }
    {
        match self {
            VisibilityKind::Document => Ok(Visibility::Document),
            VisibilityKind::Project => Ok(Visibility::Project(Text::of(String::from_str(
                alloc, project,
            )?))),
        }
    }
}

impl Visibility {
    /// Whether the project sees what has this visibility.
    pub(crate) fn is_seen_under(&self, project: &str) -> bool
        ensures { result ≡ is_seen_under project.now self.now }
    {
        match self {
            Visibility::Document => true,
            Visibility::Project(owner) => owner.as_str() == project,
        }
    }

    /// Whether the word is that of the visibility.
    fn is_of(&self, kind: VisibilityKind) -> bool
        ensures { result ≡ has_visibility kind self.now }
    {
        match kind {
            VisibilityKind::Document => self.is_of_document(),
            VisibilityKind::Project => !self.is_of_document(),
        }
    }

    fn is_of_document(&self) -> bool
        ensures { result ≡ is_of_document self.now }
    {
        match self {
            Visibility::Document => true,
            Visibility::Project(_) => false,
        }
    }
}

impl Spot {
    /// Whether the other location is this one or, where the strategy isn't the exact one, intersects
    /// it.
    fn is_met_by(self, exact: bool, other: Spot) -> bool
        ensures { result ≡ if exact then is_same_spot self other else intersect self other }
    {
        if exact {
            self.is_same(other)
        } else {
            self.intersects(other)
        }
    }

    /// Whether the two are one location.
    fn is_same(self, other: Spot) -> bool
        ensures { result ≡ is_same_spot self other }
    {
        match self {
            Spot::Spreadsheet => other.is_spreadsheet(),
            Spot::Sheet(sheet) => other.is_sheet() && other.is_on_sheet(sheet),
            Spot::Line(sheet, axis, index) => other.is_line(sheet, axis, index),
        }
    }

    /// Whether both are the spreadsheet; or both are on one sheet, and one of them is that sheet, they
    /// are one line, or one is a row and the other a column.
    fn intersects(self, other: Spot) -> bool
        ensures { result ≡ intersect self other }
    {
        (self.is_spreadsheet() && other.is_spreadsheet())
            || (self.shares_sheet(other)
                && (self.is_sheet()
                    || other.is_sheet()
                    || self.is_same(other)
                    || self.crosses(other)))
    }

    /// Whether both are on one sheet.
    fn shares_sheet(self, other: Spot) -> bool
        ensures { result ≡ share_sheet self other }
    {
        match self {
            Spot::Spreadsheet => false,
            Spot::Sheet(sheet) | Spot::Line(sheet, _, _) => other.is_on_sheet(sheet),
        }
    }

    /// Whether one is a row and the other a column.
    fn crosses(self, other: Spot) -> bool
        ensures { result ≡ are_row_and_column self other }
    {
        (self.is_line_on(Axis::Rows) && other.is_line_on(Axis::Columns))
            || (self.is_line_on(Axis::Columns) && other.is_line_on(Axis::Rows))
    }

    /// Whether the location is of the kind.
    fn has_kind(self, kind: SpotKind) -> bool
        ensures { result ≡ has_kind kind self }
    {
        match kind {
            SpotKind::Row => self.is_line_on(Axis::Rows),
            SpotKind::Column => self.is_line_on(Axis::Columns),
            SpotKind::Sheet => self.is_sheet(),
            SpotKind::Spreadsheet => self.is_spreadsheet(),
        }
    }

    fn is_spreadsheet(self) -> bool
        ensures { result ≡ is_spreadsheet self }
    {
        match self {
            Spot::Spreadsheet => true,
            Spot::Sheet(_) | Spot::Line(..) => false,
        }
    }

    fn is_sheet(self) -> bool
        ensures { result ≡ is_sheet self }
    {
        match self {
            Spot::Sheet(_) => true,
            Spot::Spreadsheet | Spot::Line(..) => false,
        }
    }

    /// Whether the location is a line of the axis.
    fn is_line_on(self, asked: Axis) -> bool
        ensures { result ≡ is_line_on asked self }
    {
        match self {
            Spot::Line(_, axis, _) => is_same_axis(asked, axis),
            Spot::Spreadsheet | Spot::Sheet(_) => false,
        }
    }

    /// Whether the location is that line.
    fn is_line(self, sheet: u32, axis: Axis, index: u32) -> bool
        ensures { result ≡ is_line sheet axis index self }
    {
        match self {
            Spot::Line(other_sheet, other_axis, other_index) => {
                other_sheet == sheet && is_same_axis(axis, other_axis) && other_index == index
            }
            Spot::Spreadsheet | Spot::Sheet(_) => false,
        }
    }

    /// Whether the location is the sheet or a line of it.
    pub(crate) fn is_on_sheet(self, asked: u32) -> bool
        ensures { result ≡ is_on_sheet asked self }
    {
        match self {
            Spot::Spreadsheet => false,
            Spot::Sheet(sheet) | Spot::Line(sheet, _, _) => sheet == asked,
        }
    }
}

pub(crate) fn is_same_axis(one: Axis, other: Axis) -> bool
    ensures { result ≡ is_same_axis one other }
{
    match one {
        Axis::Rows => other == Axis::Rows,
        Axis::Columns => other == Axis::Columns,
    }
}
