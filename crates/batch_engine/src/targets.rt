ghost use Rattle.std.specs.Prelude.{◌≡◌, IfOk};
ghost use Rattle.std.specs.Option.{option_copied};
ghost use Rattle.dimension_ops.specs.Rules.{IsUnlessNoMemory};
ghost use Rattle.values_api.specs.Ranges.{Resolves, IsThere};
ghost use Rattle.batch_engine.specs.Ranges.{same_band, same_area, names_no_sheet, is_bad_range, is_outside, is_one_area, agreed, Agree, IsTarget};

use cell_value::{NoMemory, Text};
use dimension_ops::{Book, Rule, RuleOr};
use grid_range::{Area, Band};
use std::alloc::Global;
use values_api::resolve;

/// What a range text names: an area, and whether it is named as one cell; or the rule that it breaks.
type Found = Result<(Area, bool), Rule>;

/// The area that a write is on, by the range of its path, and by that of its body where it has one.
///
/// # Errors
///
/// The first rule that one of the ranges breaks; [`Rule::BadRange`] where they name two areas;
/// [`RuleOr::NoMemory`] where memory runs out.
pub(crate) fn target(
    alloc: Global,
    book: &Book,
    range: &str,
    body: Option<&Text>,
) -> Result<(Area, bool), RuleOr>
    ensures found { IsUnlessNoMemory (IsTarget range.now (option_copied body.entry) book.now) result }
    ensures there { IfOk result (λ found. IsThere book.now.sheets found.0) }
{
    match body {
        Some(body) => agreed_target(alloc, book, range, body.as_str()),
        None => resolve(alloc, book, range),
    }
}

/// The area that both ranges name.
fn agreed_target(
    alloc: Global,
    book: &Book,
    range: &str,
    body: &str,
) -> Result<(Area, bool), RuleOr>
    ensures found { IsUnlessNoMemory (Agree range.now body.now book.now) result }
    ensures there { IfOk result (λ found. IsThere book.now.sheets found.0) }
{
    let named = found(alloc, book, range)?;
    let said = found(alloc, book, body)?;
    match agreed(named, said) {
        Ok(area) => Ok(area),
        Err(rule) => Err(RuleOr::Rule(rule)),
    }
}

/// What a range names, or the rule that it breaks.
fn found(alloc: Global, book: &Book, range: &str) -> Result<Found, NoMemory>
    ensures found { IfOk result (Resolves range.now book.now) }
    ensures there { IfOk result (λ found. IfOk found (λ area. IsThere book.now.sheets area.0)) }
{
    match resolve(alloc, book, range) {
        Ok(area) => Ok(Ok(area)),
        Err(RuleOr::Rule(rule)) => Ok(Err(rule)),
        Err(RuleOr::NoMemory) => Err(NoMemory),
    }
}

/// What both name; the first rule that one of them breaks, and [`Rule::BadRange`] where they name two
/// areas.
fn agreed(named: Found, said: Found) -> Found
    ensures { result ≡ agreed named said }
{
    if names_no_sheet(&named) || names_no_sheet(&said) {
        Err(Rule::NoSheet)
    } else if is_bad_range(&named) || is_bad_range(&said) {
        Err(Rule::BadRange)
    } else if is_outside(&named) && is_outside(&said) {
        Err(Rule::OutsideGrid)
    } else if is_one_area(&named, &said) {
        named
    } else {
        Err(Rule::BadRange)
    }
}

/// Whether a range names a sheet that isn't there.
fn names_no_sheet(found: &Found) -> bool
    ensures { result ≡ names_no_sheet found.now }
{
    matches!(found, Err(Rule::NoSheet))
}

/// Whether a text is no range.
fn is_bad_range(found: &Found) -> bool
    ensures { result ≡ is_bad_range found.now }
{
    matches!(found, Err(Rule::BadRange))
}

/// Whether a range begins outside its sheet.
fn is_outside(found: &Found) -> bool
    ensures { result ≡ is_outside found.now }
{
    matches!(found, Err(Rule::OutsideGrid))
}

/// Whether both name one area.
fn is_one_area(named: &Found, said: &Found) -> bool
    ensures { result ≡ is_one_area named.now said.now }
{
    match named {
        Ok(found) => match said {
            Ok(other) => same_area(&found.0, &other.0),
            Err(_) => false,
        },
        Err(_) => false,
    }
}

/// Whether both areas have the same sheet and the same bands.
fn same_area(area: &Area, other: &Area) -> bool
    ensures { result ≡ same_area area.now other.now }
{
    area.sheet == other.sheet
        && same_band(area.rows, other.rows)
        && same_band(area.cols, other.cols)
}

/// Whether both bands are the same.
fn same_band(band: Band, other: Band) -> bool
    ensures { result ≡ same_band band other }
{
    match (band, other) {
        (Band::Whole, Band::Whole) => true,
        (Band::From(start), Band::From(first)) => start == first,
        (Band::Span(start, end), Band::Span(first, last)) => start == first && end == last,
        _ => false,
    }
}
