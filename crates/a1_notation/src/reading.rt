ghost use Rattle.std.specs.Prelude.{◌≡◌, ◌≢◌, ◌∷◌, ℕ, ◌==◌, not, IfOk, IsTrue, slice_index};
ghost use Rattle.std.specs.List.{list_all};
ghost use Rattle.a1_notation.specs.declared.a1.A1.{A1};
ghost use Rattle.a1_notation.specs.Range.{Names, IsNotA1, IsPastZZZ, IsReading, IsUnlessNoMemory};

use crate::a1::{A1, A1Fault, Part};
use crate::area::read_area;
use crate::quoted::read_quoted;
use crate::title::is_loose;
use cell_value::Text;
use std::alloc::Global;

/// What a text in A1 notation names.
///
/// A text without `!` is an area, as `A1`, `A1:B2`, `A:B`, `1:2` or `A5:B`; or a sheet's title in
/// quotes, which is the whole sheet; or else a word. A text with a `!` outside quotes is a title and an
/// area.
///
/// # Errors
///
/// [`A1Fault::NotA1`] where the text is no range, however many letters a column may have;
/// [`A1Fault::PastZZZ`] where it is one only if a column may have more than three;
/// [`A1Fault::NoMemory`] where memory runs out.
pub fn read_a1(alloc: Global, text: &str) -> Result<A1, A1Fault>
    ensures read { IfOk result (Names 3 text.now) }
    ensures not_a1 { result ≡ Err A1Fault.NotA1 → IsNotA1 text.now }
    ensures past_zzz { result ≡ Err A1Fault.PastZZZ → IsPastZZZ text.now }

    // Each way round, unless memory runs out.
    ensures named { (range : A1) → Names 3 text.now range → IsUnlessNoMemory result (Ok range) }
    ensures nothing { IsNotA1 text.now → IsUnlessNoMemory result (Err A1Fault.NotA1) }
    ensures too_far { IsPastZZZ text.now → IsUnlessNoMemory result (Err A1Fault.PastZZZ) }

    // A text has one reading.
    ensures one_reading { (most : ℕ) (one other : A1) →
        Names most text.now one → Names most text.now other → one ≡ other }
{
    match text.strip_prefix('\'') {
        Some(inside) => read_behind_quote(alloc, inside),
        None => read_unquoted(alloc, text),
    }
}

/// What a text that begins with a `'` names, from behind it.
fn read_behind_quote(alloc: Global, inside: &str) -> Result<A1, A1Fault>
    ensures { IsReading (39 ∷ inside.now) result }
{
    let Some((title, behind)) = read_quoted(alloc, inside, '\'')? else {
        return Err(A1Fault::NotA1);
    };
    if title.is_empty() {
        return Err(A1Fault::NotA1);
    }
    let sheet = Some(Text::of(title));
    if behind.is_empty() {
        let part = Part::WholeSheet;
        return Ok(A1 { sheet, part });
    }
    let Some(area) = behind.strip_prefix('!') else {
        return Err(A1Fault::NotA1);
    };
    let (rows, columns) = read_area(area)?;
    let part = Part::Cells(rows, columns);
    Ok(A1 { sheet, part })
}

/// What a text that doesn't begin with a `'` names.
fn read_unquoted(alloc: Global, text: &str) -> Result<A1, A1Fault>
    requires { slice_index text.now 0 ≢ 39 }
    ensures { IsReading text.now result }
{
    match text.split_once('!') {
        Some((title, area)) => {
            if !is_loose(title) {
                return Err(A1Fault::NotA1);
            }
            let (rows, columns) = read_area(area)?;
            let sheet = Some(Text::of(String::from_str(alloc, title)?));
            let part = Part::Cells(rows, columns);
            Ok(A1 { sheet, part })
        }
        None => read_without_sheet(alloc, text),
    }
}

/// What a text without `!` that doesn't begin with a `'` names.
fn read_without_sheet(alloc: Global, text: &str) -> Result<A1, A1Fault>
    requires quote { slice_index text.now 0 ≢ 39 }
    requires mark { IsTrue (list_all (λ b. not (b == 33)) text.now) }
    ensures { IsReading text.now result }
{
    if let Ok((rows, columns)) = read_area(text) {
        let part = Part::Cells(rows, columns);
        return Ok(A1 { sheet: None, part });
    }
    if !is_loose(text) {
        return Err(A1Fault::NotA1);
    }
    let part = Part::Word(Text::of(String::from_str(alloc, text)?));
    Ok(A1 { sheet: None, part })
}
