ghost use Rattle.a1_notation.specs.Room.{HasRoom};
ghost use Rattle.formula_reader.specs.Corner.{unmarked};
ghost use Rattle.formula_reader.specs.Reference.{IsReference};
ghost use Rattle.formula_reader.specs.Parts.{IsSecondOf};
ghost use Rattle.formula_reader.specs.Reading.{Reads, seen};

use super::area::{written_between, written_cell};
use super::corner::MarkedCorner;
use super::token::MarkedArea;
use a1_notation::a1_laws;

/// The longest reference at the front of a text that no ASCII letter, digit, `_`, `.`, `$` or `!`
/// follows.
pub(crate) fn read_reference(text: &str) -> Option<(MarkedArea, &str)>
    ensures { Reads IsReference text.now (seen result) }
{
    a1_laws();
    let (one, behind) = MarkedCorner::read(text)?;
    match read_second(one, behind) {
        Some(found) => Some(found),
        None => match one {
            MarkedCorner::Cell(row, column) => Some((written_cell(row, column), behind)),
            MarkedCorner::Column(_) => None,
            MarkedCorner::Row(_) => None,
        },
    }
}

/// What a corner and the one behind the `:` at the front of a text name.
fn read_second(one: MarkedCorner, text: &str) -> Option<(MarkedArea, &str)>
    requires { HasRoom (unmarked one) }
    ensures { Reads (IsSecondOf one) text.now (seen result) }
{
    a1_laws();
    let second = text.strip_prefix(':')?;
    let (other, rest) = MarkedCorner::read(second)?;
    let written = written_between(one, other)?;
    Some((written, rest))
}
