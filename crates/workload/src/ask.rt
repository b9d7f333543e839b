ghost use Rattle.std.specs.Prelude.{◌≡◌, IfOk};
ghost use Rattle.workload.specs.Work.{ask_number, caller_number, user_number};

use crate::table::{Call, call_of};
use cell_value::{NoMemory, Text};
use desk::Ask;
use std::alloc::Global;

/// What the call of this number asks.
///
/// # Errors
///
/// [`NoMemory`] where memory runs out.
pub(crate) fn ask_number(alloc: Global, number: u32) -> Result<Ask, NoMemory>
    ensures { IfOk result (λ ask. ask ≡ ask_number number) }
{
    let Call { target, body } = call_of(alloc, number)?;
    Ok(Ask {
        user: Some(Text::of(String::from_str(alloc, user_number(number))?)),
        project: Text::of(String::new(alloc)),
        target,
        coded: false,
        body,
    })
}

/// The caller that makes it.
pub(crate) fn caller_number(number: u32) -> u32
    ensures { result ≡ caller_number number }
{
    number % 2
}

// The user who asks.
fn user_number(number: u32) -> &'static str
    ensures { result.now ≡ user_number number }
{
    if caller_number(number) == 0 {
        "owner"
    } else {
        "bob"
    }
}
