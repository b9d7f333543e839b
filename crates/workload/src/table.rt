ghost use Rattle.std.specs.Prelude.{◌≡◌, ◌+◌, ◌%◌, ◌<◌, IfOk, string_bytes};
ghost use Rattle.workload.specs.Table.{row_of, move_text, number_call, formula_call, move_call, delete_call, call_of};

use cell_value::{Bytes, NoMemory, Text};
use std::alloc::{AllocError, Global};

/// What a call of the table says.
#[derive(Drop)]
pub(crate) struct Call {
    /// The method, a space and the request target.
    pub(crate) target: Text,
    /// The body.
    pub(crate) body: Bytes,
}

impl Call {
    fn new(target: String, body: String) -> Call
        ensures { result ≡ record { target = string_bytes target; body = string_bytes body } }
    {
        Call {
            target: Text::of(target),
            body: Bytes::of(body.into_bytes()),
        }
    }
}

/// What the call of this number says (Google Sheets API v4 reference, spreadsheets.values.update and
/// spreadsheets.batchUpdate).
///
/// # Errors
///
/// [`NoMemory`] where memory runs out.
pub(crate) fn call_of(alloc: Global, number: u32) -> Result<Call, NoMemory>
    ensures { IfOk result (λ call. call ≡ call_of number) }
{
    match number % 4 {
        0 => number_call(alloc, number),
        1 => formula_call(alloc, number),
        2 => move_call(alloc, number),
        _ => delete_call(alloc),
    }
}

// It writes its number into column A.
#[tactic(auto, unfolding(crate::specs::Table::number_call))]
fn number_call(alloc: Global, number: u32) -> Result<Call, NoMemory>
    ensures { IfOk result (λ call. call ≡ number_call number) }
{
    let row = row_of(number);
    let target = format!(in alloc;
        "PUT /v4/spreadsheets/book1/values/A{row}?valueInputOption=RAW"
    )?;
    let body = format!(in alloc; "{{\"values\":[[{number}]]}}")?;
    Ok(Call::new(target, body))
}

// It writes a formula into column B.
#[tactic(auto, unfolding(crate::specs::Table::formula_call))]
fn formula_call(alloc: Global, number: u32) -> Result<Call, NoMemory>
    ensures { IfOk result (λ call. call ≡ formula_call number) }
{
    let row = row_of(number);
    let target = format!(in alloc;
        "PUT /v4/spreadsheets/book1/values/B{row}?valueInputOption=USER_ENTERED"
    )?;
    let body = format!(in alloc; "{{\"values\":[[\"=A{row}+1\"]]}}")?;
    Ok(Call::new(target, body))
}

// It moves a row.
#[tactic(auto, unfolding(crate::specs::Table::move_call))]
fn move_call(alloc: Global, number: u32) -> Result<Call, NoMemory>
    ensures { IfOk result (λ call. call ≡ move_call number) }
{
    let target = String::from_str(alloc, "POST /v4/spreadsheets/book1:batchUpdate")?;
    let body = move_text(alloc, number % 7)?;
    Ok(Call::new(target, body))
}

// The body that moves this row, counted from 0.
fn move_text(alloc: Global, row: u32) -> Result<String, AllocError>
    requires { row < 7 }
    ensures { IfOk result (λ text. string_bytes text ≡ move_text row) }
{
    let end = row + 1;
    format!(in alloc;
        "{{\"requests\":[{{\"moveDimension\":{{\"destinationIndex\":20,\"source\":{{\"dimension\":\"ROWS\",\
         \"endIndex\":{end},\"sheetId\":0,\"startIndex\":{row}}}}}}}]}}"
    )
}

// It deletes a thousand rows.
#[tactic(auto, unfolding(crate::specs::Table::delete_call))]
fn delete_call(alloc: Global) -> Result<Call, NoMemory>
    ensures { IfOk result (λ call. call ≡ delete_call) }
{
    let target = String::from_str(alloc, "POST /v4/spreadsheets/book1:batchUpdate")?;
    let body = String::from_str(
        alloc,
        "{\"requests\":[{\"deleteDimension\":{\"range\":{\"dimension\":\"ROWS\",\"endIndex\":1000,\
         \"sheetId\":0,\"startIndex\":0}}}]}",
    )?;
    Ok(Call::new(target, body))
}

// The row that a call writes into, counted from 1.
fn row_of(number: u32) -> u32
    ensures { result ≡ row_of number }
{
    number % 1000 + 1
}
