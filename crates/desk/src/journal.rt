ghost use Rattle.std.specs.Prelude.{◌≡◌, ◌<◌, ◌^◌, ◌++◌, length, IfOk, OnOk};
ghost use Rattle.desk.specs.Journal.{field_text, entry_text, FieldsFit};
ghost use Rattle.desk.specs.Histories.{AreTexts};

use crate::Entry;
use cell_value::{Bytes, NoMemory};
use std::alloc::Global;

/// The eight bytes that a journal begins with.
pub(crate) const HEADING: &[u8] = b"SHEETJ01";

/// The bytes of an entry in a journal: the caller in four bytes, most significant first, then user, project, target
/// and body, each as its length in four such bytes and its bytes. Each field has fewer than 2^32 bytes.
///
/// # Errors
///
/// [`NoMemory`] where memory runs out.
pub fn entry_bytes(alloc: Global, entry: &Entry) -> Result<Bytes, NoMemory>
    requires { FieldsFit entry.now }
    ensures { IfOk result (λ bytes. bytes ≡ entry_text entry.now) }
{
    let mut bytes = Bytes::of(Vec::new(alloc));
    put_entry(&mut bytes, entry)?;
    Ok(bytes)
}

/// Puts the bytes of an entry behind the last byte. Its user, its project and its target are UTF-8.
///
/// # Errors
///
/// [`NoMemory`] where memory runs out; nothing is said of the bytes then.
pub(crate) fn put_entry(bytes: &mut Bytes, entry: &Entry) -> Result<(), NoMemory>
    requires { FieldsFit entry.now }
    ensures put { OnOk result (bytes.new ≡ bytes.old ++ entry_text entry.now) }
    ensures texts { OnOk result (AreTexts entry.now) }
{
    bytes.extend_from_slice(&entry.caller.to_be_bytes())?;
    put_field(bytes, entry.user.as_str().as_bytes())?;
    put_field(bytes, entry.project.as_str().as_bytes())?;
    put_field(bytes, entry.target.as_str().as_bytes())?;
    put_field(bytes, entry.body.as_slice())
}

// Puts a field behind the last byte: its length in four bytes, and its bytes.
fn put_field(bytes: &mut Bytes, field: &[u8]) -> Result<(), NoMemory>
    requires { length field.now < 2 ^ 32 }
    ensures { OnOk result (bytes.new ≡ bytes.old ++ field_text field.now) }
{
    bytes.extend_from_slice(&(field.len() as u32).to_be_bytes())?;
    bytes.extend_from_slice(field)
}
