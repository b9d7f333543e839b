ghost use Rattle.std.specs.Prelude.{◌≡◌, ◌<◌, ◌≤◌, ◌^◌, Bool, true, false, None, OnOk, OnErr, IfSome, IfNone, All, length, slice_get, take, drop};
ghost use Rattle.cell_value.specs.Ids.{IsNewId, IsLeastUnused, is_taken};
ghost use Rattle.protection.specs.Listed.{IsInOrder, has_id, with_id, with_one_more};

use crate::indexed::Indexed;
use cell_value::NoMemory;

/// The id that a new protection gets, which is the one that is asked for, or else the least from 1 on
/// that none has; None where the one that is asked for is taken.
pub(crate) fn new_id(protections: &[Indexed], asked: Option<u32>) -> Option<u32>
    requires order { IsInOrder protections.now }
    requires room { length protections.now < 4294967295 }
    ensures taken { IfNone result (is_taken (has_id protections.now) asked ≡ true) }
    ensures free { IfSome result (λ _. is_taken (has_id protections.now) asked ≡ false) }
    ensures unused { IfSome result (λ id. with_id id protections.now ≡ None) }
    ensures id { IfSome result (IsNewId (IsLeastUnused (has_id protections.now)) asked) }
{
    match asked {
        None => Some(least_unused(protections)),
        Some(id) => match position_of(protections, id) {
            None => Some(id),
            Some(_) => None,
        },
    }
}

/// The least id from 1 on that no protection has.
fn least_unused(protections: &[Indexed]) -> u32
    requires order { IsInOrder protections.now }
    requires room { length protections.now < 4294967295 }
    ensures { IsLeastUnused (has_id protections.now) result }
{
    let mut id = 1;
    for protection in protections {
        if protection.get().id == id {
            id += 1;
        }
    }
    id
}

/// The place of the protection with the id, None where none has it.
pub(crate) fn position_of(protections: &[Indexed], id: u32) -> Option<usize>
    ensures there { IfSome result (λ at. at < length protections.now) }
    ensures found { IfSome result (λ at. with_id id protections.now ≡ slice_get protections.now at) }
    ensures none { IfNone result (with_id id protections.now ≡ None) }
{
    for (place, protection) in protections.iter().enumerate() {
        if protection.get().id == id {
            return Some(place);
        }
    }
    None
}

/// How many protections have a lesser id: the place where one with the id stands.
pub(crate) fn place_for(protections: &[Indexed], id: u32) -> usize
    requires order { IsInOrder protections.now }
    ensures there { result ≤ length protections.now }
    ensures before { All (λ one. one.id < id) (take result protections.now) }
    ensures behind { All (λ one. id ≤ one.id) (drop result protections.now) }
{
    for (place, protection) in protections.iter().enumerate() {
        if id <= protection.get().id {
            return place;
        }
    }
    protections.len()
}

/// Adds a protection at its place.
///
/// # Errors
///
/// [`NoMemory`] where memory runs out; the list is as it was.
pub(crate) fn add_at_place(
    protections: &mut Vec<Indexed>,
    protection: Indexed,
) -> Result<(), NoMemory>
    requires order { IsInOrder protections.old.items }
    requires unused { with_id protection.id protections.old.items ≡ None }
    ensures added { OnOk result
        (protections.new.items ≡ with_one_more protection protections.old.items) }
    ensures order { IsInOrder protections.new.items }
    ensures unchanged { OnErr result (protections.new.items ≡ protections.old.items) }
{
    let place = place_for(protections, protection.get().id);
    protections.insert(place, protection)?;
    Ok(())
}
