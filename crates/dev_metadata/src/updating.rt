ghost use Rattle.std.specs.Prelude.{◌≡◌, IfOk, OnOk, OnErr, map};
ghost use Rattle.std.specs.Option.{option_map};
ghost use Rattle.dev_metadata.specs.VisibilityKind.{visibility_given};
ghost use Rattle.dev_metadata.specs.Patch.{with_patched};
ghost use Rattle.dev_metadata.specs.Given.{given_of, with_given, given_to};

use crate::by_id::ById;
use crate::types::{Item, ItemPatch, Lookup, Spot, Visibility, VisibilityKind};
use cell_value::{Duplicate, NoMemory, Text, put_given};
use std::alloc::Global;

/// What an update gives to one item.
#[derive(Drop)]
pub(crate) struct Given {
    pub(crate) key: Option<Text>,
    pub(crate) value: Option<Text>,
    pub(crate) spot: Option<Spot>,
    pub(crate) visibility: Option<Visibility>,
}

/// Puts what the patch gives in the place of what the items have that one of the look-ups finds.
///
/// # Errors
///
/// [`NoMemory`] where memory runs out; the items are as they were.
pub(crate) fn patch_found(
    alloc: Global,
    items: &mut ById,
    lookups: &[Lookup],
    project: &str,
    patch: &ItemPatch,
) -> Result<(), NoMemory>
    ensures patched { OnOk result
        (items.new ≡ with_patched lookups.now project.now patch.now items.old) }
    ensures unchanged { OnErr result (items.new ≡ items.old) }
{
    let mut copies = copies_given(alloc, items, lookups, project, patch)?;
    for at in 0..items.len() {
        if let Some(given) = copies[at].take() {
            items.give(at, given);
        }
    }
    Ok(())
}

/// What each item gets, in order: a copy of what the patch gives, where one of the look-ups finds it.
fn copies_given(
    alloc: Global,
    items: &ById,
    lookups: &[Lookup],
    project: &str,
    patch: &ItemPatch,
) -> Result<Vec<Option<Given>>, NoMemory>
    ensures { IfOk result (λ copies.
        copies.items ≡ map (given_to lookups.now project.now patch.now) items.now) }
{
    let mut copies = Vec::with_capacity(alloc, items.len())?;
    for at in 0..items.len() {
        copies.push(patch.given_to(alloc, items.at(at), lookups, project)?)?;
    }
    Ok(copies)
}

impl ItemPatch {
    /// What the item gets in a call of the project: a copy of what the patch gives, where one of the
    /// look-ups finds it.
    fn given_to(
        &self,
        alloc: Global,
        item: &Item,
        lookups: &[Lookup],
        project: &str,
    ) -> Result<Option<Given>, NoMemory>
        ensures { IfOk result (λ given.
            given ≡ given_to lookups.now project.now self.now item.now) }
    {
        if !item.is_found(lookups, project) {
            return Ok(None);
        }
        let given = self.given(alloc, project)?;
        Ok(Some(given))
    }

    /// What the patch gives in a call of the project.
    fn given(&self, alloc: Global, project: &str) -> Result<Given, NoMemory>
        ensures { IfOk result (λ given. given ≡ given_of project.now self.now) }
    {
        Ok(Given {
            key: copy_text(&self.key)?,
            value: copy_text(&self.value)?,
            spot: self.spot,
            visibility: visibility_given(alloc, project, self.visibility)?,
        })
    }
}

/// A copy of the text, if there is one.
fn copy_text(text: &Option<Text>) -> Result<Option<Text>, NoMemory>
    ensures { IfOk result (λ copy. copy ≡ text.now) }
{
    match text {
        Some(text) => Ok(Some(text.duplicate()?)),
        None => Ok(None),
    }
}

/// What the word means in a call of the project, if there is one.
fn visibility_given(
    alloc: Global,
    project: &str,
    word: Option<VisibilityKind>,
) -> Result<Option<Visibility>, NoMemory>
    ensures { IfOk result (λ visibility. visibility ≡ option_map (visibility_given project.now) word) }
{
    match word {
        Some(word) => Ok(Some(word.under(alloc, project)?)),
        None => Ok(None),
    }
}

impl Item {
    /// Puts what is given in the place of what the item has.
    pub(crate) fn give(&mut self, given: Given)
        ensures { self.new ≡ with_given given self.old }
    {
        put_given(&mut self.key, given.key);
        put_given(&mut self.value, given.value);
        put_given(&mut self.spot, given.spot);
        put_given(&mut self.visibility, given.visibility);
    }
}
