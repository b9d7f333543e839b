ghost use Rattle.std.specs.Prelude.{◌≡◌, ◌<◌, length};
ghost use Rattle.std.specs.Iterator.{YieldsFirstBy, item_count};
ghost use Rattle.link_store.specs.Lists.{entries_of, HasNodesOnce};

use crate::lists::Links;
use std::marker::Model;

/// The entries of a list, each a node and its item, lent: seen as those that are still to come.
#[derive(Drop)]
pub struct Entries<'a, T> {
    links: &'a Links<T>,
    list: u32,
    next: Option<u32>,
}

impl<'a, T> Model for Entries<'a, T> {
    ghost use Rattle.std.specs.Prelude.{ℕ, List};
    ghost use Rattle.link_store.specs.Lists.{entries_of};
    ghost use Rattle.link_store.specs.Entries.{entries_from, IsCursor};

    ghost Value = { List (ℕ × T) };

    ghost view = { λ it. entries_from (entries_of it.links.now it.list) it.next };

    ghost invariant = { λ it. IsCursor it.links.now it.list it.next };
}

impl<'a, T> Iterator for Entries<'a, T> {
    type Item = (u32, &'a T);

    ghost next_gives = { YieldsFirstBy (λ entry. (entry.0, entry.1.now)) (λ rest. rest) };

    ghost remaining = { item_count (λ rest. rest) };

    fn next(&mut self) -> Option<(u32, &'a T)> {
        let node = self.next?;
        self.next = self.links.next(node);
        Some((node, self.links.item(node)))
    }
}

impl<T> Links<T> {
    /// The entries of the list, from its first on.
    pub fn entries(&self, list: u32) -> Entries<'_, T>
        requires { list < length self.now }
        ensures entries { result ≡ entries_of self.now list }
        ensures once { HasNodesOnce self.now }
    {
        Entries {
            links: self,
            list,
            next: self.first(list),
        }
    }
}
