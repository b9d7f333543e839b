ghost use Rattle.std.specs.Prelude.{◌≡◌, ◌≢◌, ℕ, ◌<◌, ◌+◌, ◌∷◌, ◌++◌, [], length, None, IfOk, OnErr, IfErr, OnOk};
ghost use Rattle.std.specs.Prelude.{IfSome, IfNone, OnSome, slice_get, Contains};
ghost use Rattle.link_store.specs.Lists.{entries_of, first_node, node_after, HasEntry, IsLive, live_nodes};
ghost use Rattle.link_store.specs.Lists.{with_entry, without_node, with_item_at, HasNodesOnce};

use crate::nodes::{Ends, Node, replace_item, set_next, set_previous};
use cell_value::NoMemory;
use slab::Slab;
use std::alloc::Global;
use std::marker::Model;

/// Numbered lists of items. Each item stands in one list at a node, a number that names it until it is
/// taken out; contracts see, for each list, its entries (node, item) in order.
#[derive(Drop)]
pub struct Links<T> {
    nodes: Slab<Node<T>>,
    ends: Vec<Ends>,
}

impl<T> Model for Links<T> {
    ghost use Rattle.std.specs.Prelude.{ℕ, List, map};
    ghost use Rattle.std.specs.Coded.{coded_list, coded×, coded_ℕ};
    ghost use Rattle.slab.specs.Slab.{get};

    ghost Value = { List (List (ℕ × T)) };

    ghost coded = { coded_list (coded_list (coded× coded_ℕ T.code)) };

    ghost use Rattle.link_store.specs.Nodes.{entries, IsSound};

    ghost view = { λ s. map (entries (get s.nodes)) s.ends.items };

    ghost invariant = { λ s. IsSound (get s.nodes) s.ends.items };
}

impl<T> Links<T> {
    ghost use Rattle.link_store.specs.Lending.{lends_item};
    ghost use Rattle.std.specs.Borrow.{sem};

    /// No lists. It takes no memory.
    pub fn new(alloc: Global) -> Links<T>
        ensures { result ≡ [] }
    {
        Links {
            nodes: Slab::new(alloc),
            ends: Vec::new(alloc),
        }
    }

    /// Adds an empty list behind the others, and gives its number: lists are counted from 0.
    ///
    /// # Errors
    ///
    /// [`NoMemory`] where memory runs out; the lists are as they were.
    pub fn add_list(&mut self) -> Result<u32, NoMemory>
        requires { length self.old < 4294967295 }
        ensures number { IfOk result (λ list. list ≡ length self.old) }
        ensures added { OnOk result (self.new ≡ self.old ++ [] ∷ []) }
        ensures unchanged { OnErr result (self.new ≡ self.old) }
    {
        let list = self.ends.len() as u32;
        self.ends.push(Ends {
            count: 0,
            first: None,
            last: None,
        })?;
        Ok(list)
    }

    /// Each node stands in one list, and there once. It does nothing.
    pub(crate) fn nodes_once(&self)
        ensures { HasNodesOnce self.now }
    {
        let _ends = &self.ends;
    }

    /// The first node of the list; None where the list is empty.
    pub fn first(&self, list: u32) -> Option<u32>
        requires { list < length self.now }
        ensures node { result ≡ first_node (entries_of self.now list) }
        ensures live { IfSome result (λ node. IsLive self.now node) }
        ensures once { HasNodesOnce self.now }
    {
        self.ends[list as usize].first
    }

    /// The node after that one in its list; None where it is the last.
    pub fn next(&self, node: u32) -> Option<u32>
        requires { IsLive self.now node }
        ensures live { IfSome result (λ next. IsLive self.now next) }
        ensures node { (list : ℕ) (item : T) → Contains (entries_of self.now list) (node, item)
            → result ≡ node_after (entries_of self.now list) node }
    {
        self.nodes[node as usize].next
    }

    /// The item of the node, lent.
    pub fn item(&self, node: u32) -> &T
        requires { IsLive self.now node }
        ensures { (item : T) → HasEntry self.now node item → result.now ≡ item }
    {
        &self.nodes[node as usize].item
    }

    /// The item of the node, lent to be changed in place, which takes no memory.
    pub fn item_mut(&mut self, node: u32) -> &mut T
        requires { IsLive self.old node }
        ensures* writes_back { sem 𝓛 (lends_item T.row self.entry node result) }
        ensures item { (item : T) → HasEntry self.old node item → result.now ≡ item }
        ensures count { (item : T) → live_nodes (with_item_at self.old node item) ≡ live_nodes self.old }
        ensures once { HasNodesOnce self.old }
    {
        let held = &mut self.nodes[node as usize];
        &mut held.item
    }

    /// Puts the item in place of the node's, and gives that one. It takes no memory.
    pub fn replace(&mut self, node: u32, item: T) -> T
        requires { IsLive self.old node }
        ensures old { (old : T) → HasEntry self.old node old → result ≡ old }
        ensures replaced { self.new ≡ with_item_at self.old node item }
        ensures count { live_nodes self.new ≡ live_nodes self.old }
        ensures once { HasNodesOnce self.old }
    {
        replace_item(&mut self.nodes, node, item)
    }

    /// Adds the item at the end of the list, and gives its node, which was not live before.
    ///
    /// # Errors
    ///
    /// [`NoMemory`] with the item where memory runs out; the lists are as they were.
    pub fn push(&mut self, list: u32, item: T) -> Result<u32, (T, NoMemory)>
        requires added { list < length self.old }
        requires room { live_nodes self.old < 4294967295 }
        ensures fresh { IfOk result (λ node. IsLive self.old node → ⊥) }
        ensures pushed { IfOk result (λ node. self.new ≡ with_entry self.old list node item) }
        ensures live { IfOk result (λ node. IsLive self.new node) }
        ensures count { OnOk result (live_nodes self.new ≡ live_nodes self.old + 1) }
        ensures back { IfErr result (λ refused. refused.0 ≡ item) }
        ensures unchanged { OnErr result (self.new ≡ self.old) }
    {
        let key = self.nodes.vacant_key();
        if key >= 4294967295 {
            return Err((item, NoMemory));
        }
        let ends = self.ends[list as usize];
        let added = Node {
            item,
            list,
            previous: ends.last,
            next: None,
        };
        match self.nodes.insert(added) {
            Ok(_) => {
                let node = key as u32;
                set_next(&mut self.nodes, ends.last, Some(node));
                self.ends[list as usize] = ends.with_last(node);
                Ok(node)
            }
            Err(failed) => Err((failed.value.item, NoMemory)),
        }
    }

    /// Takes the node out of its list, and gives its item. It takes no memory, and as many steps
    /// however long the list is.
    pub fn unlink(&mut self, node: u32) -> T
        requires { IsLive self.old node }
        ensures item { (item : T) → HasEntry self.old node item → result ≡ item }
        ensures taken { self.new ≡ without_node self.old node }
        ensures count { live_nodes self.new + 1 ≡ live_nodes self.old }
        ensures once { HasNodesOnce self.old }
    {
        let taken = self.nodes.remove(node as usize);
        set_next(&mut self.nodes, taken.previous, taken.next);
        set_previous(&mut self.nodes, taken.next, taken.previous);
        let list = taken.list as usize;
        self.ends[list] = self.ends[list].without(node, taken.previous, taken.next);
        taken.item
    }

    /// Takes the first node out of the list, and gives it with its item; None where the list is
    /// empty. It takes no memory.
    pub fn take_first(&mut self, list: u32) -> Option<(u32, T)>
        requires { list < length self.old }
        ensures first { result ≡ slice_get (entries_of self.old list) 0 }
        ensures taken { IfSome result (λ entry. self.new ≡ without_node self.old entry.0) }
        ensures count { OnSome result (live_nodes self.new + 1 ≡ live_nodes self.old) }
        ensures unchanged { IfNone result (self.new ≡ self.old) }
        ensures once { HasNodesOnce self.old }
    {
        match self.first(list) {
            Some(node) => Some((node, self.unlink(node))),
            None => None,
        }
    }
}

impl<T: Drop> Links<T> {
    /// No lists, with room for so many and for so many nodes in all.
    ///
    /// # Errors
    ///
    /// [`NoMemory`] where memory runs out.
    pub fn with_capacity(alloc: Global, lists: u32, nodes: u32) -> Result<Links<T>, NoMemory>
        ensures { IfOk result (λ links. links ≡ []) }
    {
        Ok(Links {
            nodes: Slab::with_capacity(alloc, nodes as usize)?,
            ends: Vec::with_capacity(alloc, lists as usize)?,
        })
    }
}
