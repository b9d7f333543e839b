ghost use Rattle.std.specs.Prelude.{◌≡◌, ℕ, ◌<◌, ◌+◌, ◌∷◌, ◌++◌, [], length, IfOk, OnErr, IfErr, OnOk, IfSome};
ghost use Rattle.std.specs.Prelude.{IfNone, OnSome, slice_get, Contains};
ghost use Rattle.link_store.specs.Lists.{entries_of, first_node, node_after, HasEntry, IsLive, live_nodes};
ghost use Rattle.link_store.specs.Lists.{with_entry, without_node, HasNodesOnce};

use crate::lists::Links;
use cell_value::{NoMemory, Steps};
use std::sync::ledger::Ledger;

/// The calls of [`Links`], each with one step counted.
impl<T> Links<T> {
    /// [`Links::add_list`], as one step.
    ///
    /// # Errors
    ///
    /// [`NoMemory`] where memory runs out; the lists are as they were.
    pub fn add_list_counted<L: Ledger>(&mut self, steps: &mut Steps<L>) -> Result<u32, NoMemory>
        requires { length self.old < 4294967295 }
        ensures number { IfOk result (λ list. list ≡ length self.old) }
        ensures added { OnOk result (self.new ≡ self.old ++ [] ∷ []) }
        ensures unchanged { OnErr result (self.new ≡ self.old) }
        ensures step { steps.new ≡ steps.old + 1 }
    {
        steps.tick();
        self.add_list()
    }

    /// [`Links::push`], as one step.
    ///
    /// # Errors
    ///
    /// [`NoMemory`] with the item where memory runs out; the lists are as they were.
    pub fn push_counted<L: Ledger>(
        &mut self,
        list: u32,
        item: T,
        steps: &mut Steps<L>,
    ) -> Result<u32, (T, NoMemory)>
        requires added { list < length self.old }
        requires room { live_nodes self.old < 4294967295 }
        ensures fresh { IfOk result (λ node. IsLive self.old node → ⊥) }
        ensures pushed { IfOk result (λ node. self.new ≡ with_entry self.old list node item) }
        ensures live { IfOk result (λ node. IsLive self.new node) }
        ensures count { OnOk result (live_nodes self.new ≡ live_nodes self.old + 1) }
        ensures back { IfErr result (λ refused. refused.0 ≡ item) }
        ensures unchanged { OnErr result (self.new ≡ self.old) }
        ensures step { steps.new ≡ steps.old + 1 }
    {
        steps.tick();
        self.push(list, item)
    }

    /// [`Links::unlink`], as one step.
    pub fn unlink_counted<L: Ledger>(&mut self, node: u32, steps: &mut Steps<L>) -> T
        requires { IsLive self.old node }
        ensures item { (item : T) → HasEntry self.old node item → result ≡ item }
        ensures taken { self.new ≡ without_node self.old node }
        ensures count { live_nodes self.new + 1 ≡ live_nodes self.old }
        ensures once { HasNodesOnce self.old }
        ensures step { steps.new ≡ steps.old + 1 }
    {
        steps.tick();
        self.unlink(node)
    }

    /// [`Links::take_first`], as one step.
    pub fn take_first_counted<L: Ledger>(
        &mut self,
        list: u32,
        steps: &mut Steps<L>,
    ) -> Option<(u32, T)>
        requires { list < length self.old }
        ensures first { result ≡ slice_get (entries_of self.old list) 0 }
        ensures taken { IfSome result (λ entry. self.new ≡ without_node self.old entry.0) }
        ensures count { OnSome result (live_nodes self.new + 1 ≡ live_nodes self.old) }
        ensures unchanged { IfNone result (self.new ≡ self.old) }
        ensures once { HasNodesOnce self.old }
        ensures step { steps.new ≡ steps.old + 1 }
    {
        steps.tick();
        self.take_first(list)
    }

    /// [`Links::first`], as one step.
    pub fn first_counted<L: Ledger>(&self, list: u32, steps: &mut Steps<L>) -> Option<u32>
        requires { list < length self.now }
        ensures node { result ≡ first_node (entries_of self.now list) }
        ensures live { IfSome result (λ node. IsLive self.now node) }
        ensures once { HasNodesOnce self.now }
        ensures step { steps.new ≡ steps.old + 1 }
    {
        steps.tick();
        self.first(list)
    }

    /// [`Links::next`], as one step.
    pub fn next_counted<L: Ledger>(&self, node: u32, steps: &mut Steps<L>) -> Option<u32>
        requires { IsLive self.now node }
        ensures live { IfSome result (λ next. IsLive self.now next) }
        ensures node { (list : ℕ) (item : T) → Contains (entries_of self.now list) (node, item)
            → result ≡ node_after (entries_of self.now list) node }
        ensures step { steps.new ≡ steps.old + 1 }
    {
        steps.tick();
        self.next(node)
    }

    /// [`Links::item`], as one step.
    pub fn item_counted<L: Ledger>(&self, node: u32, steps: &mut Steps<L>) -> &T
        requires { IsLive self.now node }
        ensures item { (item : T) → HasEntry self.now node item → result.now ≡ item }
        ensures step { steps.new ≡ steps.old + 1 }
    {
        steps.tick();
        self.item(node)
    }
}
