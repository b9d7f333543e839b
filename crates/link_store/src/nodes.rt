ghost use Rattle.std.specs.Prelude.{◌≡◌, ◌≢◌, ◌<◌, ◌+◌, ◌-◌, ℕ, Some, None, IsSome};
ghost use Rattle.std.specs.Option.{option_map, option_or};
ghost use Rattle.slab.specs.Slab.{get};
ghost use Rattle.link_store.specs.Nodes.{pass, with_next, with_previous, with_item};

use slab::Slab;

/// An item, the number of the list that it stands in, and its neighbours there.
#[derive(Drop)]
pub(crate) struct Node<T> {
    pub(crate) item: T,
    pub(crate) list: u32,
    pub(crate) previous: Option<u32>,
    pub(crate) next: Option<u32>,
}

/// How many nodes a list has, and the first and the last of them.
#[derive(Clone, Copy)]
pub(crate) struct Ends {
    pub(crate) count: u32,
    pub(crate) first: Option<u32>,
    pub(crate) last: Option<u32>,
}

/// Gives the node at `at`, if there is one, that node after it.
pub(crate) fn set_next<T>(nodes: &mut Slab<Node<T>>, at: Option<u32>, next: Option<u32>)
    ensures changed { (k : ℕ) → at ≡ Some k → get nodes.new k ≡ option_map (with_next next) (get nodes.old k) }
    ensures others { (k : ℕ) → at ≢ Some k → get nodes.new k ≡ get nodes.old k }
{
    if let Some(at) = at {
        if let Some(node) = nodes.get_mut(at as usize) {
            node.next = next;
        }
    }
}

/// Gives the node at `at`, if there is one, that node before it.
pub(crate) fn set_previous<T>(nodes: &mut Slab<Node<T>>, at: Option<u32>, previous: Option<u32>)
    ensures changed { (k : ℕ) → at ≡ Some k → get nodes.new k ≡ option_map (with_previous previous) (get nodes.old k) }
    ensures others { (k : ℕ) → at ≢ Some k → get nodes.new k ≡ get nodes.old k }
{
    if let Some(at) = at {
        if let Some(node) = nodes.get_mut(at as usize) {
            node.previous = previous;
        }
    }
}

/// Puts the item in place of the node's, and gives that one.
pub(crate) fn replace_item<T>(nodes: &mut Slab<Node<T>>, at: u32, item: T) -> T
    requires { IsSome (get nodes.old at) }
    ensures old { option_map (λ node. node.item) (get nodes.old at) ≡ Some result }
    ensures changed { get nodes.new at ≡ option_map (with_item item) (get nodes.old at) }
    ensures others { (k : ℕ) → at ≢ k → get nodes.new k ≡ get nodes.old k }
{
    std::mem::replace(&mut nodes[at as usize].item, item)
}

/// The link, or the other one in place of one that names the node.
fn instead(node: u32, other: Option<u32>, link: Option<u32>) -> Option<u32>
    ensures { result ≡ pass node other link }
{
    match link {
        None => None,
        Some(named) => if named == node { other } else { link },
    }
}

impl Ends {
    /// The ends of the list with one node more behind the last.
    pub(crate) fn with_last(self, node: u32) -> Ends
        requires { self.count < 4294967295 }
        ensures { result ≡ record {
          count = self.count + 1;
          first = option_or self.first (Some node);
          last = Some node;
        } }
    {
        Ends {
            count: self.count + 1,
            first: self.first.or(Some(node)),
            last: Some(node),
        }
    }

    /// The ends of the list without a node that stood between these.
    pub(crate) fn without(self, node: u32, previous: Option<u32>, next: Option<u32>) -> Ends
        requires { 0 < self.count }
        ensures { result ≡ record {
          count = self.count - 1;
          first = pass node next self.first;
          last = pass node previous self.last;
        } }
    {
        Ends {
            count: self.count - 1,
            first: instead(node, next, self.first),
            last: instead(node, previous, self.last),
        }
    }
}
