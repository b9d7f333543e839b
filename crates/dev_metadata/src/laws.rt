//! Laws of metadata: each function does nothing, and its contract is the law.

ghost use Rattle.dev_metadata.specs.Order.{HaveOrder};

/// The ids of items can be put in order.
#[tactic(auto, using(crate::proofs::Ordering::have_order))]
pub fn have_order()
    ensures { HaveOrder }
{}
