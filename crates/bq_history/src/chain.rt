//! Items in the order in which they were added.
ghost use Rattle.std.specs.Prelude.{◌≡◌, ◌+◌, ◌<◌, ◌^◌, IfOk, [], ◌∷◌, ◌++◌, length, reverse};
ghost use Rattle.bq_history.specs.Chains.{chain_behind};

use std::alloc::{AllocError, Global};
use std::marker::Model;

/// A link to another item, or to none.
pub(crate) type Link<T> = Option<Box<Node<T>>>;

/// An item with its links to others. While the history grows, the items are a chain by `next`; at its end they become a tree.
#[derive(Drop)]
pub struct Node<T: Drop> {
    pub(crate) item: T,
    pub(crate) next: Option<Box<Node<T>>>,
    pub(crate) left: Option<Box<Node<T>>>,
}

/// An item that is in no chain yet. Contracts see only the item.
#[derive(Drop)]
pub struct Slip<T: Drop> {
    pub(crate) node: Box<Node<T>>,
}

impl<T: Drop> Model for Slip<T> {
    ghost use Rattle.bq_history.specs.Chains.{item_of};

    ghost Value = { T };

    ghost view = { λ s. item_of s.node.value };
}

impl<T: Drop> Slip<T> {
    /// A slip for an item. If memory runs out, the item is dropped, and nothing else changes.
    pub(crate) fn new(alloc: Global, item: T) -> Result<Slip<T>, AllocError>
        ensures { IfOk result (λ s. s ≡ item) }
    {
        let node = Box::new(
            alloc,
            Node {
                item,
                next: None,
                left: None,
            },
        )?;
        Ok(Slip { node })
    }
}

/// Items, linked from the last to the first, so that adding one is quick and takes no memory. Contracts see them in the
/// order in which they were added.
pub struct GrowingList<T: Drop> {
    pub(crate) last: Link<T>,
    len: u64,
}

/// Drops one node after another, so that a long list does not need a deep stack.
impl<T: Drop> Drop for GrowingList<T> {
    fn drop(self) {
        let GrowingList { last, len: _ } = self;
        let mut rest = last;
        while let Some(mut node) = rest {
            rest = node.next.take();
        }
    }
}

impl<T: Drop> Model for GrowingList<T> {
    ghost use Rattle.std.specs.Prelude.{◌≡◌, List, length, reverse};
    ghost use Rattle.bq_history.specs.Chains.{chain_behind};

    ghost Value = { List T };

    ghost view = { λ r. reverse (chain_behind r.last) };

    ghost invariant = { λ r. r.len ≡ length (chain_behind r.last) };
}

impl<T: Drop> GrowingList<T> {
    /// A list without items.
    pub(crate) fn new() -> GrowingList<T>
        ensures { result ≡ [] }
    {
        GrowingList { last: None, len: 0 }
    }

    /// Adds an item at the end. It takes no memory.
    pub(crate) fn push(&mut self, slip: Slip<T>)
        requires { length self.old + 1 < 2 ^ 64 }
        ensures { self.new ≡ self.old ++ slip ∷ [] }
    {
        let Slip { mut node } = slip;
        node.next = self.last.take();
        self.last = Some(node);
        self.len += 1;
    }

    /// The chain of the items from the first to the last, and their number. It takes no memory.
    pub(crate) fn in_order(self) -> (Link<T>, u64)
        ensures chain { chain_behind result.0 ≡ self }
        ensures len { result.1 ≡ length self }
    {
        let GrowingList { last, len } = self;
        (reversed(last), len)
    }
}

/// Reverses a chain.
fn reversed<T: Drop>(link: Link<T>) -> Link<T>
    ensures { chain_behind result ≡ reverse (chain_behind link) }
{
    let mut rest = link;
    let mut done: Link<T> = None;
    while let Some(mut node) = rest {
        rest = node.next.take();
        node.next = done;
        done = Some(node);
    }
    done
}
