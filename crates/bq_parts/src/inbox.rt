//! Tasks that were placed on a processor and have not entered its queue.
ghost use Rattle.std.specs.Prelude.{◌≡◌, ◌<◌, ◌+◌, ◌^◌, [], ◌∷◌, ◌++◌, length, reverse};
ghost use Rattle.bq_disc.specs.Chains.{chain_behind, IsStraightBehind};

use crate::Unlinked;
use bq_disc::node::Link;
use std::marker::Model;

/// The tasks placed on a processor. They are linked by their own nodes, the last one first, so adding a task is quick and
/// takes no memory. Contracts see the tasks in the order in which they came.
#[derive(Drop)]
pub struct Inbox {
    last: Link,
    len: u32,
}

impl Model for Inbox {
    ghost use Rattle.std.specs.Prelude.{◌≡◌, List, length, reverse};
    ghost use Rattle.bq_disc.specs.Tasks.{Task, coded_task};
    ghost use Rattle.std.specs.Coded.{coded_list};

    ghost Value = { List Task };

    ghost coded = { coded_list coded_task };

    ghost use Rattle.bq_disc.specs.Chains.{chain_behind, IsStraightBehind};

    ghost view = { λ i. reverse (chain_behind i.last) };

    ghost invariant = { λ i. IsStraightBehind i.last × (i.len ≡ length (chain_behind i.last)) };
}

impl Inbox {
    /// Makes an inbox without tasks.
    pub fn new() -> Inbox
        ensures { result ≡ [] }
    {
        Inbox { last: None, len: 0 }
    }

    /// Counts the tasks in the inbox.
    pub fn len(&self) -> u32
        ensures { result ≡ length self.now }
    {
        self.len
    }

    /// Adds a task at the end.
    pub fn push(&mut self, task: Unlinked)
        requires { length self.old < 2 ^ 31 }
        ensures { self.new ≡ self.old ++ task ∷ [] }
    {
        let mut node = task.into_node();
        node.left = self.last.take();
        self.last = Some(node);
        self.len += 1;
    }

    /// Gives the tasks as a chain in the order in which they came, and keeps none.
    pub fn take_all(&mut self) -> Link
        ensures tasks { chain_behind result ≡ self.old }
        ensures straight { IsStraightBehind result }
        ensures emptied { self.new ≡ [] }
    {
        self.len = 0;
        reversed(self.last.take())
    }
}

/// Reverses a chain.
fn reversed(link: Link) -> Link
    requires { IsStraightBehind link }
    ensures tasks { chain_behind result ≡ reverse (chain_behind link) }
    ensures straight { IsStraightBehind result }
{
    let mut rest = link;
    let mut done: Link = None;
    while let Some(mut node) = rest {
        rest = node.left.take();
        node.left = done;
        done = Some(node);
    }
    done
}
