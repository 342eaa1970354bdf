//! A task that is in no queue.
ghost use Rattle.std.specs.Prelude.{◌≡◌};
ghost use Rattle.bq_disc.specs.Chains.{task_of, IsLone};

use bq_disc::Node;
use std::marker::Model;

/// A task whose node is linked to no other. Contracts see only the task.
#[derive(Drop)]
pub struct Unlinked {
    node: Box<Node>,
}

impl Model for Unlinked {
    ghost use Rattle.bq_disc.specs.Tasks.{Task, coded_task};

    ghost Value = { Task };

    ghost coded = { coded_task };

    ghost use Rattle.bq_disc.specs.Chains.{task_of, IsLone};

    ghost view = { λ u. task_of u.node.value };

    ghost invariant = { λ u. IsLone u.node.value };
}

impl Unlinked {
    /// Makes a task of its node, which is linked to no other.
    pub fn new(node: Box<Node>) -> Unlinked
        requires { IsLone node.value }
        ensures { result ≡ task_of node.value }
    {
        Unlinked { node }
    }

    /// Gives up the task's node, so that it can be linked.
    pub fn into_node(self) -> Box<Node>
        ensures task { task_of result.value ≡ self }
        ensures lone { IsLone result.value }
    {
        self.node
    }

    /// Lends the task's node, to be read.
    pub fn node(&self) -> &Node
        ensures { task_of result.now ≡ self.now }
    {
        &self.node
    }

    /// Returns the task's id.
    pub fn id(&self) -> u16
        ensures { result ≡ self.now.id }
    {
        self.node.entity.id()
    }
}
