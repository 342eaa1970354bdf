//! What the nodes of a tree know of all the tasks that hang from them.
ghost use Rattle.std.specs.Prelude.{◌≡◌, ◌<◌, ◌≤◌, ◌+◌, ◌^◌, ◌++◌, ◌∷◌, List, Some, filter, length, ◌==◌, ◌&&◌};
ghost use Rattle.bq_disc.specs.Tasks.{Task};
ghost use Rattle.bq_disc.specs.Chains.{task_of, IsLone};
ghost use Rattle.bq_disc.specs.Totals.{sums_of, added, HasBounds, IsBounded, is_at_most_mean};
ghost use Rattle.bq_disc.specs.Dues.{due_of, first_due, earlier_of};
ghost use Rattle.bq_disc.specs.declared.node.Node.{out-Node};
ghost use Rattle.bq_disc.specs.declared.deadline.Deadline.{Deadline};
ghost use Rattle.bq_disc.specs.declared.totals.Totals.{Totals};
ghost use Rattle.bq_disc.specs.Rising.{IsRising};
ghost use Rattle.bq_tree.specs.Trees.{in_order, IsTree, IsTreeBehind, in_order_behind, CountsIn, StillCounts, KeepsSides, hanging};
ghost use Rattle.bq_tree.specs.Knowing.{knows_sums, knows_nothing};

use crate::walks;
use bq_disc::node::Link;
use bq_disc::{Deadline, Entity, Node, Totals};

/// What each node of a tree knows of all the tasks that hang from it, and how that changes with them.
pub trait Summary {
    /// What a node knows of some tasks, given the deadline and the totals that it keeps.
    ghost knows: { List Task → Deadline → Totals → Type 0 };

    /// A lone node learns about its own task and the two trees that are to be its sides.
    fn gather(node: &mut Node, left: &Link, right: &Link)
        requires lone { IsLone node.old }
        requires left { IsTreeBehind knows left.now }
        requires right { IsTreeBehind knows right.now }
        requires few { length (in_order_behind left.now) + length (in_order_behind right.now) < 2 ^ 16 }
        ensures task { task_of node.new ≡ task_of node.old }
        ensures lone { IsLone node.new }
        ensures knows { knows (in_order_behind left.now ++ task_of node.old ∷ in_order_behind right.now) (out-Node node.new).due (out-Node node.new).totals };

    /// A lone node that is to take another root's place learns what that root knows.
    fn take_over(node: &mut Node, root: &Node)
        requires lone { IsLone node.old }
        ensures task { task_of node.new ≡ task_of node.old }
        ensures lone { IsLone node.new }
        ensures knows { (xs : List Task) → knows xs (out-Node root.now).due (out-Node root.now).totals → knows xs (out-Node node.new).due (out-Node node.new).totals };

    /// A root counts one more task.
    fn count_in(root: &mut Node, entity: &Entity)
        requires tree { IsTree knows root.old }
        requires few { length (in_order root.old) < 2 ^ 16 }
        ensures { CountsIn knows root.old root.new entity.now };

    /// A root stops counting a task that has left one of its sides.
    fn count_out(root: &mut Node, gone: &Entity)
        requires left { IsTreeBehind knows (out-Node root.old).left }
        requires right { IsTreeBehind knows (out-Node root.old).right }
        requires bounded { IsBounded (out-Node root.old).entity }
        requires counts { StillCounts knows root.old gone.now }
        ensures sides { KeepsSides root.old root.new }
        ensures knows { knows (hanging root.old) (out-Node root.new).due (out-Node root.new).totals };

    /// The totals of a tree's tasks.
    fn totals(link: &Link) -> Totals
        requires tree { IsTreeBehind knows link.now }
        requires few { length (in_order_behind link.now) ≤ 2 ^ 16 }
        ensures sums { result ≡ sums_of (in_order_behind link.now) }
        ensures bounds { HasBounds result };

    /// The earliest virtual deadline of the tree's tasks with `weight * v <= moment`.
    fn earliest_at_most_mean(link: &Link, weight: u64, moment: u128) -> Option<Deadline>
        requires tree { IsTreeBehind knows link.now }
        requires rising { IsRising (in_order_behind link.now) }
        ensures { result ≡ first_due (filter (is_at_most_mean weight moment) (in_order_behind link.now)) };
}

/// Each node knows the earliest deadline and the totals of the tasks that hang from it.
#[derive(Clone, Copy)]
pub struct Sums;

/// No node knows anything about the others: a question about all tasks is answered by a walk over them.
#[derive(Clone, Copy)]
pub struct NoSums;

impl Summary for Sums {
    ghost knows = { knows_sums };

    fn gather(node: &mut Node, left: &Link, right: &Link) {
        node.due = first_of(node, left, right);
        node.totals = totals_of(node, left, right);
    }

    fn take_over(node: &mut Node, root: &Node) {
        node.due = root.due;
        node.totals = root.totals;
    }

    fn count_in(root: &mut Node, entity: &Entity) {
        add(root, entity);
    }

    fn count_out(root: &mut Node, gone: &Entity) {
        remove(root, gone);
    }

    fn totals(link: &Link) -> Totals {
        totals(link)
    }

    fn earliest_at_most_mean(link: &Link, weight: u64, moment: u128) -> Option<Deadline> {
        walks::earliest_from(link, weight, moment, None)
    }
}

impl Summary for NoSums {
    ghost knows = { knows_nothing };

    fn gather(node: &mut Node, left: &Link, right: &Link) {}

    fn take_over(node: &mut Node, root: &Node) {}

    fn count_in(root: &mut Node, entity: &Entity) {}

    fn count_out(root: &mut Node, gone: &Entity) {}

    fn totals(link: &Link) -> Totals {
        walks::totals_of_all(link)
    }

    fn earliest_at_most_mean(link: &Link, weight: u64, moment: u128) -> Option<Deadline> {
        walks::earliest_of_all(link, weight, moment)
    }
}

/// The earliest deadline of a tree's tasks.
pub(crate) fn due(link: &Link) -> Option<Deadline>
    requires { IsTreeBehind knows_sums link.now }
    ensures { result ≡ first_due (in_order_behind link.now) }
{
    match link {
        None => None,
        Some(node) => Some(node.due),
    }
}

/// The totals of a tree's tasks.
#[tactic(auto, using(crate::proofs::BoundLemmas::bounded_behind))]
fn totals(link: &Link) -> Totals
    requires { IsTreeBehind knows_sums link.now }
    ensures sums { result ≡ sums_of (in_order_behind link.now) }
    ensures bounds { HasBounds result }
{
    match link {
        None => Totals::none(),
        Some(node) => node.totals,
    }
}

/// The earliest deadline of a node's task and two trees.
#[tactic(auto, using(crate::proofs::TotalsLemmas::totals_facts))]
fn first_of(node: &Node, left: &Link, right: &Link) -> Deadline
    requires left { IsTreeBehind knows_sums left.now }
    requires right { IsTreeBehind knows_sums right.now }
    ensures { first_due (in_order_behind left.now ++ task_of node.now ∷ in_order_behind right.now) ≡ Some result }
{
    node.entity.due().earliest(due(left)).earliest(due(right))
}

/// The totals of a node's task and two trees.
#[tactic(auto, using(crate::proofs::TotalsLemmas::totals_facts))]
fn totals_of(node: &Node, left: &Link, right: &Link) -> Totals
    requires left { IsTreeBehind knows_sums left.now }
    requires right { IsTreeBehind knows_sums right.now }
    requires few { length (in_order_behind left.now) + length (in_order_behind right.now) < 2 ^ 16 }
    ensures { result ≡ sums_of (in_order_behind left.now ++ task_of node.now ∷ in_order_behind right.now) }
{
    let mut rest = totals(right);
    rest.add(&node.entity);
    totals(left).join(&rest)
}

/// Whether a deadline is that of this task.
fn is_due(due: &Deadline, entity: &Entity) -> bool
    ensures { result ≡ (due.now.deadline == entity.now.deadline && due.now.id == entity.now.id) }
{
    due.deadline == entity.deadline() && due.id == entity.id()
}

/// Adds a task to what a root knows.
fn add(root: &mut Node, entity: &Entity)
    requires tree { IsTree knows_sums root.old }
    requires few { length (in_order root.old) < 2 ^ 16 }
    ensures sides { KeepsSides root.old root.new }
    ensures due { (out-Node root.new).due ≡ earlier_of (due_of entity.now) (out-Node root.old).due }
    ensures totals { (out-Node root.new).totals ≡ added (out-Node root.old).totals entity.now }
{
    root.totals.add(entity);
    let due = entity.due();
    if due.is_before(&root.due) {
        root.due = due;
    }
}

/// Takes a task that has left one of a root's sides out of what the root knows.
fn remove(root: &mut Node, gone: &Entity)
    requires left { IsTreeBehind knows_sums (out-Node root.old).left }
    requires right { IsTreeBehind knows_sums (out-Node root.old).right }
    requires bounded { IsBounded (out-Node root.old).entity }
    requires counts { StillCounts knows_sums root.old gone.now }
    ensures sides { KeepsSides root.old root.new }
    ensures due { first_due (hanging root.old) ≡ Some (out-Node root.new).due }
    ensures totals { (out-Node root.new).totals ≡ sums_of (hanging root.old) }
{
    root.totals.remove(gone);
    if is_due(&root.due, gone) {
        root.due = first_of(root, &root.left, &root.right);
    }
}
