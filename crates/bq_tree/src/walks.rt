//! Walks down a tree.
ghost use Rattle.std.specs.Prelude.{◌≡◌, ◌<◌, ◌≤◌, ◌+◌, ◌^◌, ◌++◌, ◌∷◌, Some, None, find, filter, length};
ghost use Rattle.std.specs.Option.{option_map};
ghost use Rattle.bq_disc.specs.Tasks.{find_task};
ghost use Rattle.bq_disc.specs.Queues.{comes_after, follows};
ghost use Rattle.bq_disc.specs.Chains.{task_of};
ghost use Rattle.bq_disc.specs.Movable.{AddsMovable};
ghost use Rattle.bq_disc.specs.Totals.{sums_of, HasBounds, is_at_most_mean};
ghost use Rattle.bq_disc.specs.Rising.{IsRising};
ghost use Rattle.bq_tree.specs.Trees.{in_order, IsTree, IsTreeBehind, in_order_behind};
ghost use Rattle.bq_tree.specs.Taking.{FindsTask};
ghost use Rattle.bq_tree.specs.Knowing.{knows_sums};
ghost use Rattle.bq_disc.specs.Dues.{first_due, sooner_of};
ghost use Rattle.bq_disc.specs.declared.movable.TheConstants.{MOST_NAMED};

use crate::edits::{is_after, is_at};
use crate::summary::due;
use bq_disc::limits::PROCESSORS;
use bq_disc::node::Link;
use bq_disc::{Deadline, Movable, Node, Totals};

/// The two sides of a node.
fn sides(node: &Node) -> (&Link, &Link)
    ensures order { in_order node.now ≡ in_order_behind result.0.now ++ task_of node.now ∷ in_order_behind result.1.now }
    ensures sums { IsTree knows_sums node.now → IsTreeBehind knows_sums result.0.now × IsTreeBehind knows_sums result.1.now }
{
    (&node.left, &node.right)
}

/// The node at (v, id).
pub(crate) fn get_at(link: &Link, v: u64, id: u16) -> Option<&Node>
    requires rising { IsRising (in_order_behind link.now) }
    ensures { FindsTask v id (in_order_behind link.now) (option_map (λ n. task_of n.now) result) }
{
    let Some(node) = link else {
        return None;
    };
    let (left, right) = sides(node);
    if is_at(&node.entity, v, id) {
        return Some(node);
    }
    if is_after(&node.entity, v, id) {
        return get_at(left, v, id);
    }
    get_at(right, v, id)
}

/// The node with this id, wherever it is in the tree.
pub(crate) fn find_id(link: &Link, id: u16) -> Option<&Node>
    ensures { option_map (λ n. task_of n.now) result ≡ find_task id (in_order_behind link.now) }
{
    let Some(node) = link else {
        return None;
    };
    let (left, right) = sides(node);
    match find_id(left, id) {
        Some(found) => return Some(found),
        None => {}
    }
    if node.entity.id() == id {
        return Some(node);
    }
    find_id(right, id)
}

/// The first node after (v, id).
pub(crate) fn after(link: &Link, v: u64, id: u16) -> Option<&Node>
    requires rising { IsRising (in_order_behind link.now) }
    ensures { option_map (λ n. task_of n.now) result ≡ find (comes_after v id) (in_order_behind link.now) }
{
    let Some(node) = link else {
        return None;
    };
    let (left, right) = sides(node);
    if !is_after(&node.entity, v, id) {
        return after(right, v, id);
    }
    match after(left, v, id) {
        Some(found) => Some(found),
        None => Some(node),
    }
}

/// The first node of a tree.
pub(crate) fn least(link: &Link) -> Option<&Node>
    ensures { option_map (λ n. task_of n.now) result ≡ find (follows None) (in_order_behind link.now) }
{
    match link {
        None => None,
        Some(node) => Some(least_of(node)),
    }
}

/// The first node of a tree, given its root.
fn least_of(node: &Node) -> &Node
    ensures { find (follows None) (in_order node.now) ≡ Some (task_of result.now) }
{
    let (left, _) = sides(node);
    match left {
        None => node,
        Some(next) => least_of(next),
    }
}

/// The earliest of `found` and the deadlines of the tree's tasks with `weight * v <= moment`.
pub(crate) fn earliest_from(
    link: &Link,
    weight: u64,
    moment: u128,
    found: Option<Deadline>,
) -> Option<Deadline>
    requires tree { IsTreeBehind knows_sums link.now }
    requires rising { IsRising (in_order_behind link.now) }
    ensures { result ≡ sooner_of found (first_due (filter (is_at_most_mean weight moment) (in_order_behind link.now))) }
{
    let Some(node) = link else {
        return found;
    };
    let (left, right) = sides(node);
    let entity = &node.entity;
    if !entity.is_at_most_mean(weight, moment) {
        return earliest_from(left, weight, moment, found);
    }
    let here = entity.due().earliest(due(left)).earliest(found);
    earliest_from(right, weight, moment, Some(here))
}

/// Looks at the tasks of a tree from the last to the first, and adds those that may use a processor.
pub(crate) fn movable_into(link: &Link, processor: u8, found: &mut Movable)
    requires processor { processor < PROCESSORS }
    requires few { found.old.count + length (in_order_behind link.now) ≤ 2 ^ 20 }
    requires fits { length found.old.first.items ≤ MOST_NAMED }
    ensures { AddsMovable processor (in_order_behind link.now) found.old found.new }
{
    let Some(node) = link else {
        return;
    };
    let (left, right) = sides(node);
    movable_into(right, processor, found);
    found.add(&node.entity, processor);
    movable_into(left, processor, found);
}

/// The totals of a tree's tasks, by a walk over all of them.
pub(crate) fn totals_of_all(link: &Link) -> Totals
    requires { length (in_order_behind link.now) ≤ 2 ^ 16 }
    ensures sums { result ≡ sums_of (in_order_behind link.now) }
    ensures bounds { HasBounds result }
{
    let Some(node) = link else {
        return Totals::none();
    };
    let (left, right) = sides(node);
    let mut rest = totals_of_all(right);
    rest.add(&node.entity);
    totals_of_all(left).join(&rest)
}

/// The earliest virtual deadline of the tree's tasks with `weight * v <= moment`, by a walk over all of them.
pub(crate) fn earliest_of_all(link: &Link, weight: u64, moment: u128) -> Option<Deadline>
    requires { IsRising (in_order_behind link.now) }
    ensures { result ≡ first_due (filter (is_at_most_mean weight moment) (in_order_behind link.now)) }
{
    let Some(node) = link else {
        return None;
    };
    let (left, right) = sides(node);
    let found = earliest_of_all(left, weight, moment);
    let entity = &node.entity;
    if !entity.is_at_most_mean(weight, moment) {
        return found;
    }
    let here = entity.due().earliest(found);
    Some(here.earliest(earliest_of_all(right, weight, moment)))
}
