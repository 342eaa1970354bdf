//! How nodes come into a tree and leave it.
ghost use Rattle.std.specs.Prelude.{◌≡◌, ◌<◌, ◌≤◌, ◌+◌, ◌^◌, max, length, ◌++◌, Some, None, IfSome, IfNone, nat_lt};
ghost use Rattle.std.specs.Option.{option_map, option_to_list};
ghost use Rattle.bq_disc.specs.Tasks.{inserted};
ghost use Rattle.bq_disc.specs.Queues.{comes_after};
ghost use Rattle.bq_disc.specs.Chains.{task_of, IsLone};
ghost use Rattle.bq_disc.specs.Rising.{IsRising};
ghost use Rattle.bq_tree.specs.Trees.{in_order_behind, height_behind, IsTreeBehind, HasNoLeft, DifferByAtMost, left_behind, right_behind};
ghost use Rattle.bq_tree.specs.Taking.{is_task_at, TakesOut};

use crate::balance::{HIGHEST, gathered, height, leaf, opened, rebalance, rebalanced};
use crate::summary::Summary;
use bq_disc::node::Link;
use bq_disc::{Entity, Node};

/// Puts a node into a tree. The result says whether the tree has grown in height.
pub(crate) fn insert_into<S: Summary>(link: &mut Link, node: Box<Node>) -> bool
    requires lone { IsLone node.value }
    requires tree { IsTreeBehind S.knows link.old }
    requires rising { IsRising (in_order_behind link.old) }
    requires low { height_behind link.old ≤ HIGHEST }
    requires few { length (in_order_behind link.old) < 2 ^ 16 }
    ensures tree { IsTreeBehind S.knows link.new }
    ensures order { in_order_behind link.new ≡ inserted (task_of node.value) (in_order_behind link.old) }
    ensures not_lower { height_behind link.old ≤ height_behind link.new }
    ensures at_most_one_higher { height_behind link.new ≤ height_behind link.old + 1 }
    ensures grows { result ≡ nat_lt (height_behind link.old) (height_behind link.new) }
{
    let Some(root) = link else {
        *link = Some(leaf::<S>(node));
        return true;
    };
    let root = &mut **root;
    S::count_in(root, &node.entity);
    if node.entity.runs_before(&root.entity) {
        let grew = insert_into::<S>(&mut root.left, node);
        let before = root.height;
        if !grew {
            return false;
        }
        rebalance::<S>(link);
        return height(link) > before;
    }
    let grew = insert_into::<S>(&mut root.right, node);
    let before = root.height;
    if !grew {
        return false;
    }
    rebalance::<S>(link);
    height(link) > before
}

/// Takes the root out of a tree that has no left side.
fn pop_root<S: Summary>(link: &mut Link) -> Link
    requires tree { IsTreeBehind S.knows link.old }
    requires first { HasNoLeft link.old }
    ensures order { in_order_behind link.old ≡ option_to_list (option_map (λ b. task_of b.value) result) ++ in_order_behind link.new }
    ensures none { IfNone result ((link.old ≡ None) × (link.new ≡ None)) }
    ensures lone { IfSome result (λ b. IsLone b.value) }
    ensures tree { IsTreeBehind S.knows link.new }
    ensures not_higher { height_behind link.new ≤ height_behind link.old }
    ensures at_most_one_lower { height_behind link.old ≤ height_behind link.new + 1 }
{
    let (_, root, right) = opened::<S>(link.take()?);
    *link = right;
    Some(root)
}

/// Takes the first node out of a tree.
pub(crate) fn pop_least<S: Summary>(link: &mut Link) -> Link
    requires tree { IsTreeBehind S.knows link.old }
    requires low { height_behind link.old ≤ HIGHEST }
    requires few { length (in_order_behind link.old) ≤ 2 ^ 16 }
    ensures order { in_order_behind link.old ≡ option_to_list (option_map (λ b. task_of b.value) result) ++ in_order_behind link.new }
    ensures none { IfNone result ((link.old ≡ None) × (link.new ≡ None)) }
    ensures lone { IfSome result (λ b. IsLone b.value) }
    ensures tree { IsTreeBehind S.knows link.new }
    ensures not_higher { height_behind link.new ≤ height_behind link.old }
    ensures at_most_one_lower { height_behind link.old ≤ height_behind link.new + 1 }
{
    let Some(root) = link else { return None };
    if root.left.is_none() {
        return pop_root::<S>(link);
    }
    let root = &mut **root;
    let before = height(&root.left);
    let Some(least) = pop_least::<S>(&mut root.left) else {
        unreachable!()
    };
    S::count_out(root, &least.entity);
    if height(&root.left) != before {
        rebalance::<S>(link);
    }
    Some(least)
}

/// Joins the two sides of a root that is gone.
fn joined<S: Summary>(left: Link, mut right: Link) -> Link
    requires left { IsTreeBehind S.knows left }
    requires right { IsTreeBehind S.knows right }
    requires balanced { DifferByAtMost 1 (height_behind left) (height_behind right) }
    requires low { max (height_behind left) (height_behind right) ≤ HIGHEST }
    requires few { length (in_order_behind left) + length (in_order_behind right) < 2 ^ 16 }
    ensures order { in_order_behind result ≡ in_order_behind left ++ in_order_behind right }
    ensures tree { IsTreeBehind S.knows result }
    ensures not_lower { max (height_behind left) (height_behind right) ≤ height_behind result }
    ensures at_most_one_higher { height_behind result ≤ max (height_behind left) (height_behind right) + 1 }
{
    if left.is_none() {
        return right;
    }
    let Some(least) = pop_least::<S>(&mut right) else {
        return left;
    };
    Some(rebalanced::<S>(gathered::<S>(least, left, right)))
}

/// Takes the root out of a tree.
fn pop<S: Summary>(link: &mut Link) -> Link
    requires tree { IsTreeBehind S.knows link.old }
    requires low { height_behind link.old ≤ HIGHEST }
    requires few { length (in_order_behind link.old) ≤ 2 ^ 16 }
    ensures root { option_map (λ b. task_of b.value) result ≡ option_map (λ b. task_of b.value) link.old }
    ensures order { in_order_behind link.new ≡ in_order_behind (left_behind link.old) ++ in_order_behind (right_behind link.old) }
    ensures lone { IfSome result (λ b. IsLone b.value) }
    ensures tree { IsTreeBehind S.knows link.new }
    ensures not_higher { height_behind link.new ≤ height_behind link.old }
    ensures at_most_one_lower { height_behind link.old ≤ height_behind link.new + 1 }
{
    let (left, root, right) = opened::<S>(link.take()?);
    *link = joined::<S>(left, right);
    Some(root)
}

/// Whether the task is the one at (v, id).
pub(crate) fn is_at(entity: &Entity, v: u64, id: u16) -> bool
    ensures { result ≡ is_task_at v id entity.now }
{
    entity.v() == v && entity.id() == id
}

/// Whether the task comes after (v, id).
pub(crate) fn is_after(entity: &Entity, v: u64, id: u16) -> bool
    ensures { result ≡ comes_after v id entity.now }
{
    v < entity.v() || (v == entity.v() && id < entity.id())
}

/// Takes the node at (v, id) out of a tree, if it is there.
pub(crate) fn take_from<S: Summary>(link: &mut Link, v: u64, id: u16) -> Link
    requires tree { IsTreeBehind S.knows link.old }
    requires rising { IsRising (in_order_behind link.old) }
    requires low { height_behind link.old ≤ HIGHEST }
    requires few { length (in_order_behind link.old) ≤ 2 ^ 16 }
    ensures taken { TakesOut v id (in_order_behind link.old) (option_map (λ b. task_of b.value) result) (in_order_behind link.new) }
    ensures same { IfNone result (link.new ≡ link.old) }
    ensures lone { IfSome result (λ b. IsLone b.value) }
    ensures tree { IsTreeBehind S.knows link.new }
    ensures not_higher { height_behind link.new ≤ height_behind link.old }
    ensures at_most_one_lower { height_behind link.old ≤ height_behind link.new + 1 }
{
    let Some(root) = link else { return None };
    let root = &mut **root;
    if is_at(&root.entity, v, id) {
        return pop::<S>(link);
    }
    if is_after(&root.entity, v, id) {
        let before = height(&root.left);
        let Some(taken) = take_from::<S>(&mut root.left, v, id) else {
            return None;
        };
        S::count_out(root, &taken.entity);
        if height(&root.left) != before {
            rebalance::<S>(link);
        }
        return Some(taken);
    }
    let before = height(&root.right);
    let Some(taken) = take_from::<S>(&mut root.right, v, id) else {
        return None;
    };
    S::count_out(root, &taken.entity);
    if height(&root.right) != before {
        rebalance::<S>(link);
    }
    Some(taken)
}
