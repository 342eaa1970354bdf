//! How a node takes two trees as its sides, and how a tree comes apart.
ghost use Rattle.std.specs.Prelude.{◌≡◌, ◌<◌, ◌≤◌, ◌+◌, ◌^◌, max, length, ◌++◌, ◌∷◌, [], IsSome};
ghost use Rattle.bq_disc.specs.Chains.{task_of, IsLone};
ghost use Rattle.bq_disc.specs.Totals.{IsBounded};
ghost use Rattle.bq_disc.specs.declared.node.Node.{out-Node};
ghost use Rattle.bq_tree.specs.Trees.{in_order, height_of, left_height, right_height, left_height_behind, right_height_behind, IsTree, IsFork, IsForkBehind, in_order_behind, height_behind, IsTreeBehind, DifferByAtMost};

use crate::summary::Summary;
use bq_disc::node::Link;
use bq_disc::{Entity, Node};

/// Above the height of any balanced tree of 2^16 tasks, which is at most 22.
pub(crate) const HIGHEST: u8 = 100;

/// The height of a tree.
pub(crate) fn height(link: &Link) -> u8
    ensures { result ≡ height_behind link.now }
{
    match link {
        None => 0,
        Some(node) => node.height,
    }
}

/// Takes a tree apart: its left side, its root and its right side.
pub(crate) fn opened<S: Summary>(mut node: Box<Node>) -> (Link, Box<Node>, Link)
    requires { IsTree S.knows node.value }
    ensures lone { IsLone result.1.value }
    ensures left { IsTreeBehind S.knows result.0 }
    ensures right { IsTreeBehind S.knows result.2 }
    ensures balanced { DifferByAtMost 1 (height_behind result.0) (height_behind result.2) }
    ensures height { height_of node.value ≡ max (height_behind result.0) (height_behind result.2) + 1 }
    ensures bounded { IsBounded (task_of result.1.value) }
    ensures order { in_order node.value ≡ in_order_behind result.0 ++ task_of result.1.value ∷ in_order_behind result.2 }
    ensures sides { (result.0 ≡ (out-Node node.value).left) × (result.2 ≡ (out-Node node.value).right) }
    ensures task { task_of result.1.value ≡ task_of node.value }
{
    let left = node.left.take();
    let right = node.right.take();
    (left, node, right)
}

/// Takes a fork apart: its left side, its root and its right side. The sides may differ in height by more than one.
fn parted<S: Summary>(mut node: Box<Node>) -> (Link, Box<Node>, Link)
    requires { IsFork S.knows node.value }
    ensures lone { IsLone result.1.value }
    ensures left { IsTreeBehind S.knows result.0 }
    ensures right { IsTreeBehind S.knows result.2 }
    ensures left_height { height_behind result.0 ≡ left_height node.value }
    ensures right_height { height_behind result.2 ≡ right_height node.value }
    ensures bounded { IsBounded (task_of result.1.value) }
    ensures order { in_order node.value ≡ in_order_behind result.0 ++ task_of result.1.value ∷ in_order_behind result.2 }
    ensures knows { S.knows (in_order node.value) (out-Node result.1.value).due (out-Node result.1.value).totals }
{
    let left = node.left.take();
    let right = node.right.take();
    (left, node, right)
}

/// Brings into the proof that the task's weight and v are in their ranges.
fn show_ranges(entity: &Entity)
    ensures { IsBounded entity.now }
{
    let _weight = entity.weight();
    let _v = entity.v();
}

/// A node without sides.
pub(crate) fn leaf<S: Summary>(mut node: Box<Node>) -> Box<Node>
    requires lone { IsLone node.value }
    ensures tree { IsTree S.knows result.value }
    ensures order { in_order result.value ≡ task_of node.value ∷ [] }
    ensures height { height_of result.value ≡ 1 }
{
    show_ranges(&node.entity);
    let none = None;
    S::gather(&mut node, &none, &none);
    node.height = 1;
    node
}

/// A node with two trees as its sides.
#[inline(always)]
fn fork<S: Summary>(node: Box<Node>, left: Link, right: Link) -> Box<Node>
    requires lone { IsLone node.value }
    requires left { IsTreeBehind S.knows left }
    requires right { IsTreeBehind S.knows right }
    requires balanced { DifferByAtMost 1 (height_behind left) (height_behind right) }
    requires low { max (height_behind left) (height_behind right) ≤ HIGHEST }
    requires few { length (in_order_behind left) + length (in_order_behind right) < 2 ^ 16 }
    ensures tree { IsTree S.knows result.value }
    ensures order { in_order result.value ≡ in_order_behind left ++ task_of node.value ∷ in_order_behind right }
    ensures height { height_of result.value ≡ max (height_behind left) (height_behind right) + 1 }
{
    gathered::<S>(node, left, right)
}

/// A node with two trees as its sides, which may differ in height by more than one.
#[inline(always)]
pub(crate) fn gathered<S: Summary>(mut node: Box<Node>, left: Link, right: Link) -> Box<Node>
    requires lone { IsLone node.value }
    requires left { IsTreeBehind S.knows left }
    requires right { IsTreeBehind S.knows right }
    requires low { max (height_behind left) (height_behind right) ≤ HIGHEST }
    requires few { length (in_order_behind left) + length (in_order_behind right) < 2 ^ 16 }
    ensures fork { IsFork S.knows result.value }
    ensures tree { DifferByAtMost 1 (height_behind left) (height_behind right) → IsTree S.knows result.value }
    ensures order { in_order result.value ≡ in_order_behind left ++ task_of node.value ∷ in_order_behind right }
    ensures height { height_of result.value ≡ max (height_behind left) (height_behind right) + 1 }
    ensures left_height { left_height result.value ≡ height_behind left }
    ensures right_height { right_height result.value ≡ height_behind right }
{
    show_ranges(&node.entity);
    S::gather(&mut node, &left, &right);
    node.height = height(&left).max(height(&right)) + 1;
    node.left = left;
    node.right = right;
    node
}

/// A node that takes the place of another root. It already knows all that is to hang from it.
#[inline(always)]
fn crown<S: Summary>(mut node: Box<Node>, left: Link, right: Link) -> Box<Node>
    requires lone { IsLone node.value }
    requires left { IsTreeBehind S.knows left }
    requires right { IsTreeBehind S.knows right }
    requires balanced { DifferByAtMost 1 (height_behind left) (height_behind right) }
    requires low { max (height_behind left) (height_behind right) ≤ HIGHEST }
    requires knows { S.knows (in_order_behind left ++ task_of node.value ∷ in_order_behind right) (out-Node node.value).due (out-Node node.value).totals }
    requires bounded { IsBounded (task_of node.value) }
    ensures tree { IsTree S.knows result.value }
    ensures order { in_order result.value ≡ in_order_behind left ++ task_of node.value ∷ in_order_behind right }
    ensures height { height_of result.value ≡ max (height_behind left) (height_behind right) + 1 }
{
    node.height = height(&left).max(height(&right)) + 1;
    node.left = left;
    node.right = right;
    node
}

/// Turns right a root whose left side is two levels higher than the right one: a node of the left side takes its place.
fn turned_right<S: Summary>(root: Box<Node>) -> Box<Node>
    requires fork { IsFork S.knows root.value }
    requires higher { left_height root.value ≡ right_height root.value + 2 }
    requires low { left_height root.value ≤ HIGHEST }
    requires few { length (in_order root.value) ≤ 2 ^ 16 }
    ensures tree { IsTree S.knows result.value }
    ensures order { in_order result.value ≡ in_order root.value }
    ensures height { (left_height root.value ≤ height_of result.value) × (height_of result.value ≤ left_height root.value + 1) }
{
    let (left, root, right) = parted::<S>(root);
    let Some(top) = left else { unreachable!() };
    let (outer, mut top, inner) = opened::<S>(top);
    if height(&outer) >= height(&inner) {
        S::take_over(&mut top, &root);
        let low = fork::<S>(root, inner, right);
        return crown::<S>(top, outer, Some(low));
    }
    let Some(middle) = inner else { unreachable!() };
    let (near, mut middle, far) = opened::<S>(middle);
    S::take_over(&mut middle, &root);
    let before = fork::<S>(top, outer, near);
    let after = fork::<S>(root, far, right);
    crown::<S>(middle, Some(before), Some(after))
}

/// Turns left a root whose right side is two levels higher than the left one: a node of the right side takes its place.
fn turned_left<S: Summary>(root: Box<Node>) -> Box<Node>
    requires fork { IsFork S.knows root.value }
    requires higher { right_height root.value ≡ left_height root.value + 2 }
    requires low { right_height root.value ≤ HIGHEST }
    requires few { length (in_order root.value) ≤ 2 ^ 16 }
    ensures tree { IsTree S.knows result.value }
    ensures order { in_order result.value ≡ in_order root.value }
    ensures height { (right_height root.value ≤ height_of result.value) × (height_of result.value ≤ right_height root.value + 1) }
{
    let (left, root, right) = parted::<S>(root);
    let Some(top) = right else { unreachable!() };
    let (inner, mut top, outer) = opened::<S>(top);
    if height(&outer) >= height(&inner) {
        S::take_over(&mut top, &root);
        let low = fork::<S>(root, left, inner);
        return crown::<S>(top, Some(low), outer);
    }
    let Some(middle) = inner else { unreachable!() };
    let (far, mut middle, near) = opened::<S>(middle);
    S::take_over(&mut middle, &root);
    let before = fork::<S>(root, left, far);
    let after = fork::<S>(top, near, outer);
    crown::<S>(middle, Some(before), Some(after))
}

/// Makes a tree of a root whose sides differ in height by at most two.
pub(crate) fn rebalanced<S: Summary>(mut root: Box<Node>) -> Box<Node>
    requires fork { IsFork S.knows root.value }
    requires near { DifferByAtMost 2 (left_height root.value) (right_height root.value) }
    requires low { max (left_height root.value) (right_height root.value) ≤ HIGHEST }
    requires few { length (in_order root.value) ≤ 2 ^ 16 }
    ensures tree { IsTree S.knows result.value }
    ensures order { in_order result.value ≡ in_order root.value }
    ensures not_lower { max (left_height root.value) (right_height root.value) ≤ height_of result.value }
    ensures at_most_one_higher { height_of result.value ≤ max (left_height root.value) (right_height root.value) + 1 }
    ensures same { DifferByAtMost 1 (left_height root.value) (right_height root.value) → height_of result.value ≡ max (left_height root.value) (right_height root.value) + 1 }
{
    let (left, right) = heights(&root);
    if left > right + 1 {
        return turned_right::<S>(root);
    }
    if right > left + 1 {
        return turned_left::<S>(root);
    }
    root.height = left.max(right) + 1;
    root
}

/// The heights of a root's two sides.
fn heights(root: &Node) -> (u8, u8)
    ensures left { result.0 ≡ left_height root.now }
    ensures right { result.1 ≡ right_height root.now }
{
    (height(&root.left), height(&root.right))
}

/// Makes a tree of the fork that a link leads to.
pub(crate) fn rebalance<S: Summary>(link: &mut Link)
    requires fork { IsForkBehind S.knows link.old }
    requires near { DifferByAtMost 2 (left_height_behind link.old) (right_height_behind link.old) }
    requires low { max (left_height_behind link.old) (right_height_behind link.old) ≤ HIGHEST }
    requires few { length (in_order_behind link.old) ≤ 2 ^ 16 }
    ensures tree { IsTreeBehind S.knows link.new }
    ensures order { in_order_behind link.new ≡ in_order_behind link.old }
    ensures not_lower { max (left_height_behind link.old) (right_height_behind link.old) ≤ height_behind link.new }
    ensures at_most_one_higher { height_behind link.new ≤ max (left_height_behind link.old) (right_height_behind link.old) + 1 }
    ensures same { IsSome link.old → DifferByAtMost 1 (left_height_behind link.old) (right_height_behind link.old) → height_behind link.new ≡ max (left_height_behind link.old) (right_height_behind link.old) + 1 }
{
    let Some(root) = link else {
        return;
    };
    let (left, right) = heights(root);
    if left <= right + 1 && right <= left + 1 {
        root.height = left.max(right) + 1;
        return;
    }
    if let Some(root) = link.take() {
        *link = Some(rebalanced::<S>(root));
    }
}
