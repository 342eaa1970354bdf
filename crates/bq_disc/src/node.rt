//! A task that can be linked into a queue.
ghost use Rattle.std.specs.Prelude.{◌≡◌, ◌≤◌, None, pos, IfSome, IfNone, [], ◌∷◌, ◌++◌};
ghost use Rattle.std.specs.Option.{option_map, option_to_list};
ghost use Rattle.bq_disc.specs.declared.limits.TheConstants.{GREATEST_SLICE, LEAST_SLICE};
ghost use Rattle.bq_weights.specs.VirtualTime.{IsWeight};
ghost use Rattle.bq_disc.specs.Chains.{task_of, IsLone, chain, chain_behind, IsStraightBehind};

use crate::{Deadline, Entity, Totals};

/// A link to another node, or to none.
pub type Link = Option<Box<Node>>;

/// A task with the links by which a queue holds it, at most one queue at a time.
///
/// A tree also keeps in each node the height there. A tree that keeps sums keeps two more figures of all tasks that hang
/// from the node: the earliest deadline, and their totals. Elsewhere these three fields mean nothing.
#[derive(Drop)]
pub struct Node {
    pub entity: Entity,
    pub left: Link,
    pub right: Link,
    pub due: Deadline,
    pub totals: Totals,
    pub height: u8,
}

impl Node {
    /// A new task, linked to none.
    pub fn new(id: u16, weight: u32, mask: u64, slice: u64) -> Node
        requires weight { IsWeight weight }
        requires slice_low { LEAST_SLICE ≤ slice }
        requires slice_high { slice ≤ GREATEST_SLICE }
        ensures task { task_of result ≡ record { id = id; weight = weight; mask = mask; slice = slice; v = 0; deadline = 0; rel = pos 0; prev = None } }
        ensures lone { IsLone result }
    {
        let entity = Entity::new(id, weight, mask, slice);
        Node {
            entity,
            left: None,
            right: None,
            due: entity.due(),
            totals: Totals::none(),
            height: 0,
        }
    }
}

/// The chain that follows a node.
pub fn behind(node: &Node) -> &Link
    ensures { chain node.now ≡ task_of node.now ∷ chain_behind result.now }
{
    &node.left
}

/// Takes the first node off a chain.
pub fn pop_front(link: &mut Link) -> Option<Box<Node>>
    requires straight { IsStraightBehind link.old }
    ensures tasks { chain_behind link.old ≡ option_to_list (option_map (λ b. task_of b.value) result) ++ chain_behind link.new }
    ensures none { IfNone result (chain_behind link.old ≡ []) }
    ensures lone { IfSome result (λ b. IsLone b.value) }
    ensures straight { IsStraightBehind link.new }
{
    let mut node = link.take()?;
    *link = node.left.take();
    Some(node)
}
