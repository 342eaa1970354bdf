//! Tasks in order, plainly: a chain of boxes by their left links.
ghost use Rattle.std.specs.Prelude.{◌≡◌, ◌<◌, ◌≤◌, ◌^◌, ◌+◌, length, None, IfSome, find, filter};
ghost use Rattle.std.specs.Option.{option_map};
ghost use Rattle.bq_disc.specs.Queues.{comes_after, follows};
ghost use Rattle.bq_disc.specs.Tasks.{inserted, find_task, without};
ghost use Rattle.bq_disc.specs.Chains.{task_of, IsLone, chain_behind, IsStraightBehind};
ghost use Rattle.bq_disc.specs.Totals.{sums_of, is_at_most_mean, HasBounds};
ghost use Rattle.bq_disc.specs.Dues.{first_due};
ghost use Rattle.bq_disc.specs.Movable.{AddsMovable};
ghost use Rattle.bq_disc.specs.declared.movable.TheConstants.{MOST_NAMED};

use crate::limits::PROCESSORS;
use crate::node::{Link, behind};
use crate::{Deadline, Movable, Node, TaskOrder, Totals};
use std::marker::Model;

/// Nodes in their order. Each is linked to the next.
#[derive(Drop)]
pub struct Chain {
    head: Link,
    len: usize,
}

impl Model for Chain {
    ghost use Rattle.std.specs.Prelude.{◌≡◌, List, length};
    ghost use Rattle.std.specs.Coded.{coded_list};
    ghost use Rattle.bq_disc.specs.Tasks.{Task, coded_task};
    ghost use Rattle.bq_disc.specs.Queues.{HasDistinctIds, HasSmallIds};

    ghost Value = { List Task };

    ghost coded = { coded_list coded_task };

    ghost use Rattle.bq_disc.specs.Chains.{chain_behind, IsStraightBehind};
    ghost use Rattle.bq_disc.specs.Rising.{IsRising};

    ghost view = { λ q. chain_behind q.head };

    ghost invariant = { λ q. IsStraightBehind q.head × (q.len ≡ length (chain_behind q.head)) × HasDistinctIds (chain_behind q.head) × HasSmallIds (chain_behind q.head) × IsRising (chain_behind q.head) };
}

#[tactic(auto, using(crate::proofs::QueueLemmas::queue_facts, crate::proofs::RisingLemmas::rising_facts))]
impl TaskOrder for Chain {
    ghost tasks = { λ q. q };

    fn empty() -> Chain {
        Chain { head: None, len: 0 }
    }

    fn len(&self) -> usize {
        self.len
    }

    fn insert(&mut self, node: Box<Node>) {
        // Reading the id brings into the proof that it is below 2^16.
        let _small = node.entity.id();
        insert_behind(&mut self.head, node);
        self.len += 1;
    }

    fn take(&mut self, id: u16) -> Option<Box<Node>> {
        let node = take_behind(&mut self.head, id)?;
        self.len -= 1;
        Some(node)
    }

    fn get(&self, id: u16) -> Option<&Node> {
        get_behind(&self.head, id)
    }

    fn after(&self, last: Option<(u64, u16)>) -> Option<&Node> {
        match last {
            None => front(&self.head),
            Some((v, id)) => after_behind(&self.head, v, id),
        }
    }

    fn movable(&self, processor: u8) -> Movable {
        let mut found = Movable::new();
        movable_behind(&self.head, processor, &mut found);
        found
    }

    fn least(&self) -> Option<(u64, u16)> {
        match front(&self.head) {
            None => None,
            Some(node) => Some(node.entity.key()),
        }
    }

    fn totals(&self) -> Totals {
        totals_behind(&self.head)
    }

    fn earliest_at_most_mean(&self, weight: u64, moment: u128) -> Option<Deadline> {
        earliest_behind(&self.head, weight, moment)
    }
}

/// Puts a node into a chain, in its place by (v, id).
pub(crate) fn insert_behind(link: &mut Link, mut node: Box<Node>)
    requires lone { IsLone node.value }
    requires straight { IsStraightBehind link.old }
    ensures chain { chain_behind link.new ≡ inserted (task_of node.value) (chain_behind link.old) }
    ensures straight { IsStraightBehind link.new }
{
    match link {
        None => *link = Some(node),
        Some(next) => {
            if node.entity.runs_before(&next.entity) {
                node.left = link.take();
                *link = Some(node);
            } else {
                insert_behind(&mut next.left, node);
            }
        }
    }
}

/// Takes the node with this id out of a chain.
pub(crate) fn take_behind(link: &mut Link, id: u16) -> Link
    requires straight { IsStraightBehind link.old }
    ensures taken { option_map (λ b. task_of b.value) result ≡ find_task id (chain_behind link.old) }
    ensures lone { IfSome result (λ b. IsLone b.value) }
    ensures rest { chain_behind link.new ≡ without id (chain_behind link.old) }
    ensures straight { IsStraightBehind link.new }
{
    let mut node = link.take()?;
    if node.entity.id() == id {
        *link = node.left.take();
        Some(node)
    } else {
        let taken = take_behind(&mut node.left, id);
        *link = Some(node);
        taken
    }
}

/// The node with this id in a chain.
pub(crate) fn get_behind(link: &Link, id: u16) -> Option<&Node>
    ensures { option_map (λ n. task_of n.now) result ≡ find_task id (chain_behind link.now) }
{
    let mut link = link;
    while let Some(node) = link {
        if node.entity.id() == id {
            return Some(node);
        }
        link = &node.left;
    }
    None
}

/// The first node of a chain whose task comes after (v, id).
pub(crate) fn after_behind(link: &Link, v: u64, id: u16) -> Option<&Node>
    ensures { option_map (λ n. task_of n.now) result ≡ find (comes_after v id) (chain_behind link.now) }
{
    let mut link = link;
    while let Some(node) = link {
        if v < node.entity.v() || (v == node.entity.v() && id < node.entity.id()) {
            return Some(node);
        }
        link = &node.left;
    }
    None
}

/// The first node of a chain.
pub(crate) fn front(link: &Link) -> Option<&Node>
    ensures { option_map (λ n. task_of n.now) result ≡ find (follows None) (chain_behind link.now) }
{
    match link {
        None => None,
        Some(node) => Some(node),
    }
}

/// The totals of a chain's tasks.
fn totals_behind(chain: &Link) -> Totals
    requires { length (chain_behind chain.now) ≤ 2 ^ 16 }
    ensures sums { result ≡ sums_of (chain_behind chain.now) }
    ensures bounds { HasBounds result }
{
    let Some(node) = chain else {
        return Totals::none();
    };
    let mut totals = totals_behind(behind(node));
    totals.add(&node.entity);
    totals
}

/// The earliest virtual deadline of the chain's tasks with `weight * v <= moment`.
fn earliest_behind(chain: &Link, weight: u64, moment: u128) -> Option<Deadline>
    ensures { result ≡ first_due (filter (is_at_most_mean weight moment) (chain_behind chain.now)) }
{
    let Some(node) = chain else {
        return None;
    };
    let rest = earliest_behind(&node.left, weight, moment);
    if !node.entity.is_at_most_mean(weight, moment) {
        return rest;
    }
    Some(node.entity.due().earliest(rest))
}

/// Looks at the tasks of a chain from the last to the first, and adds those that may use a processor.
pub(crate) fn movable_behind(link: &Link, processor: u8, found: &mut Movable)
    requires processor { processor < PROCESSORS }
    requires few { found.old.count + length (chain_behind link.now) ≤ 2 ^ 20 }
    requires fits { length found.old.first.items ≤ MOST_NAMED }
    ensures { AddsMovable processor (chain_behind link.now) found.old found.new }
{
    let Some(node) = link else {
        return;
    };
    movable_behind(behind(node), processor, found);
    found.add(&node.entity, processor);
}
