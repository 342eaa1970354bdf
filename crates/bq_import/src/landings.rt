//! The targets of those jumps that control may come to. They decide how good an order is, not whether it is right: of a slot
//! that is marked it is only known that a jump leads there.
ghost use Rattle.std.specs.Prelude.{◌≡◌, ◌<◌, ◌⊎◌, ℕ, Some, true, IfOk, OnOk};
ghost use Rattle.bq_verify.specs.Edges.{IsEdge};
ghost use Rattle.bq_verify.specs.Passes.{IsAmongTargets};
ghost use Rattle.bq_import.specs.Faults.{IsLinked};
ghost use Rattle.bq_import.specs.Lengths.{IsJump};
ghost use Rattle.bq_import.specs.Search.{AreLandings, IsQueued, is_open};

use crate::linked::find_targets;
use bq_insn::Insn;
use bq_verify::targets::{Targets, instruction};
use std::alloc::{AllocError, Global};

/// A walk over all slots that control comes to.
#[derive(Drop)]
struct Walk {
    /// For each slot, whether a jump leads to it.
    landings: Vec<bool>,
    /// For each slot, whether it was queued.
    seen: Vec<bool>,
    /// The slots that control comes to, as far as they were found.
    queue: Vec<usize>,
}

/// Marks the targets of those jumps that control may come to.
pub fn find_landings(alloc: Global, slots: &[Option<Insn>]) -> Result<Vec<bool>, AllocError>
    requires { IsLinked slots.now }
    ensures { IfOk result (λ landings. AreLandings slots.now landings.items) }
{
    let mut walk = Walk {
        landings: vec![in alloc; false; slots.len()]?,
        seen: vec![in alloc; false; slots.len()]?,
        queue: Vec::new(alloc),
    };
    walk.find(Some(0))?;
    for index in 0..slots.len() {
        if index >= walk.queue.len() {
            return Ok(walk.landings);
        }
        let targets = targets_of(slots, walk.queue[index]);
        walk.land(targets.jump);
        walk.find(targets.jump)?;
        walk.find(targets.next)?;
    }
    Ok(walk.landings)
}

impl Walk {
    /// Queues the slot, unless it was.
    fn find(&mut self, slot: Option<usize>) -> Result<(), AllocError>
        ensures landings { self.new.landings ≡ self.old.landings }
        ensures queue { OnOk result (IsQueued self.old.queue.items slot self.new.queue.items) }
    {
        let Some(slot) = slot else {
            return Ok(());
        };
        if slot >= self.seen.len() || self.seen[slot] {
            return Ok(());
        }
        self.seen[slot] = true;
        self.queue.push(slot)?;
        Ok(())
    }

    /// Marks the slot, if there is one.
    fn land(&mut self, slot: Option<usize>)
        ensures queue { self.new.queue ≡ self.old.queue }
        ensures landings { (k : ℕ) → is_open self.new.landings.items k ≡ true → (is_open self.old.landings.items k ≡ true) ⊎ (slot ≡ Some k) }
    {
        let Some(slot) = slot else {
            return;
        };
        if slot < self.landings.len() {
            self.landings[slot] = true;
        }
    }
}

/// Where control may go from the slot; nowhere if no instruction begins there.
fn targets_of(slots: &[Option<Insn>], slot: usize) -> Targets
    requires { IsLinked slots.now }
    ensures jumps { (to : ℕ) → result.jump ≡ Some to → IsJump slots.now slot to }
    ensures edges { (to : ℕ) → IsAmongTargets result to → IsEdge slots.now slot to }
{
    if slot >= slots.len() {
        return NOWHERE;
    }
    let Some(insn) = instruction(slots, slot) else {
        return NOWHERE;
    };
    find_targets(slots, slot, insn)
}

const NOWHERE: Targets = Targets {
    next: None,
    jump: None,
};
