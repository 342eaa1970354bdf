//! Where control goes from each slot of a program, backwards too.
ghost use Rattle.std.specs.Prelude.{◌≡◌, ◌<◌, ◌≤◌, ◌+◌, ℕ, ℤ, length, OnOk, IfErr, IfSome, IfNone, Some, None};
ghost use Rattle.bq_bpf.specs.Steps.{LeadsTo, instruction_at};
ghost use Rattle.bq_bpf.specs.Instructions.{distance_of};
ghost use Rattle.bq_verify.specs.Edges.{IsStart, IsWhole};
ghost use Rattle.bq_import.specs.Backward.{AreGood};
ghost use Rattle.bq_import.specs.Faults.{HasGaps, IsDisorder, IsLinked, IsWrongAt, LeadsWell, WellAt};
ghost use Rattle.bq_import.specs.Search.{AreTargets};

use crate::fault::Disorder;
use bq_bpf::instruction::{distance, may_go_on};
use bq_insn::{Insn, SLOTS};
use bq_verify::graph_numbers::next_slot;
use bq_verify::targets::{Targets, instruction};

/// The slot to which the jump leads, if an instruction begins there.
fn landing(slots: &[Option<Insn>], slot: usize, distance: i64) -> Option<usize>
    requires here { slot < length slots.now }
    requires short { length slots.now ≤ SLOTS }
    ensures some { IfSome result (λ to. LeadsTo slot distance to × IsStart slots.now to) }
    ensures none { IfNone result ((to : ℕ) → LeadsTo slot distance to → ¬ IsStart slots.now to) }
{
    if distance < -(SLOTS as i64) || distance >= SLOTS as i64 {
        return None;
    }
    let to = slot as i64 + 1 + distance;
    if to < 0 || to >= slots.len() as i64 {
        return None;
    }
    instruction(slots, to as usize)?;
    Some(to as usize)
}

/// Checks that control goes on only to instructions.
fn leads_well(slots: &[Option<Insn>], slot: usize, insn: Insn) -> Result<(), Disorder>
    requires here { instruction_at slots.now slot ≡ Some insn }
    requires inside { slot < length slots.now }
    requires short { length slots.now ≤ SLOTS }
    requires whole { IsWhole slots.now }
    ensures ok { OnOk result (LeadsWell slots.now slot insn) }
    ensures err { IfErr result (IsWrongAt slots.now slot) }
{
    if may_go_on(insn) && slot + insn.slots() >= slots.len() {
        return Err(Disorder::Ends { slot });
    }
    if let Some(distance) = distance(insn) {
        if landing(slots, slot, distance).is_none() {
            return Err(Disorder::Outside { slot });
        }
    }
    Ok(())
}

/// Checks that control goes on only to instructions from the slot, if an instruction begins there.
fn slot_leads_well(slots: &[Option<Insn>], slot: usize) -> Result<(), Disorder>
    requires inside { slot < length slots.now }
    requires short { length slots.now ≤ SLOTS }
    requires whole { IsWhole slots.now }
    ensures ok { OnOk result (WellAt slots.now slot) }
    ensures err { IfErr result (IsWrongAt slots.now slot) }
{
    let Some(insn) = instruction(slots, slot) else {
        return Ok(());
    };
    leads_well(slots, slot, insn)?;
    Ok(())
}

/// Checks that control goes from each slot only to instructions.
pub fn check(slots: &[Option<Insn>]) -> Result<(), Disorder>
    requires short { length slots.now ≤ SLOTS }
    requires whole { IsWhole slots.now }
    requires good { AreGood slots.now }
    requires gaps { HasGaps slots.now }
    ensures ok { OnOk result (IsLinked slots.now) }
    ensures err { IfErr result (IsDisorder slots.now) }
{
    for slot in 0..slots.len() {
        slot_leads_well(slots, slot)?;
    }
    Ok(())
}

/// The slot that the instruction jumps to, if it is a jump.
fn jump_slot(slots: &[Option<Insn>], slot: usize, insn: Insn) -> Option<usize>
    requires here { instruction_at slots.now slot ≡ Some insn }
    requires inside { slot < length slots.now }
    requires linked { IsLinked slots.now }
    ensures some { IfSome result (λ to. (far : ℤ) × (distance_of insn ≡ Some far) × LeadsTo slot far to) }
    ensures none { IfNone result (distance_of insn ≡ None) }
{
    let Some(distance) = distance(insn) else {
        return None;
    };
    let Some(to) = landing(slots, slot, distance) else {
        unreachable!()
    };
    Some(to)
}

/// Where control may go from a slot.
pub fn find_targets(slots: &[Option<Insn>], slot: usize, insn: Insn) -> Targets
    requires here { instruction_at slots.now slot ≡ Some insn }
    requires inside { slot < length slots.now }
    requires linked { IsLinked slots.now }
    ensures { AreTargets slots.now slot insn result }
{
    Targets {
        next: next_slot(slot, insn),
        jump: jump_slot(slots, slot, insn),
    }
}
