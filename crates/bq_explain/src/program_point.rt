//! Points of a policy's program: its instructions, and their places.
ghost use Rattle.std.specs.Prelude.{◌≡◌, IfNone, IfOk, IfSome, Some, slice_get, string_bytes};
ghost use Rattle.bq_insn.specs.Slots.{spread};
ghost use Rattle.bq_insn.specs.declared.Insn.{Insn as InsnValue};
ghost use Rattle.bq_bpf.specs.Steps.{instruction_at};
ghost use Rattle.bq_verify.specs.Edges.{IsStart};
ghost use Rattle.bq_explain.specs.Explained.{IsPlaceOfSlot};
ghost use Rattle.bq_explain.specs.TrailTexts.{EndsWith, place_line, place_text};

use bq_insn::Insn;
use bq_policy_file::{PolicySource, instruction_text};
use std::alloc::{AllocError, Global};

/// A point of a program: an instruction, and its place.
#[derive(Clone, Copy)]
pub struct ProgramPoint {
    /// Its line, if the policy came as a text.
    pub line: Option<usize>,
    pub slot: usize,
    pub insn: Insn,
}

/// Finds the place of the instruction that begins at the slot; None if no instruction begins there.
pub(crate) fn place_at(
    policy: &PolicySource,
    slots: &[Option<Insn>],
    slot: usize,
) -> Option<ProgramPoint>
    ensures place { IfSome result (IsPlaceOfSlot slots.now slot) }
    ensures none { IfNone result (¬ IsStart slots.now slot) }
{
    if slot >= slots.len() {
        return None;
    }
    let Some(insn) = slots[slot] else {
        return None;
    };
    let line = line_at(policy, slot);
    Some(ProgramPoint { line, slot, insn })
}

/// Finds the line of the text that has the instruction at the slot; None if the policy came as no text.
pub(crate) fn line_at(policy: &PolicySource, slot: usize) -> Option<usize> {
    let index = index_at(policy.insns.as_slice(), slot)?;
    policy.lines.as_slice().get(index).copied()
}

/// Finds the first call of the helper.
pub(crate) fn call_of(policy: &PolicySource, helper: i32) -> Option<ProgramPoint> {
    let mut slot: usize = 0;
    for insn in policy.insns.as_slice() {
        if calls(*insn, helper) {
            let line = line_at(policy, slot);
            return Some(ProgramPoint {
                line,
                slot,
                insn: *insn,
            });
        }
        slot = slot.saturating_add(insn.slots());
    }
    None
}

/// Whether the instruction calls the helper.
fn calls(insn: Insn, helper: i32) -> bool {
    match insn {
        Insn::Call { helper: called } => called == helper,
        _ => false,
    }
}

/// Says the line of the text that has the instruction, if there is a text, and the instruction's slot.
pub(crate) fn place_text(alloc: Global, place: &ProgramPoint) -> Result<String, AllocError>
    ensures { IfOk result (λ text. string_bytes text ≡ place_text place.now) }
{
    let slot = place.slot;
    match place.line {
        Some(line) => format!(in alloc; "line {line}, slot {slot}"),
        None => format!(in alloc; "slot {slot}"),
    }
}

/// Writes the place of an instruction, and the instruction as a listing has it, after the file's name if there is one.
pub(crate) fn instruction_line(
    alloc: Global,
    name: Option<&str>,
    place: &ProgramPoint,
) -> Result<String, AllocError>
    ensures { IfOk result (λ text. EndsWith (place_line place.now) (string_bytes text)) }
{
    let at = place_text(alloc, place)?;
    let insn = instruction_text(alloc, place.insn)?;
    match name {
        Some(name) => format!(in alloc; "{name} {at}:  {insn}"),
        None => format!(in alloc; "{at}:  {insn}"),
    }
}

/// Finds the index of the instruction that begins at the slot; None if no instruction begins there.
pub fn index_at(insns: &[Insn], slot: usize) -> Option<usize>
    ensures { IfSome result (λ index. (insn : InsnValue) → slice_get insns.now index ≡ Some insn → instruction_at (spread insns.now) slot ≡ Some insn) }
{
    let mut at: usize = 0;
    for (index, insn) in insns.iter().enumerate() {
        if at == slot {
            return Some(index);
        }
        at = at.checked_add(insn.slots())?;
    }
    None
}
