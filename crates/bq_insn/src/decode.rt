//! From bytes to instructions.
ghost use Rattle.std.specs.Prelude.{◌≡◌, ◌≤◌, ◌%◌, ◌*◌, length, true, IfOk, IfErr};
ghost use Rattle.bq_insn.specs.Spelling.{spelling, is_well_formed};
ghost use Rattle.bq_insn.specs.Laws.{AllFit};
ghost use Rattle.bq_insn.specs.Faults.{IsSlot, BeginsWith, FrontHasCause, HasFront, IsDecodeFault};

use crate::fault::{DecodeCause, DecodeFault};
use crate::form::Form;
use crate::judge::cause_at;
use crate::reading::insn_of;
use crate::slot::Slot;
use crate::{Insn, SLOTS};
use std::alloc::Global;

/// The instructions that the bytes spell (RFC 9669, section 3): a program of 1 to 4096 slots, with registers
/// and widths in range. If the bytes are no program, the error names the first slot at which a faulty instruction
/// begins, and its least cause. A wrong length is named before any other fault, at slot 0.
pub fn decode(alloc: Global, bytes: &[u8]) -> Result<Vec<Insn>, DecodeFault>
    ensures well_formed { IfOk result (λ insns. is_well_formed insns.items ≡ true) }
    ensures numbers { IfOk result (λ insns. AllFit insns.items) }
    ensures spelled { IfOk result (λ insns. bytes.now ≡ spelling insns.items) }
    ensures fault { IfErr result (IsDecodeFault bytes.now) }
{
    if bytes.is_empty() || bytes.len() % 8 != 0 || bytes.len() > 8 * SLOTS {
        return Err(DecodeFault::At {
            slot: 0,
            cause: DecodeCause::Length,
        });
    }
    let mut insns = Vec::new(alloc);
    let mut slot = 0;
    let mut rest = bytes;
    while !rest.is_empty() {
        let insn = match first(rest) {
            Ok(insn) => insn,
            Err(cause) => return Err(DecodeFault::At { slot, cause }),
        };
        rest = &rest[8 * insn.slots()..];
        slot += insn.slots();
        insns.push(insn)?;
    }
    Ok(insns)
}

/// The instruction at the front of the bytes, or the least cause of its fault.
fn first(bytes: &[u8]) -> Result<Insn, DecodeCause>
    requires some { 8 ≤ length bytes.now }
    requires whole { length bytes.now % 8 ≡ 0 }
    ensures ok { IfOk result (HasFront bytes.now) }
    ensures err { IfErr result (FrontHasCause bytes.now) }
{
    let (slot, next) = front(bytes);
    let Some(form) = Form::of(slot.opcode) else {
        return Err(DecodeCause::Opcode);
    };
    if let Some(cause) = cause_at(form, slot, next) {
        return Err(cause);
    }
    Ok(insn_of(form, slot, next))
}

/// The slot at the front of the bytes, and the slot after it if there is one.
fn front(bytes: &[u8]) -> (Slot, Option<Slot>)
    requires some { 8 ≤ length bytes.now }
    requires whole { length bytes.now % 8 ≡ 0 }
    ensures fits { IsSlot result.0 }
    ensures begins { BeginsWith bytes.now result.0 result.1 }
{
    let slot = Slot::read(bytes);
    let rest = &bytes[8..];
    if rest.is_empty() {
        return (slot, None);
    }
    (slot, Some(Slot::read(rest)))
}
