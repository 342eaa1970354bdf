//! Stores, and what is known after them.

ghost use Rattle.std.specs.Prelude.{◌≡◌, ◌<◌, ◌^◌, None, length, IsOk, OnOk, IfOk, IfSome, IfErr};
ghost use Rattle.bq_insn.specs.declared.Insn.{Insn};
ghost use Rattle.bq_bpf.specs.Meaning.{word_of};
ghost use Rattle.bq_states.specs.declared.abstract_state.TheConstants.{PLACES, STACK_SLOTS};
ghost use Rattle.bq_transfer.specs.Obligations.{IsAccess, MayBeUnproven, MayBeUnprovenStoring, ReadsOperand};
ghost use Rattle.bq_transfer.specs.Ready.{IfInEntry, IfOnStack};
ghost use Rattle.bq_states.specs.Certainty.{Scalar, CertaintyHoldsAt};
ghost use Rattle.bq_transfer.specs.Transfers.{IfNumberInside, IsStored, IsWholeSlot, LinksSlot, Stores, Transfers, WritesStack};
ghost use Rattle.bq_states.specs.declared.abstract_state.ValueKind.TheVariants.{Number};

use crate::access::{Access, locate};
use crate::obligation::Obligation;
use bq_bpf::MapShape;
use bq_bpf::addresses::STACK_SIZE;
use bq_insn::{Insn, REGISTERS, Size};
use bq_ranges::Range;
use bq_states::abstract_state::{AbstractState, AbstractValue, ValueKind};
use bq_states::copies::link;
use bq_states::parts::store_part;
use bq_states::places::stays;
use bq_states::registers::known;
use bq_states::relations::Related;
use bq_states::stack::{keep, overwrite};

/// The abstract state after a store of an immediate.
pub fn store_imm(
    state: &mut AbstractState,
    shapes: &[MapShape],
    context: usize,
    access: Access,
    imm: i32,
) -> Result<(), Obligation>
    requires context { context < 2 ^ 16 }
    ensures transfers { OnOk result (Transfers shapes.now context (Insn.StoreImm access.size access.base access.off imm) state.old state.new) }
    ensures obligations { IfErr result (λ obligation. MayBeUnproven obligation (Insn.StoreImm access.size access.base access.off imm)) }
    ensures accepts { IfOnStack shapes.now context state.old access (λ at. IsOk result × IsStored state.old state.new access.size at) }
    ensures entry { IfInEntry shapes.now context state.old access (IsOk result × (state.new ≡ state.old)) }
{
    let word = AbstractValue {
        kind: ValueKind::Number,
        offset: Range::single(word_of_imm(imm)),
    };
    store(state, shapes, context, access, word)?;
    Ok(())
}

/// The 64-bit word of an immediate.
fn word_of_imm(imm: i32) -> u64
    ensures { result ≡ word_of imm }
{
    i64::from(imm).cast_unsigned()
}

/// The abstract state after a store of a register. A slot of the stack that got the whole word becomes a copy of the
/// register.
pub fn store_reg(
    state: &mut AbstractState,
    shapes: &[MapShape],
    context: usize,
    access: Access,
    src: u8,
) -> Result<(), Obligation>
    requires context { context < 2 ^ 16 }
    ensures transfers { OnOk result (Transfers shapes.now context (Insn.StoreReg access.size access.base access.off src) state.old state.new) }
    ensures obligations { IfErr result (λ obligation. MayBeUnproven obligation (Insn.StoreReg access.size access.base access.off src)) }
    ensures accepts { CertaintyHoldsAt Scalar state.old src → IfOnStack shapes.now context state.old access (λ at. IsOk result × IsStored state.old state.new access.size at) }
    ensures entry { CertaintyHoldsAt Scalar state.old src → IfInEntry shapes.now context state.old access (IsOk result × (state.new ≡ state.old)) }
{
    let Some(word) = known(state, src) else {
        return Err(Obligation::Unset);
    };
    let slot = store(state, shapes, context, access, word)?;
    link_slot(&mut state.classes, &mut state.related, slot, src);
    Ok(())
}

/// Makes the slot of the stack, if there is one, a copy of the register.
fn link_slot(classes: &mut [u8], related: &mut [Option<Related>], slot: Option<usize>, register: u8)
    requires room { length classes.old ≡ PLACES }
    requires inside { IfSome slot (λ n. n < STACK_SLOTS) }
    ensures copies { LinksSlot classes.old related.old classes.new related.new slot register }
    ensures none { slot ≡ None → classes.new ≡ classes.old }
    ensures unrelated { slot ≡ None → related.new ≡ related.old }
{
    let Some(slot) = slot else {
        return;
    };
    if register >= REGISTERS as u8 {
        return;
    }
    link(classes, related, REGISTERS + slot, usize::from(register));
}

/// A store of a word to the stack or into an entry. The result is the slot of eight bytes that keeps the whole word, if one
/// does.
fn store(
    state: &mut AbstractState,
    shapes: &[MapShape],
    context: usize,
    access: Access,
    word: AbstractValue,
) -> Result<Option<usize>, Obligation>
    requires context { context < 2 ^ 16 }
    ensures stores { IfOk result (Stores shapes.now context access.base access.off access.size word state.old state.new) }
    ensures inside { IfOk result (λ slot. IfSome slot (λ n. n < STACK_SLOTS)) }
    ensures obligations { IfErr result (λ obligation. (insn : Insn) → IsAccess insn → ReadsOperand insn → MayBeUnprovenStoring word obligation insn) }
    ensures accepts { word.kind ≡ Number → IfOnStack shapes.now context state.old access (λ at. IsOk result × IsStored state.old state.new access.size at) }
    ensures entry { word.kind ≡ Number → IfInEntry shapes.now context state.old access (IsOk result × (state.new ≡ state.old) × IfOk result (λ n. n ≡ None)) }
{
    let found = locate(state, shapes, context, access)?;
    match found.kind {
        ValueKind::Stack => store_on_stack(state, found.at, access.size, word),
        ValueKind::Entry(_) => {
            if word.kind != ValueKind::Number {
                return Err(Obligation::PointerUse);
            }
            Ok(None)
        }
        _ => Err(Obligation::Access),
    }
}

/// A store to the stack. A word of eight bytes at a multiple of eight is kept whole, and its slot is answered. Of any
/// other number the stored bytes are kept.
fn store_on_stack(
    state: &mut AbstractState,
    at: Range,
    size: Size,
    word: AbstractValue,
) -> Result<Option<usize>, Obligation>
    ensures slot { IfOk result (λ slot. IfSome slot (IsWholeSlot at size)) }
    ensures contains { OnOk result (WritesStack state.old state.new at size word) }
    ensures obligations { IfErr result (λ obligation. (insn : Insn) → IsAccess insn → MayBeUnprovenStoring word obligation insn) }
    ensures accepts { IfNumberInside word at size (λ place. IsOk result × IsStored state.old state.new size place) }
{
    if !stays(at, size, STACK_SIZE as usize) {
        return Err(Obligation::Access);
    }
    if size == Size::Double && at.is_single() && at.lo % 8 == 0 {
        overwrite(state, at, size);
        let slot = at.lo as usize / 8;
        keep(state, slot, word);
        return Ok(Some(slot));
    }
    if word.kind != ValueKind::Number {
        return Err(Obligation::PointerUse);
    }
    overwrite(state, at, size);
    store_part(&mut state.parts, at, size, word.offset);
    Ok(None)
}
