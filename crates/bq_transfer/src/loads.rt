//! Loads.

ghost use Rattle.std.specs.Prelude.{Some, Option, ◌≡◌, ◌≢◌, ◌^◌, ◌<◌, ℕ, IsOk, IfSome, OnOk, slice_index_or, IfErr, None};
ghost use Rattle.bq_insn.specs.Slots.{byte_count};
ghost use Rattle.bq_bpf.specs.Steps.{loaded};
ghost use Rattle.bq_ranges.specs.Within.{Within};
ghost use Rattle.bq_insn.specs.declared.Insn.{Insn};
ghost use Rattle.bq_states.specs.Parts.{ReadsWithin};
ghost use Rattle.bq_transfer.specs.Obligations.{MayBeUnproven};
ghost use Rattle.bq_states.specs.Certainty.{IsGiven};
ghost use Rattle.bq_transfer.specs.Ready.{IsLoadReady};
ghost use Rattle.bq_transfer.specs.Transfers.{LoadsKept, Transfers};

use crate::access::{Access, Location, locate};
use crate::obligation::Obligation;
use bq_bpf::MapShape;
use bq_bpf::addresses::STACK_SIZE;
use bq_bpf::words::bits_of;
use bq_insn::{Insn, REGISTERS, Size, Width};
use bq_ranges::{Range, moves};
use bq_states::abstract_state::{AbstractState, AbstractValue, ValueKind};
use bq_states::copies::link;
use bq_states::parts::{numbers, numbers_at};
use bq_states::places::is_readable;
use bq_states::registers::set_register;

/// The abstract state after a load. If the load reads a whole slot of the stack whose word is known, the register
/// becomes a copy of the slot.
pub fn load(
    state: &mut AbstractState,
    shapes: &[MapShape],
    context: usize,
    access: Access,
    signed: bool,
    dst: u8,
) -> Result<(), Obligation>
    requires context { context < 2 ^ 16 }
    requires below { dst < 10 }
    ensures transfers { OnOk result (Transfers shapes.now context (Insn.Load access.size signed dst access.base access.off) state.old state.new) }
    ensures obligations { IfErr result (λ obligation. MayBeUnproven obligation (Insn.Load access.size signed dst access.base access.off)) }
    ensures accepts { IsLoadReady shapes.now context state.old access.size access.base access.off → IsOk result × IsGiven state.old state.new dst }
{
    let found = locate(state, shapes, context, access)?;
    if let Some(word) = kept_at(state, found, access.size, signed) {
        set_register(state, dst, word);
        let slot = found.at.lo as usize / 8;
        link(
            &mut state.classes,
            &mut state.related,
            usize::from(dst),
            REGISTERS + slot,
        );
        return Ok(());
    }
    if !is_readable(state, found.kind, found.at, access.size) {
        return Err(Obligation::Access);
    }
    set_register(
        state,
        dst,
        AbstractValue {
            kind: ValueKind::Number,
            offset: loads(reads_at(state, found, access.size), access.size, signed),
        },
    );
    Ok(())
}

/// What is kept of the word that a load of eight bytes reads, if anything is.
fn kept_at(
    state: &AbstractState,
    place: Location,
    size: Size,
    signed: bool,
) -> Option<AbstractValue>
    ensures { IfSome result (λ word. LoadsKept state.now place size signed word) }
{
    if place.kind != ValueKind::Stack || size != Size::Double || signed {
        return None;
    }
    if !place.at.is_single() || place.at.lo % 8 != 0 || place.at.lo >= STACK_SIZE {
        return None;
    }
    kept_in(state, place.at.lo as usize / 8)
}

/// What is kept of the word in a slot of eight bytes, if anything is.
fn kept_in(state: &AbstractState, slot: usize) -> Option<AbstractValue>
    requires { slot < 64 }
    ensures { result ≡ slice_index_or state.now.kept slot None }
{
    state.kept[slot]
}

/// A range of the numbers that a read of this size gives at the place.
fn reads_at(state: &AbstractState, place: Location, size: Size) -> Range
    ensures any { (x : ℕ) → place.kind ≢ ValueKind.Stack → x < 256 ^ byte_count size → Within result x }
    ensures stack { place.kind ≡ ValueKind.Stack → ReadsWithin state.now.parts place.at (byte_count size) result }
{
    if place.kind != ValueKind::Stack {
        return numbers(size);
    }
    numbers_at(&state.parts, place.at, size)
}

/// A range of what a load makes of numbers of this range.
fn loads(numbers: Range, size: Size, signed: bool) -> Range
    ensures { (x : ℕ) → Within numbers x → Within result (loaded size signed x) }
{
    if signed {
        return moves::extend(Width::W64, bits_of(size), numbers);
    }
    numbers
}
