//! Map references and calls of helpers.

ghost use Rattle.std.specs.Prelude.{◌≡◌, ◌<◌, ◌≤◌, ◌^◌, ◌-◌, ℕ, pos, IfSome, IsOk, OnOk, Some, length, IfErr, IsTrue, None, slice_index_or};
ghost use Rattle.bq_bpf.specs.Memory.{Setting, State, reference};
ghost use Rattle.bq_bpf.specs.Steps.{called};
ghost use Rattle.bq_ranges.specs.Within.{Within};
ghost use Rattle.bq_transfer.specs.Obligations.{MayBeUnproven};
ghost use Rattle.bq_transfer.specs.After.{CarriesFacts};
ghost use Rattle.bq_states.specs.Certainty.{IsAnswered, IsCalled, IsMade, Pointer, Scalar, CertaintyHoldsAt};
ghost use Rattle.bq_transfer.specs.Ready.{IsAtMost, IsReady, IsUpdating, IsNamingEntry};
ghost use Rattle.bq_transfer.specs.Transfers.{IsBelow, Transfers, TransfersEverywhere};
ghost use Rattle.bq_states.specs.AbstractStates.{AreAlike, Contains};

use crate::obligation::Obligation;
use bq_bpf::MapShape;
use bq_bpf::helper::{LOOKUP, NOW, PROCESSOR, UPDATE};
use bq_bpf::shape::MAPS;
use bq_insn::{Insn, Size, Width};
use bq_ranges::Range;
use bq_states::abstract_state::{AbstractState, AbstractValue, ValueKind};
use bq_states::copies::forget_first_classes;
use bq_states::places::{reads, reads_value, shape_of};
use bq_states::registers::{clear, known, set_register};

/// The abstract state after a map reference.
pub fn map_ref(
    state: &mut AbstractState,
    shapes: &[MapShape],
    dst: u8,
    index: i32,
) -> Result<(), Obligation>
    requires few { length shapes.now ≤ MAPS }
    requires below { dst < 10 }
    ensures transfers { OnOk result ((context_length : ℕ) → Transfers shapes.now context_length (Insn.MapRef dst index) state.old state.new) }
    ensures obligations { IfErr result (λ obligation. MayBeUnproven obligation (Insn.MapRef dst index)) }
    ensures accepts { (m : ℕ) → index ≡ pos m → m < length shapes.now → IsOk result × IsMade (Pointer (ValueKind.Map m) 0) state.old state.new dst }
{
    let Some(map) = map_number(shapes, index) else {
        return Err(Obligation::Argument);
    };
    set_register(
        state,
        dst,
        AbstractValue {
            kind: ValueKind::Map(map),
            offset: Range::single(0),
        },
    );
    Ok(())
}

/// The number of the map with this index; `None` if there is no such map.
fn map_number(shapes: &[MapShape], index: i32) -> Option<u8>
    requires { length shapes.now ≤ MAPS }
    ensures index { IfSome result (λ m. index ≡ pos m) }
    ensures there { IfSome result (λ m. m < length shapes.now) }
    ensures found { (m : ℕ) → index ≡ pos m → m < length shapes.now → result ≡ Some m }
{
    if index < 0 || index >= MAPS as i32 {
        return None;
    }
    let map = index as u8;
    if usize::from(map) < shapes.len() {
        Some(map)
    } else {
        None
    }
}

/// The map that register 1 names; `None` if it names none.
fn map_of(state: &AbstractState) -> Option<u8>
    ensures found { (m : ℕ) → CertaintyHoldsAt (Pointer (ValueKind.Map m) 0) state.now 1 → result ≡ Some m }
    ensures names { IfSome result (λ m. (f : Setting) (s : State) → Contains f state.now s → (n : ℕ) × (s.register 1 ≡ Some (reference n)) × AreAlike f.shapes m n) }
{
    let Some(word) = known(state, 1) else {
        return None;
    };
    if word.offset.hi > 0 {
        return None;
    }
    match word.kind {
        ValueKind::Map(map) => Some(map),
        _ => None,
    }
}

/// The abstract state after a call of a helper that asks no counter: a look-up, an update, the time, or the number of
/// the processor.
pub fn call(
    state: &mut AbstractState,
    shapes: &[MapShape],
    context: usize,
    helper: i32,
) -> Result<(), Obligation>
    requires { context < 2 ^ 16 }
    ensures transfers { OnOk result (Transfers shapes.now context (Insn.Call helper) state.old state.new) }
    ensures obligations { IfErr result (λ obligation. MayBeUnproven obligation (Insn.Call helper)) }
    ensures accepts { IsReady shapes.now context state.old (Insn.Call helper) → IsOk result × CarriesFacts (Insn.Call helper) state.old state.new }
{
    if helper == LOOKUP {
        return look_up(state, shapes, context);
    }
    if helper == UPDATE {
        return update(state, shapes, context);
    }
    if helper == NOW {
        now(state);
        return Ok(());
    }
    if helper == PROCESSOR {
        processor(state);
        return Ok(());
    }
    Err(Obligation::Argument)
}

/// Changes the abstract state to the one after a look-up. The error is that it is not shown that register 1 is the reference of a
/// map and that register 2 points to the number of an entry.
fn look_up(state: &mut AbstractState, shapes: &[MapShape], context: usize) -> Result<(), Obligation>
    requires context { context < 2 ^ 16 }
    ensures transfers { OnOk result (Transfers shapes.now context (Insn.Call LOOKUP) state.old state.new) }
    ensures obligations { IfErr result (λ obligation. MayBeUnproven obligation (Insn.Call LOOKUP)) }
    ensures accepts { (m : ℕ) → IsNamingEntry state.old m → IsOk result × IsCalled (Pointer (ValueKind.EntryOrNull m) 0) state.old state.new }
{
    let Some(map) = map_of(state) else {
        return Err(Obligation::Argument);
    };
    if !reads(state, shapes, context, 2, Size::Word) {
        return Err(Obligation::Argument);
    }
    clear(&mut state.registers);
    forget_first_classes(&mut state.classes);
    set_register(
        state,
        0,
        AbstractValue {
            kind: ValueKind::EntryOrNull(map),
            offset: Range::single(0),
        },
    );
    Ok(())
}

/// Changes the abstract state to the one after an update. The error is that it is not shown that registers 1 and 2 are as for a
/// look-up, that register 3 points to a value, and that register 4 is 0.
fn update(state: &mut AbstractState, shapes: &[MapShape], context: usize) -> Result<(), Obligation>
    requires context { context < 2 ^ 16 }
    ensures transfers { OnOk result (Transfers shapes.now context (Insn.Call UPDATE) state.old state.new) }
    ensures obligations { IfErr result (λ obligation. MayBeUnproven obligation (Insn.Call UPDATE)) }
    ensures accepts { (m : ℕ) → IsUpdating shapes.now state.old m → IsOk result × IsAnswered state.old state.new }
{
    let Some(map) = map_of(state) else {
        return Err(Obligation::Argument);
    };
    if !reads(state, shapes, context, 2, Size::Word) {
        return Err(Obligation::Argument);
    }
    let Some(shape) = shape_of(shapes, map) else {
        return Err(Obligation::Argument);
    };
    if !reads_value(state, shapes, context, 3, usize::from(shape.value_size)) {
        return Err(Obligation::Argument);
    }
    if !is_at_most(state, 4, 0) {
        return Err(Obligation::Argument);
    }
    answer(state, Range::full(Width::W64));
    Ok(())
}

/// Whether a register is a number of at most `most`.
pub fn is_at_most(state: &AbstractState, register: u8, most: u64) -> bool
    ensures below { IsTrue result → (bound : ℕ) → most < bound → IsBelow state.now register bound }
    ensures found { IsAtMost most (slice_index_or state.now.registers register None) → IsTrue result }
    ensures any { most ≡ 2 ^ 64 - 1 → CertaintyHoldsAt Scalar state.now register → IsTrue result }
{
    let Some(word) = known(state, register) else {
        return false;
    };
    if word.kind != ValueKind::Number {
        return false;
    }
    word.offset.hi <= most
}

/// The abstract state after a call: registers 1 to 5 are unset, and register 0 is a number of this range.
pub fn answer(state: &mut AbstractState, offset: Range)
    ensures contains { (f : Setting) (s : State) (x : ℕ) → Contains f state.old s → Within offset x → Contains f state.new (called s x) }
    ensures answered { IsAnswered state.old state.new }
{
    clear(&mut state.registers);
    forget_first_classes(&mut state.classes);
    set_register(
        state,
        0,
        AbstractValue {
            kind: ValueKind::Number,
            offset,
        },
    );
}

/// The abstract state after a call for the time.
fn now(state: &mut AbstractState)
    ensures transfers { TransfersEverywhere (Insn.Call NOW) state.old state.new }
    ensures answered { IsAnswered state.old state.new }
{
    answer(state, Range::full(Width::W64));
}

/// The abstract state after a call for the number of the processor.
fn processor(state: &mut AbstractState)
    ensures transfers { TransfersEverywhere (Insn.Call PROCESSOR) state.old state.new }
    ensures answered { IsAnswered state.old state.new }
{
    answer(state, Range::full(Width::W32));
}
