//! One pass over the slots, by rising number.

ghost use Rattle.std.specs.Prelude.{◌≡◌, ◌<◌, ◌+◌, ℕ, List, length, IfOk, IfErr, OnOk, None, false, true, slice_index, slice_index_or};
ghost use Rattle.bq_bpf.specs.Memory.{Setting, State, HaveShapes};
ghost use Rattle.bq_bpf.specs.Safe.{Safe};
ghost use Rattle.bq_bpf.specs.Runs.{start as beginning};
ghost use Rattle.bq_verify.specs.Subjects.{subject_of_view};
ghost use Rattle.bq_verify.specs.Refusals.{IsOutOfMemory, IsStopped, StopsNowhere};
ghost use Rattle.bq_states.specs.Certainty.{Pointer, Has, IsPlainAt, CertaintyHoldsAt};
ghost use Rattle.bq_verify.specs.Straight.{IsStraightProgram};
ghost use Rattle.bq_verify.specs.Sure.{IsSure, WhereSure};
ghost use Rattle.bq_states.specs.AbstractStates.{Contains};
ghost use Rattle.bq_verify.specs.Control.{AllIsSafe, AreHeights, BoundsCalls, CanBePassed, IsKnown, PassesOn};

use crate::flow::visit;
use crate::refused::{Refused, refuse};
use crate::subject::SubjectView;
use crate::targets::instruction;
use crate::waiting::{arrive, nothing_waits};
use bq_bpf::addresses::STACK_SIZE;
use bq_ranges::Range;
use bq_states::abstract_state::{AbstractState, AbstractValue, StackPart, ValueKind};
use bq_states::registers::{CONTEXT_REGISTER, FRAME_REGISTER, set_register};
use bq_states::relations::Related;
use std::alloc::Global;

/// Makes the pass. `Ok`: each obligation is proved, so the program is safe within as many steps as the height of its first
/// slot. `Err`: where the pass stopped, or that memory ran out.
///
/// The control graph of `subject` must have no fault. `heights` must fall along each edge and be at least 1 at each instruction
/// (`AreHeights`), as the lengths of the longest paths do.
pub fn judge(alloc: Global, subject: &SubjectView, heights: &[u32]) -> Result<(), Refused>
    requires passable { CanBePassed (subject_of_view subject.now) }
    requires heights { AreHeights subject.now.slots.now heights.now }
    requires made { (made : ℕ → ℕ) × BoundsCalls subject.now.slots.now made }
    ensures safe { OnOk result (Safe subject.now.slots.now subject.now.shapes.now subject.now.context (slice_index heights.now 0)) }
    ensures passed { OnOk result (StopsNowhere (subject_of_view subject.now)) }
    ensures stopped { IfErr result (IsStopped (subject_of_view subject.now)) }
    ensures accepts { IsStraightProgram (subject_of_view subject.now) → IfErr result IsOutOfMemory }
{
    let mut pending = nothing_waits(alloc, subject.slots.len())?;
    let mut state = start();
    pass(alloc, subject, heights, &mut state, pending.as_mut_slice())?;
    Ok(())
}

/// Makes the pass over all slots. The error says where it stopped, or that memory ran out.
fn pass(
    alloc: Global,
    subject: &SubjectView,
    heights: &[u32],
    state: &mut AbstractState,
    pending: &mut [Option<Box<AbstractState>>],
) -> Result<(), Refused>
    requires passable { CanBePassed (subject_of_view subject.now) }
    requires heights { AreHeights subject.now.slots.now heights.now }
    requires room { length pending.old ≡ length subject.now.slots.now }
    ensures safe { OnOk result (AllIsSafe (subject_of_view subject.now) heights.now (IsKnown pending.old state.old true 0)) }
    ensures stopped { IfErr result (IsStopped (subject_of_view subject.now)) }
    ensures accepts { IsStraightProgram (subject_of_view subject.now) → IsSure subject.now.slots.now pending.old state.old true 0 → IfErr result IsOutOfMemory }
{
    let mut live = true;
    for slot in 0..subject.slots.len() {
        live = pass_slot(alloc, subject, slot, state, live, pending)?;
    }
    Ok(())
}

/// Does one slot. The result says whether an abstract state is transferred on to the next slot.
pub(crate) fn pass_slot(
    alloc: Global,
    subject: &SubjectView,
    slot: usize,
    state: &mut AbstractState,
    live: bool,
    pending: &mut [Option<Box<AbstractState>>],
) -> Result<bool, Refused>
    requires passable { CanBePassed (subject_of_view subject.now) }
    requires here { slot < length subject.now.slots.now }
    requires room { length pending.old ≡ length subject.now.slots.now }
    ensures long { length pending.new ≡ length pending.old }
    ensures passes { IfOk result (λ on. PassesOn (subject_of_view subject.now) slot (IsKnown pending.old state.old live slot) (IsKnown pending.new state.new on (slot + 1))) }
    ensures stopped { IfErr result (IsStopped (subject_of_view subject.now)) }
    ensures accepts { WhereSure (subject_of_view subject.now) slot pending.old state.old live (IfErr result IsOutOfMemory) }
    ensures sure { WhereSure (subject_of_view subject.now) slot pending.old state.old live (IfOk result (λ on. IsSure subject.now.slots.now pending.new state.new on (slot + 1))) }
{
    if !arrive(subject.shapes, state, live, pending, slot) {
        return Ok(false);
    }
    let Some(insn) = instruction(subject.slots, slot) else {
        return Ok(false);
    };
    match visit(alloc, subject, slot, insn, state, pending) {
        Ok(on) => Ok(on),
        Err(stop) => Err(refuse(subject, slot, stop)),
    }
}

/// What is known at the start of a run.
pub(crate) fn start() -> AbstractState
    ensures contains { (f : Setting) (maps : List (List ℕ)) → HaveShapes f.shapes maps → Contains f result (beginning maps) }
    ensures context { CertaintyHoldsAt (Pointer ValueKind.Context 0) result 1 }
    ensures frame { CertaintyHoldsAt (Pointer ValueKind.Stack STACK_SIZE) result 10 }
    ensures plain { (j : ℕ) → Has (IsPlainAt j) result }
{
    let mut state = blank();
    set_register(
        &mut state,
        CONTEXT_REGISTER,
        AbstractValue {
            kind: ValueKind::Context,
            offset: Range::single(0),
        },
    );
    set_register(
        &mut state,
        FRAME_REGISTER,
        AbstractValue {
            kind: ValueKind::Stack,
            offset: Range::single(STACK_SIZE),
        },
    );
    state
}

/// The abstract state in which nothing is known of registers and stack.
fn blank() -> AbstractState
    ensures contains { (f : Setting) (s : State) → HaveShapes f.shapes s.maps → Contains f result s }
    ensures plain { (j : ℕ) → Has (IsPlainAt j) result }
{
    AbstractState {
        registers: nothing(),
        set: unset(),
        kept: nothing(),
        parts: no_parts(),
        classes: no_copies(),
        related: no_relations(),
    }
}

fn nothing<const N: usize>() -> [Option<AbstractValue>; N]
    ensures { (k : ℕ) → slice_index_or result k None ≡ None }
{
    [None; N]
}

fn no_parts<const N: usize>() -> [Option<StackPart>; N]
    ensures { (k : ℕ) → slice_index_or result k None ≡ None }
{
    [None; N]
}

fn no_copies<const N: usize>() -> [u8; N]
    ensures { (k : ℕ) → slice_index result k ≡ 0 }
{
    [0; N]
}

fn no_relations<const N: usize>() -> [Option<Related>; N]
    ensures { (k : ℕ) → slice_index_or result k None ≡ None }
{
    [None; N]
}

fn unset<const N: usize>() -> [bool; N]
    ensures { (k : ℕ) → slice_index_or result k false ≡ false }
{
    [false; N]
}
