//! The checks of the control graph and of single instructions, one after the other.
ghost use Rattle.std.specs.Prelude.{◌≡◌, ◌<◌, ◌≤◌, ℕ, length, IsTrue, ◌↔◌, OnOk, IfErr, Some, None, slice_index_or};
ghost use Rattle.bq_bpf.specs.Steps.{instruction_at};
ghost use Rattle.bq_verify.specs.Edges.{IsWhole};
ghost use Rattle.bq_verify.specs.Paths.{IsMostCalls};
ghost use Rattle.bq_verify.specs.Faults.{HasFault, IsLateCall, IsLeast, IsFirstFault, IsFaultless, IsOnWay, IsUnreached};

use crate::graph_cause::GraphCause;
use crate::graph_numbers::{count_at, count_calls};
use crate::single::{calls_unknown, is_bad_jump, runs_out, writes_frame};
use crate::targets::instruction;
use bq_bpf::board::MOST_CALLS;
use bq_bpf::instruction::is_counter_call;
use bq_insn::{Insn, SLOTS};

/// A fault of a program: its slot and its cause.
#[derive(Clone, Copy)]
pub struct Fault {
    /// The slot at which the faulty instruction begins.
    pub slot: usize,
    /// What is wrong there.
    pub cause: GraphCause,
}

/// Whether no path leads to the instruction at the slot.
fn is_unreached(slots: &[Option<Insn>], most: &[Option<u32>], slot: usize, insn: Insn) -> bool
    requires here { instruction_at slots.now slot ≡ Some insn }
    requires inside { slot < length most.now }
    requires most { IsMostCalls slots.now slot (slice_index_or most.now slot None) }
    ensures { IsTrue result ↔ IsUnreached slots.now slot }
{
    match count_at(most, slot) {
        Some(_) => false,
        None => true,
    }
}

/// Whether the instruction at the slot calls a counter after as many calls as a run may make.
fn is_late_call(slots: &[Option<Insn>], most: &[Option<u32>], slot: usize, insn: Insn) -> bool
    requires here { instruction_at slots.now slot ≡ Some insn }
    requires inside { slot < length most.now }
    requires most { IsMostCalls slots.now slot (slice_index_or most.now slot None) }
    ensures { IsTrue result ↔ IsLateCall slots.now slot }
{
    let Some(count) = count_at(most, slot) else {
        return false;
    };
    is_counter_call(insn) && count >= MOST_CALLS as u32
}

/// Whether the slot has the fault. If the fault depends on paths, `most` must have the counter calls on the way to each
/// slot.
fn is_faulty(slots: &[Option<Insn>], most: &[Option<u32>], slot: usize, cause: GraphCause) -> bool
    requires inside { slot < length slots.now }
    requires short { length slots.now ≤ SLOTS }
    requires room { IsOnWay cause → length most.now ≡ length slots.now }
    requires most { IsOnWay cause → (k : ℕ) → IsMostCalls slots.now k (slice_index_or most.now k None) }
    ensures { IsTrue result ↔ HasFault slots.now cause slot }
{
    let Some(insn) = instruction(slots, slot) else {
        return false;
    };
    match cause {
        GraphCause::Jump => is_bad_jump(slots, slot, insn),
        GraphCause::NoExit => runs_out(slots, slot, insn),
        GraphCause::Unreached => is_unreached(slots, most, slot, insn),
        GraphCause::Frame => writes_frame(slots, slot, insn),
        GraphCause::Helper => calls_unknown(slots, slot, insn),
        GraphCause::Counters => is_late_call(slots, most, slot, insn),
    }
}

/// Checks every slot for this cause; the error names the first slot that has it.
fn check_for(slots: &[Option<Insn>], most: &[Option<u32>], cause: GraphCause) -> Result<(), Fault>
    requires short { length slots.now ≤ SLOTS }
    requires room { IsOnWay cause → length most.now ≡ length slots.now }
    requires most { IsOnWay cause → (k : ℕ) → IsMostCalls slots.now k (slice_index_or most.now k None) }
    ensures ok { OnOk result (IsLeast (HasFault slots.now cause) None) }
    ensures cause { IfErr result (λ fault. fault.cause ≡ cause) }
    ensures least { IfErr result (λ fault. IsLeast (HasFault slots.now cause) (Some fault.slot)) }
{
    for slot in 0..slots.len() {
        if is_faulty(slots, most, slot, cause) {
            return Err(Fault { slot, cause });
        }
    }
    Ok(())
}

/// Does all checks in their order: jumps, the end, unreached instructions, register 10, helpers, counter calls.
///
/// `most` has a place for each slot, and all places must be empty at first. If no check finds a fault, `most` has the
/// greatest number of counter calls before each slot. Else the error names the first check that finds a fault, and the
/// least slot with the fault.
pub fn check(slots: &[Option<Insn>], most: &mut [Option<u32>]) -> Result<(), Fault>
    requires some { 0 < length slots.now }
    requires short { length slots.now ≤ SLOTS }
    requires whole { IsWhole slots.now }
    requires room { length most.old ≡ length slots.now }
    requires blank { (k : ℕ) → slice_index_or most.old k None ≡ None }
    ensures ok { OnOk result (IsFaultless slots.now) }
    ensures counted { OnOk result ((k : ℕ) → IsMostCalls slots.now k (slice_index_or most.new k None)) }
    ensures first { IfErr result (λ fault. IsFirstFault slots.now fault.cause fault.slot) }
{
    check_for(slots, most, GraphCause::Jump)?;
    check_for(slots, most, GraphCause::NoExit)?;
    count_calls(slots, most);
    check_for(slots, most, GraphCause::Unreached)?;
    check_for(slots, most, GraphCause::Frame)?;
    check_for(slots, most, GraphCause::Helper)?;
    check_for(slots, most, GraphCause::Counters)
}
