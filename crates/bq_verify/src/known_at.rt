//! What is known when control reaches each slot, for programs that are accepted and for others.

ghost use Rattle.std.specs.Prelude.{◌≡◌, ◌≤◌, ◌<◌, ℕ, length, true, None, IfOk, slice_index_or};
ghost use Rattle.bq_insn.specs.Slots.{spread};
ghost use Rattle.bq_insn.specs.Spelling.{is_insn, is_well_formed};
ghost use Rattle.std.specs.List.{list_all};
ghost use Rattle.bq_verify.specs.Control.{CanBePassed};
ghost use Rattle.bq_verify.specs.KnownAt.{AreKnown};
ghost use Rattle.bq_verify.specs.Subjects.{subject_of_program, subject_of_view};

use crate::layout::lay_out;
use crate::pass::{pass_slot, start};
use crate::program::{Program, check_graph};
use crate::refused::Refused;
use crate::subject::SubjectView;
use crate::waiting::{arrive, nothing_waits};
use bq_insn::SLOTS;
use bq_states::abstract_state::AbstractState;
use std::alloc::{AllocError, Global};
use std::marker::Model;

/// What is known of registers and stack before each instruction of a program, up to some slot.
#[derive(Drop)]
pub struct KnownStates {
    /// For each slot, as far as the pass went.
    states: Vec<Option<AbstractState>>,
}

impl Model for KnownStates {
    ghost use Rattle.std.specs.Prelude.{List, Option};
    ghost use Rattle.bq_states.specs.declared.abstract_state.AbstractState.{AbstractState as AbstractStateValue};

    ghost Value = { List (Option AbstractStateValue) };

    ghost view = { λ known. known.states.items };
}

impl KnownStates {
    ghost use Rattle.std.specs.Option.{option_copied};

    /// What is known in every run that reaches the slot, before its instruction; `None` if nothing is known there.
    pub fn at(&self, slot: usize) -> Option<&AbstractState>
        ensures { option_copied result ≡ slice_index_or self.now slot None }
    {
        if slot >= self.states.len() {
            return None;
        }
        self.states[slot].as_ref()
    }
}

/// What is known of registers and stack in every run that reaches a slot, before its instruction, for each slot
/// up to `until`.
///
/// Nothing is known at a slot if the control graph has a fault, if the verifier stops at an earlier slot, or if no way
/// leads to the slot. So if `verify` refuses a program at a slot for an obligation, this says what is known there and
/// at each slot before it. If each instruction before a slot finds what it needs on every path (`IsStraightBefore`),
/// and nothing is known at the slot, no run reaches it.
///
/// # Example
///
/// ```
/// let program = Program {
///     insns: assemble(alloc, "mov64 r0, 1\nexit\n")?,
///     form: PolicyForm {
///         hook: Hook::Preempt,
///         version: Version::First,
///         shapes: Vec::new(alloc),
///     },
/// };
/// let known = known_states(alloc, &program, 1)?;
/// assert_eq!(rt; known.at(1).is_some(), true);
/// assert_eq!(rt; known.at(2).is_some(), false);
/// ```
pub fn known_states(
    alloc: Global,
    program: &Program,
    until: usize,
) -> Result<KnownStates, AllocError>
    requires { is_well_formed program.now.insns.items ≡ true }
    ensures { IfOk result (AreKnown (subject_of_program program.now) until) }
{
    known_in_slots(alloc, program, until)
}

/// The abstract states that `known_states` answers, for a program of 1 to 4,096 slots.
fn known_in_slots(alloc: Global, program: &Program, until: usize) -> Result<KnownStates, AllocError>
    requires registers { list_all is_insn program.now.insns.items ≡ true }
    requires some { 0 < length (spread program.now.insns.items) }
    requires short { length (spread program.now.insns.items) ≤ SLOTS }
    ensures { IfOk result (AreKnown (subject_of_program program.now) until) }
{
    let slots = lay_out(alloc, program.insns.as_slice())?;
    match check_graph(alloc, slots.as_slice()) {
        Err(Refused::OutOfMemory) => Err(AllocError),
        Err(Refused::At { .. }) => Ok(KnownStates {
            states: Vec::new(alloc),
        }),
        Ok(()) => {
            let subject = SubjectView {
                slots: slots.as_slice(),
                shapes: program.form.shapes.as_slice(),
                context: program.form.context_length(),
            };
            known_in_pass(alloc, &subject, until)
        }
    }
}

/// The abstract states that `known_states` answers, for a program whose control graph has no fault.
fn known_in_pass(
    alloc: Global,
    subject: &SubjectView,
    until: usize,
) -> Result<KnownStates, AllocError>
    requires { CanBePassed (subject_of_view subject.now) }
    ensures { IfOk result (AreKnown (subject_of_view subject.now) until) }
{
    let mut pending = nothing_waits(alloc, subject.slots.len())?;
    let states = states_in_pass(alloc, subject, until, pending.as_mut_slice())?;
    Ok(KnownStates { states })
}

/// Makes one pass, and keeps the abstract state that arrives at each slot. `pending` takes the abstract states that
/// wait; at first no slot may have one.
fn states_in_pass(
    alloc: Global,
    subject: &SubjectView,
    until: usize,
    pending: &mut [Option<Box<AbstractState>>],
) -> Result<Vec<Option<AbstractState>>, AllocError>
    requires passable { CanBePassed (subject_of_view subject.now) }
    requires room { length pending.old ≡ length subject.now.slots.now }
    requires blank { (k : ℕ) → slice_index_or pending.old k None ≡ None }
    ensures { IfOk result (λ states. AreKnown (subject_of_view subject.now) until states.items) }
{
    let count = count_until(subject.slots.len(), until);
    let mut states = Vec::with_capacity(alloc, count)?;
    let mut state = start();
    let mut live = true;
    for slot in 0..count {
        live = arrive(subject.shapes, &mut state, live, pending, slot);
        states.push(live.then_some(state))?;
        match pass_slot(alloc, subject, slot, &mut state, live, pending) {
            Ok(on) => live = on,
            Err(Refused::OutOfMemory) => return Err(AllocError),
            Err(Refused::At { .. }) => return Ok(states),
        }
    }
    Ok(states)
}

/// How many of the slots come up to and including slot `until`.
fn count_until(slots: usize, until: usize) -> usize
    ensures within { result ≤ slots }
    ensures covers { (slot : ℕ) → slot ≤ until → slot < slots → slot < result }
{
    if until < slots { until + 1 } else { slots }
}
