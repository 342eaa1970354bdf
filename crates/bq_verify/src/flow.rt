//! Where control goes from a slot, and what is known there.

ghost use Rattle.bq_insn.specs.declared.TheConstants.{REGISTERS};
ghost use Rattle.std.specs.Prelude.{◌≡◌, ◌<◌, ◌+◌, ℕ, length, IfOk, IfErr, IsOk, OnOk, Some, true};
ghost use Rattle.bq_insn.specs.declared.Insn.{Insn};
ghost use Rattle.bq_bpf.specs.Memory.{Setting, State};
ghost use Rattle.bq_bpf.specs.Steps.{instruction_at};
ghost use Rattle.bq_verify.specs.Subjects.{subject_of_view};
ghost use Rattle.bq_transfer.specs.Obligations.{MayBeUnproven, ReadsOperand, UsesWord};
ghost use Rattle.bq_verify.specs.Stops.{IsWantOfMemory, MayStop};
ghost use Rattle.bq_verify.specs.Ways.{GoesOnSure, HasOnSide, IfNumbersTested, IsAnswerCheck, IsReadyFor, IsReadyIn, KeepsFacts, BranchesChecked, BranchesTested};
ghost use Rattle.bq_states.specs.Certainty.{Fact, Has, Scalar, CertaintyHoldsAt};
ghost use Rattle.bq_states.specs.AbstractStates.{Contains};
ghost use Rattle.bq_verify.specs.Control.{AddsWaiting, CanBePassed, GoesOnWith, LeadsOnFrom, IsKnown, IsOnSide, KeepsWaiting, BranchesFrom};

use crate::graph_numbers::target;
use crate::pass_stop::PassStop;
use crate::subject::SubjectView;
use crate::waiting::wait;
use bq_bpf::MapShape;
use bq_bpf::instruction::is_counter_call;
use bq_insn::{Condition, Insn, Source, Width};
use bq_states::abstract_state::{AbstractState, AbstractValue, ValueKind};
use bq_states::learnt::learn_branch;
use bq_states::registers::{FRAME_REGISTER, known, operand};
use bq_states::relations::Relation;
use bq_transfer::counters::ask;
use bq_transfer::obligation::Obligation;
use bq_transfer::sides::{right_side, side};
use bq_transfer::transfer::transfer;
use std::alloc::{AllocError, Global};

/// The test of a branch: how the low bits of a register compare with an operand.
#[derive(Clone, Copy)]
struct Test {
    width: Width,
    cond: Condition,
    dst: u8,
    src: Source,
}

impl Test {
    /// How the operands are related on one side of the branch.
    fn relation(self, goes: bool) -> Relation
        ensures { result ≡ Relation.Compared self.width self.cond goes }
    {
        Relation::Compared {
            width: self.width,
            cond: self.cond,
            goes,
        }
    }
}

/// What is known of both operands on one side of a branch, and how they are related. The left one is `None` if control
/// never goes there.
#[derive(Clone, Copy)]
struct Learnt {
    dst: u8,
    src: Source,
    left: Option<AbstractValue>,
    right: AbstractValue,
    relation: Relation,
}

/// Visits a slot where something is known. The result says whether an abstract state is transferred on to the next slot.
pub fn visit(
    alloc: Global,
    subject: &SubjectView,
    slot: usize,
    insn: Insn,
    state: &mut AbstractState,
    pending: &mut [Option<Box<AbstractState>>],
) -> Result<bool, PassStop>
    requires here { instruction_at subject.now.slots.now slot ≡ Some insn }
    requires inside { slot < length subject.now.slots.now }
    requires passable { CanBePassed (subject_of_view subject.now) }
    requires room { length pending.old ≡ length subject.now.slots.now }
    ensures long { length pending.new ≡ length pending.old }
    ensures kept { OnOk result (KeepsWaiting subject.now.shapes.now pending.old pending.new) }
    ensures goes { IfOk result (λ live. LeadsOnFrom (subject_of_view subject.now) slot state.old (IsKnown pending.new state.new live (slot + 1))) }
    ensures obligations { IfErr result (λ stop. MayStop stop insn) }
    ensures accepts { IsReadyFor (subject_of_view subject.now) state.old insn → IfErr result IsWantOfMemory }
    ensures sure { IsReadyFor (subject_of_view subject.now) state.old insn → IfOk result (GoesOnSure subject.now.slots.now slot insn state.old pending.old pending.new state.new) }
{
    if is_counter_call(insn) {
        ask(state, insn)?;
        return Ok(true);
    }
    visit_uncounted(alloc, subject, slot, insn, state, pending)
}

/// Visits a slot as `visit` does, if its instruction calls no counter.
fn visit_uncounted(
    alloc: Global,
    subject: &SubjectView,
    slot: usize,
    insn: Insn,
    state: &mut AbstractState,
    pending: &mut [Option<Box<AbstractState>>],
) -> Result<bool, PassStop>
    requires here { instruction_at subject.now.slots.now slot ≡ Some insn }
    requires inside { slot < length subject.now.slots.now }
    requires passable { CanBePassed (subject_of_view subject.now) }
    requires room { length pending.old ≡ length subject.now.slots.now }
    ensures long { length pending.new ≡ length pending.old }
    ensures kept { OnOk result (KeepsWaiting subject.now.shapes.now pending.old pending.new) }
    ensures goes { IfOk result (λ live. LeadsOnFrom (subject_of_view subject.now) slot state.old (IsKnown pending.new state.new live (slot + 1))) }
    ensures obligations { IfErr result (λ stop. MayStop stop insn) }
    ensures accepts { IsReadyIn (subject_of_view subject.now) state.old insn → IfErr result IsWantOfMemory }
    ensures sure { IsReadyIn (subject_of_view subject.now) state.old insn → IfOk result (GoesOnSure subject.now.slots.now slot insn state.old pending.old pending.new state.new) }
{
    match insn {
        Insn::Exit => {
            visit_exit(state)?;
            Ok(false)
        }
        Insn::Goto { off } => {
            let to = target(subject.slots, slot, insn, i64::from(off));
            wait(alloc, subject.shapes, pending, to, state)?;
            Ok(false)
        }
        Insn::Goto32 { imm } => {
            let to = target(subject.slots, slot, insn, i64::from(imm));
            wait(alloc, subject.shapes, pending, to, state)?;
            Ok(false)
        }
        Insn::Branch {
            width,
            cond,
            dst,
            src,
            off,
        } => {
            let to = target(subject.slots, slot, insn, i64::from(off));
            let test = Test {
                width,
                cond,
                dst,
                src,
            };
            branch(alloc, subject.shapes, test, to, slot + 1, state, pending)
        }
        _ => {
            transfer(state, subject.shapes, subject.context, insn)?;
            let count = insn.slots();
            if count == 1 {
                return Ok(true);
            }
            wait(alloc, subject.shapes, pending, slot + count, state)?;
            Ok(false)
        }
    }
}

/// Visits an EXIT. The error is that its answer is not shown to be a number.
fn visit_exit(state: &AbstractState) -> Result<(), Obligation>
    ensures answers { OnOk result ((f : Setting) (s : State) → Contains f state.now s → (answer : ℕ) × (s.register 0 ≡ Some answer)) }
    ensures obligations { IfErr result (λ obligation. MayBeUnproven obligation Insn.Exit) }
    ensures accepts { CertaintyHoldsAt Scalar state.now 0 → IsOk result }
{
    let Some(answer) = known(state, 0) else {
        return Err(Obligation::Answer);
    };
    if answer.kind != ValueKind::Number {
        return Err(Obligation::Answer);
    }
    Ok(())
}

/// Visits a branch: the abstract state of the side where it is taken waits at its target, and the other side is
/// transferred on. The result says whether control may go to that other side.
fn branch(
    alloc: Global,
    shapes: &[MapShape],
    test: Test,
    to: usize,
    next: usize,
    state: &mut AbstractState,
    pending: &mut [Option<Box<AbstractState>>],
) -> Result<bool, PassStop>
    requires to { to < length pending.old }
    ensures long { length pending.new ≡ length pending.old }
    ensures kept { OnOk result (KeepsWaiting shapes.now pending.old pending.new) }
    ensures parts { IfOk result (λ live. BranchesFrom (IsKnown pending.new state.new live next) shapes.now state.old test.width test.cond test.dst test.src to next) }
    ensures obligations { IfErr result (λ stop. (insn : Insn) → ReadsOperand insn → UsesWord insn → MayStop stop insn) }
    ensures number_test_accepted { test.dst < 10 → IfNumbersTested state.old test.dst test.src (IfErr result IsWantOfMemory) }
    ensures null_check_accepted { (map : ℕ) → test.dst < 10 → IsAnswerCheck state.old map test.width test.cond test.dst test.src → IfErr result IsWantOfMemory }
    ensures null_check_known { IfOk result (BranchesChecked state.old test.width test.cond test.dst test.src to next pending.old pending.new state.new) }
    ensures number_test_known { IfNumbersTested state.old test.dst test.src (IfOk result (BranchesTested state.old test.dst to next pending.old pending.new state.new)) }
{
    let Some(right) = operand(state, test.src) else {
        return Err(PassStop::Unproven(Obligation::Unset));
    };
    let Some(left) = known(state, test.dst) else {
        return Err(PassStop::Unproven(Obligation::Unset));
    };
    if test.dst >= FRAME_REGISTER {
        return Err(PassStop::Unproven(Obligation::PointerUse));
    }
    let yes = side(test.width, test.cond, left, test.src, right, true)?;
    let no = side(test.width, test.cond, left, test.src, right, false)?;
    let taken = Learnt {
        dst: test.dst,
        src: test.src,
        left: yes,
        right: right_side(test.width, test.cond, left, right, true),
        relation: test.relation(true),
    };
    wait_on_side(alloc, shapes, pending, to, state, taken)?;
    let other = Learnt {
        dst: test.dst,
        src: test.src,
        left: no,
        right: right_side(test.width, test.cond, left, right, false),
        relation: test.relation(false),
    };
    Ok(keep_on_side(state, other))
}

/// If control goes to this side, the abstract state waits at its slot, with what is known of both operands there.
fn wait_on_side(
    alloc: Global,
    shapes: &[MapShape],
    pending: &mut [Option<Box<AbstractState>>],
    slot: usize,
    state: &AbstractState,
    learnt: Learnt,
) -> Result<(), AllocError>
    requires here { slot < length pending.old }
    requires dst { learnt.dst < REGISTERS }
    ensures long { length pending.new ≡ length pending.old }
    ensures kept { OnOk result (KeepsWaiting shapes.now pending.old pending.new) }
    ensures added { OnOk result (AddsWaiting shapes.now slot (λ f. IsOnSide f state.now learnt.dst learnt.src learnt.left learnt.right learnt.relation) pending.new) }
    ensures has { OnOk result (KeepsFacts (λ x. HasOnSide x state.now learnt.dst learnt.left) slot pending.old pending.new) }
{
    let Some(left) = learnt.left else {
        return Ok(());
    };
    let mut there = *state;
    learn_branch(
        &mut there,
        learnt.dst,
        learnt.src,
        left,
        learnt.right,
        learnt.relation,
    );
    wait(alloc, shapes, pending, slot, &there)
}

/// If control goes to this side, the abstract state is transferred on, with what is known of both operands there. The result says
/// whether control goes there.
fn keep_on_side(state: &mut AbstractState, learnt: Learnt) -> bool
    requires { learnt.dst < REGISTERS }
    ensures contains { GoesOnWith (λ f. IsOnSide f state.old learnt.dst learnt.src learnt.left learnt.right learnt.relation) state.new result }
    ensures has { (x : Fact) → HasOnSide x state.old learnt.dst learnt.left → result ≡ true → Has x state.new }
{
    let Some(left) = learnt.left else {
        return false;
    };
    learn_branch(
        state,
        learnt.dst,
        learnt.src,
        left,
        learnt.right,
        learnt.relation,
    );
    true
}
