//! What is known of registers and stack after an instruction, on the way to one of the slots that follow it.
ghost use Rattle.bq_bpf.specs.declared.shape.TheConstants.{MAPS};
ghost use Rattle.std.specs.Prelude.{◌<◌, ◌≤◌, ◌^◌, IsTrue, length};
ghost use Rattle.bq_transfer.specs.Ready.{IsTransferred, WritesBelowFrame};

use bq_bpf::MapShape;
use bq_bpf::instruction::{destination, is_counter_call};
use bq_insn::{Condition, Insn, Source, Width};
use bq_states::abstract_state::AbstractState;
use bq_states::learnt::learn_branch;
use bq_states::registers::{FRAME_REGISTER, known, operand};
use bq_states::relations::Relation;
use bq_transfer::counters::ask;
use bq_transfer::sides::{right_side, side};
use bq_transfer::transfer::transfer;
use bq_verify::{KnownStates, PolicyForm};

/// Finds the state on the step from one slot to another; None if no run takes the step.
pub(crate) fn known_after(
    form: &PolicyForm,
    slots: &[Option<Insn>],
    states: &KnownStates,
    from: usize,
    to: usize,
) -> Option<AbstractState> {
    if from >= slots.len() {
        return None;
    }
    let insn = slots[from]?;
    let mut state = *states.at(from)?;
    let context = form.context_length();
    let is_next = to == from.saturating_add(insn.slots());
    if follow_step(&mut state, form.shapes.as_slice(), context, insn, is_next) {
        return Some(state);
    }
    None
}

/// Changes the state before the instruction to the one after it, on the step to the next instruction or over its jump; returns
/// false if no run takes the step.
fn follow_step(
    state: &mut AbstractState,
    shapes: &[MapShape],
    context: usize,
    insn: Insn,
    is_next: bool,
) -> bool
    requires context { context < 2 ^ 16 }
    requires few { length shapes.now ≤ MAPS }
{
    match insn {
        Insn::Exit => false,
        Insn::Goto { .. } | Insn::Goto32 { .. } => true,
        Insn::Branch { .. } => match test_of(insn) {
            Some(test) => follow_side(state, test, !is_next),
            None => false,
        },
        _ => follow_next(state, shapes, context, insn),
    }
}

/// The sides of a branch that a run may take.
#[derive(Clone, Copy)]
pub(crate) struct Sides {
    /// On to the next instruction.
    pub next: bool,
    /// Over the jump.
    pub jump: bool,
}

/// Finds the sides that a run may take of the branch at the slot; both if the instruction is no branch.
pub(crate) fn sides_of(states: &KnownStates, slot: usize, insn: Insn) -> Sides {
    let Some(test) = test_of(insn) else {
        return Sides {
            next: true,
            jump: true,
        };
    };
    let Some(state) = states.at(slot) else {
        return Sides {
            next: false,
            jump: false,
        };
    };
    let mut taken = *state;
    let mut passed = *state;
    Sides {
        next: follow_side(&mut passed, test, false),
        jump: follow_side(&mut taken, test, true),
    }
}

/// The test that a branch makes.
#[derive(Clone, Copy)]
struct BranchTest {
    width: Width,
    cond: Condition,
    dst: u8,
    src: Source,
}

/// Finds the test of the instruction, if it is a branch.
fn test_of(insn: Insn) -> Option<BranchTest> {
    match insn {
        Insn::Branch {
            width,
            cond,
            dst,
            src,
            ..
        } => Some(BranchTest {
            width,
            cond,
            dst,
            src,
        }),
        _ => None,
    }
}

/// Changes the state before the test to the one after it, on that side; returns false if no run leaves the test there.
fn follow_side(state: &mut AbstractState, test: BranchTest, is_taken: bool) -> bool {
    if test.dst >= FRAME_REGISTER {
        return false;
    }
    let Some(right) = operand(state, test.src) else {
        return false;
    };
    let Some(left) = known(state, test.dst) else {
        return false;
    };
    let Ok(Some(there)) = side(test.width, test.cond, left, test.src, right, is_taken) else {
        return false;
    };
    let right = right_side(test.width, test.cond, left, right, is_taken);
    let relation = Relation::Compared {
        width: test.width,
        cond: test.cond,
        goes: is_taken,
    };
    learn_branch(state, test.dst, test.src, there, right, relation);
    true
}

/// Changes the state before an instruction that only the next one can follow to the one after it; returns false if no run goes on.
fn follow_next(state: &mut AbstractState, shapes: &[MapShape], context: usize, insn: Insn) -> bool
    requires context { context < 2 ^ 16 }
    requires few { length shapes.now ≤ MAPS }
{
    if is_counter_call(insn) {
        return ask(state, insn).is_ok();
    }
    if is_transferred(insn) && spares_frame(insn) {
        return transfer(state, shapes, context, insn).is_ok();
    }
    false
}

/// Whether the instruction is neither a jump nor an EXIT.
fn is_transferred(insn: Insn) -> bool
    ensures { IsTrue result → IsTransferred insn }
{
    match insn {
        Insn::Goto { .. } | Insn::Goto32 { .. } | Insn::Branch { .. } | Insn::Exit => false,
        Insn::Alu { .. }
        | Insn::MovSx { .. }
        | Insn::Neg { .. }
        | Insn::End { .. }
        | Insn::Load { .. }
        | Insn::StoreImm { .. }
        | Insn::StoreReg { .. }
        | Insn::Imm64 { .. }
        | Insn::MapRef { .. }
        | Insn::Call { .. } => true,
    }
}

/// Whether the instruction does not write register 10.
fn spares_frame(insn: Insn) -> bool
    ensures { IsTrue result → WritesBelowFrame insn }
{
    match destination(insn) {
        Some(register) => register < FRAME_REGISTER,
        None => true,
    }
}
