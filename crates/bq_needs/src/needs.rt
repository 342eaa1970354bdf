//! What an instruction needs and the abstract state before it does not give, for causes of what is known of the states.
ghost use Rattle.std.specs.Prelude.{◌≡◌, ◌↔◌, ◌<◌, ℕ, false, true, IfSome, IsTrue, MatchOption, slice_index_or};
ghost use Rattle.bq_states.specs.Certainty.{Scalar, CertaintyHoldsAt};
ghost use Rattle.bq_needs.specs.Arguments.{GivesHelper};
ghost use Rattle.bq_needs.specs.Needs.{AreGoodArguments, AreReadsKnown, AreNumbers, AreUnknown, IsFirstPointer, IsGoodAccess, IsHelperNeed, IsMapNumber, IsMet, IsNeed, IsPointerNeed, IsPointerWorkedOn, IsUnknownNeed, Lacking, WorksOnNumber, is_unknown};
ghost use Rattle.bq_needs.specs.Operands.{known_in};

use crate::accesses::{Lack, lack_of};
use crate::arguments::{Argument, bad_argument};
use crate::memory_access::{MemoryAccess, Registers, access_of, reads, works_on};
use bq_insn::{Insn, REGISTERS};
use bq_policy_file::PolicySource;
use bq_states::abstract_state::{AbstractState, AbstractValue, ValueKind};
use bq_states::registers::known;
use bq_transfer::obligation::Obligation;
use bq_verify::Cause;

/// A need of an instruction that the abstract state before it does not meet.
#[derive(Clone, Copy)]
pub enum Need {
    /// It reads these registers, of which nothing is known.
    Unknown(Registers),
    /// It accesses memory by a register of which nothing is known.
    Address(MemoryAccess),
    /// It accesses memory by a pointer of which that is known, and this is why the access is not shown to be good.
    Access {
        access: MemoryAccess,
        pointer: AbstractValue,
        lack: Lack,
    },
    /// It works on a register that is known to be no number.
    Number(Pointer),
    /// It names a map that does not exist.
    Map(i32),
    /// It calls a helper, and this argument is not shown to be what the helper wants.
    Argument {
        helper: i32,
        argument: Argument,
    },
    /// It ends, and the answer, of which that is known, is not shown to be a number.
    Answer(Option<AbstractValue>),
    /// The abstract state gives what the cause says: the verifier wants more than is said here.
    Unshown,
}

/// A register and what is known of it.
#[derive(Clone, Copy)]
pub struct Pointer {
    pub register: u8,
    pub known: AbstractValue,
}

/// Finds the need that the abstract state does not meet, by the cause.
pub fn need_of(policy: &PolicySource, state: &AbstractState, insn: Insn, cause: Cause) -> Need
    ensures { IsNeed policy.now state.now insn cause result }
{
    match lacking(policy, state, insn, cause) {
        Some(need) => need,
        None => Need::Unshown,
    }
}

/// Finds the need that the abstract state does not meet, by the cause; None if it gives what the cause says.
fn lacking(policy: &PolicySource, state: &AbstractState, insn: Insn, cause: Cause) -> Option<Need>
    ensures { MatchOption result (IsMet policy.now state.now insn cause) (Lacking policy.now state.now insn cause) }
{
    match cause {
        Cause::State(Obligation::Unset) => unknown_need(state, insn),
        Cause::State(Obligation::Access) => access_need(policy, state, insn),
        Cause::State(Obligation::PointerUse) => pointer_need(state, insn),
        Cause::State(Obligation::Argument) => argument_need(policy, state, insn),
        Cause::State(Obligation::Answer) => answer_need(state),
        Cause::Graph(_) => None,
    }
}

/// Finds the registers that the instruction reads and of which nothing is known; None if there are none.
fn unknown_need(state: &AbstractState, insn: Insn) -> Option<Need>
    ensures { MatchOption result (AreReadsKnown state.now insn) (λ need. IsUnknownNeed state.now insn need × ¬ (AreReadsKnown state.now insn)) }
{
    let registers = unknown_registers(state, insn);
    if has_one(&registers) {
        Some(Need::Unknown(registers))
    } else {
        None
    }
}

/// Lists the registers that the instruction reads and of which nothing is known.
fn unknown_registers(state: &AbstractState, insn: Insn) -> Registers
    ensures { AreUnknown state.now insn result }
{
    let mut registers = [false; REGISTERS];
    for register in 0..REGISTERS as u8 {
        registers[usize::from(register)] = is_unknown(state, insn, register);
    }
    registers
}

/// Whether the instruction reads the register, and nothing is known of it.
fn is_unknown(state: &AbstractState, insn: Insn, register: u8) -> bool
    ensures { result ≡ is_unknown state.now insn register }
{
    reads(insn, register) && known(state, register).is_none()
}

/// Whether a register is marked.
fn has_one(registers: &Registers) -> bool
    ensures { IsTrue result ↔ ((r : ℕ) × (r < REGISTERS) × (slice_index_or registers.now r false ≡ true)) }
{
    for register in registers {
        if *register {
            return true;
        }
    }
    false
}

/// Finds the access of a load or a store, and why it is not shown to be good; None if it is, or if there is no access.
fn access_need(policy: &PolicySource, state: &AbstractState, insn: Insn) -> Option<Need>
    ensures { MatchOption result (IsGoodAccess policy.now state.now insn) (Lacking policy.now state.now insn (Cause.State Obligation.Access)) }
{
    let Some(access) = access_of(insn) else {
        return None;
    };
    let Some(pointer) = known(state, access.register) else {
        return Some(Need::Address(access));
    };
    let Some(lack) = lack_of(policy, state, access, pointer) else {
        return None;
    };
    Some(Need::Access {
        access,
        pointer,
        lack,
    })
}

/// Finds a pointer that the instruction works on; None if it works on none.
fn pointer_need(state: &AbstractState, insn: Insn) -> Option<Need>
    ensures { MatchOption result (AreNumbers state.now insn) (λ need. IsPointerNeed state.now insn need × ¬ (AreNumbers state.now insn)) }
{
    let Some(pointer) = pointer_worked_on(state, insn) else {
        return None;
    };
    Some(Need::Number(pointer))
}

/// Finds the first of the registers that the instruction works on which is known to be no number.
fn pointer_worked_on(state: &AbstractState, insn: Insn) -> Option<Pointer>
    ensures { MatchOption result (AreNumbers state.now insn) (λ pointer. IsFirstPointer state.now insn pointer.register pointer.known) }
{
    for register in 0..REGISTERS as u8 {
        if let Some(pointer) = as_pointer(state, insn, register) {
            return Some(pointer);
        }
    }
    None
}

/// Returns the register and what is known of it, if the instruction works on it and it is known to be no number.
fn as_pointer(state: &AbstractState, insn: Insn, register: u8) -> Option<Pointer>
    requires { register < REGISTERS }
    ensures register { IfSome result (λ pointer. pointer.register ≡ register) }
    ensures pointer { MatchOption result (WorksOnNumber state.now insn register) (λ pointer. IsPointerWorkedOn state.now insn pointer.register pointer.known) }
{
    if !works_on(insn, register) {
        return None;
    }
    let Some(known) = known(state, register) else {
        return None;
    };
    if is_number(known.kind) {
        None
    } else {
        Some(Pointer { register, known })
    }
}

/// Whether words of the kind are numbers.
fn is_number(kind: ValueKind) -> bool
    ensures { IsTrue result ↔ (kind ≡ ValueKind.Number) }
{
    matches!(kind, ValueKind::Number)
}

/// Finds the map that does not exist, or the argument of a helper that is not shown to be what it wants.
fn argument_need(policy: &PolicySource, state: &AbstractState, insn: Insn) -> Option<Need>
    ensures { MatchOption result (AreGoodArguments policy.now state.now insn) (Lacking policy.now state.now insn (Cause.State Obligation.Argument)) }
{
    match insn {
        Insn::MapRef { index, .. } => map_need(policy, index),
        Insn::Call { helper } => call_need(policy, state, helper),
        _ => None,
    }
}

/// Returns the number as a need, if it is no map's.
fn map_need(policy: &PolicySource, index: i32) -> Option<Need>
    ensures { MatchOption result (IsMapNumber policy.now index) (λ need. (need ≡ Need.Map index) × ¬ (IsMapNumber policy.now index)) }
{
    if is_map(policy, index) {
        None
    } else {
        Some(Need::Map(index))
    }
}

/// Whether there is a map of that number.
fn is_map(policy: &PolicySource, index: i32) -> bool
    ensures { IsTrue result ↔ IsMapNumber policy.now index }
{
    index >= 0 && (index as usize) < policy.form.shapes.len()
}

/// Finds the argument of the helper that is not shown to be what it wants; None if there is none.
fn call_need(policy: &PolicySource, state: &AbstractState, helper: i32) -> Option<Need>
    ensures { MatchOption result (GivesHelper policy.now state.now helper) (IsHelperNeed policy.now state.now helper) }
{
    let Some(argument) = bad_argument(policy, state, helper) else {
        return None;
    };
    Some(Need::Argument { helper, argument })
}

/// Finds the need that the answer is a number; None if it is shown to be one.
fn answer_need(state: &AbstractState) -> Option<Need>
    ensures { MatchOption result (CertaintyHoldsAt Scalar state.now 0) (λ need. (need ≡ Need.Answer (known_in state.now 0)) × ¬ (CertaintyHoldsAt Scalar state.now 0)) }
{
    let answer = known(state, 0);
    match answer {
        Some(word) if is_number(word.kind) => None,
        _ => Some(Need::Answer(answer)),
    }
}
