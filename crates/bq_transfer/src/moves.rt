//! Moves that change a number on the way, and moves of immediates.

ghost use Rattle.bq_insn.specs.declared.TheConstants.{REGISTERS};
ghost use Rattle.std.specs.Prelude.{◌↔◌, ◌≡◌, ◌<◌, IsOk, OnOk, IfOk, IfErr, length};
ghost use Rattle.bq_states.specs.Certainty.{IsGiven, Scalar, CertaintyHoldsAt};
ghost use Rattle.bq_insn.specs.declared.Insn.{Insn};
ghost use Rattle.bq_transfer.specs.Obligations.{IsNoNumberAt, IsUnknownAt, MayBeUnproven, ReadsOperand, UsesWord};
ghost use Rattle.bq_states.specs.declared.abstract_state.ValueKind.TheVariants.{Number};
ghost use Rattle.bq_transfer.specs.Transfers.{HoldsNumber, TransfersEverywhere};
ghost use Rattle.bq_states.specs.AbstractStates.{knowing};

use crate::obligation::Obligation;
use bq_insn::{Bits, Order, Width};
use bq_ranges::{Range, moves};
use bq_states::abstract_state::{AbstractState, AbstractValue, ValueKind};
use bq_states::registers::{known, set_register};

/// The range of a register that is a number. The error is `Unset` if nothing is known of the register, and `PointerUse`
/// if it is a pointer.
pub fn number(state: &AbstractState, register: u8) -> Result<Range, Obligation>
    ensures holds { IfOk result (HoldsNumber state.now register) }
    ensures obligations { IfErr result (λ obligation. (insn : Insn) → ReadsOperand insn → UsesWord insn → MayBeUnproven obligation insn) }
    ensures unset { IfErr result (λ obligation. obligation ≡ Obligation.Unset ↔ IsUnknownAt state.now register) }
    ensures pointer { IfErr result (λ obligation. obligation ≡ Obligation.PointerUse ↔ IsNoNumberAt state.now register) }
    ensures accepts { CertaintyHoldsAt Scalar state.now register → IsOk result }
{
    let Some(word) = known(state, register) else {
        return Err(Obligation::Unset);
    };
    if word.kind != ValueKind::Number {
        return Err(Obligation::PointerUse);
    }
    Ok(word.offset)
}

/// Learns that a register is a number of this range now.
fn learn_number(state: &mut AbstractState, register: u8, offset: Range)
    requires { register < 10 }
    ensures is { state.new ≡ knowing state.old register (record { kind = Number; offset = offset }) }
    ensures given { IsGiven state.old state.new register }
    ensures long { length state.old.registers ≡ REGISTERS }
{
    set_register(
        state,
        register,
        AbstractValue {
            kind: ValueKind::Number,
            offset,
        },
    );
}

/// The abstract state after a move that extends the sign.
pub fn extend(
    state: &mut AbstractState,
    width: Width,
    bits: Bits,
    dst: u8,
    src: u8,
) -> Result<(), Obligation>
    requires { dst < 10 }
    ensures transfers { OnOk result (TransfersEverywhere (Insn.MovSx width bits dst src) state.old state.new) }
    ensures obligations { IfErr result (λ obligation. MayBeUnproven obligation (Insn.MovSx width bits dst src)) }
    ensures accepts { CertaintyHoldsAt Scalar state.old src → IsOk result × IsGiven state.old state.new dst }
{
    let word = number(state, src)?;
    learn_number(state, dst, moves::extend(width, bits, word));
    Ok(())
}

/// The abstract state after a negation.
pub fn negate(state: &mut AbstractState, width: Width, dst: u8) -> Result<(), Obligation>
    requires { dst < 10 }
    ensures transfers { OnOk result (TransfersEverywhere (Insn.Neg width dst) state.old state.new) }
    ensures obligations { IfErr result (λ obligation. MayBeUnproven obligation (Insn.Neg width dst)) }
    ensures accepts { CertaintyHoldsAt Scalar state.old dst → IsOk result × IsGiven state.old state.new dst }
{
    let word = number(state, dst)?;
    learn_number(state, dst, moves::neg(width, word));
    Ok(())
}

/// The abstract state after a byte order.
pub fn reorder(
    state: &mut AbstractState,
    kind: Order,
    bits: Bits,
    dst: u8,
) -> Result<(), Obligation>
    requires { dst < 10 }
    ensures transfers { OnOk result (TransfersEverywhere (Insn.End kind bits dst) state.old state.new) }
    ensures obligations { IfErr result (λ obligation. MayBeUnproven obligation (Insn.End kind bits dst)) }
    ensures accepts { CertaintyHoldsAt Scalar state.old dst → IsOk result × IsGiven state.old state.new dst }
{
    let word = number(state, dst)?;
    learn_number(state, dst, moves::reorder(kind, bits, word));
    Ok(())
}

/// The abstract state after a 64-bit immediate.
pub fn immediate(state: &mut AbstractState, dst: u8, value: u64)
    requires { dst < 10 }
    ensures transfers { TransfersEverywhere (Insn.Imm64 dst value) state.old state.new }
    ensures given { IsGiven state.old state.new dst }
{
    learn_number(state, dst, Range::single(value));
}
