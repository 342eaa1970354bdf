//! Registers of an abstract state.

ghost use Rattle.std.specs.Prelude.{◌≡◌, ◌<◌, ℕ, ℤ, None, IfSome, length, slice_index_or};
ghost use Rattle.bq_bpf.specs.Meaning.{word_of};
ghost use Rattle.bq_states.specs.Certainty.{IsScalarOperand, IsWord, Scalar, CertaintyHolds};
ghost use Rattle.bq_states.specs.AbstractStates.{Clears, FindsOperand, knowing};

use crate::abstract_state::{AbstractState, AbstractValue, ValueKind};
use bq_insn::{REGISTERS, Source};
use bq_ranges::Range;

/// The register that holds the address of the context when a run starts.
pub const CONTEXT_REGISTER: u8 = 1;

/// The register that holds the address of the stack's end. No instruction may write it.
pub const FRAME_REGISTER: u8 = 10;

/// What is known of an operand, if it is set.
pub fn operand(state: &AbstractState, src: Source) -> Option<AbstractValue>
    ensures finds { IfSome result (FindsOperand state.now src) }
    ensures scalar { IsScalarOperand state.now src → CertaintyHolds Scalar result }
    ensures immediate { (i : ℤ) → src ≡ Source.Imm i → IsWord (word_of i) result }
    ensures register { (r : ℕ) → src ≡ Source.Reg r → result ≡ slice_index_or state.now.registers r None }
{
    match src {
        Source::Imm(imm) => {
            let word = i64::from(imm).cast_unsigned();
            Some(AbstractValue {
                kind: ValueKind::Number,
                offset: Range::single(word),
            })
        }
        Source::Reg(register) => known(state, register),
    }
}

/// What is known of a register, if it is set.
pub fn known(state: &AbstractState, register: u8) -> Option<AbstractValue>
    ensures { result ≡ slice_index_or state.now.registers register None }
{
    if register < REGISTERS as u8 {
        state.registers[usize::from(register)]
    } else {
        None
    }
}

/// Writes what is known of a register.
pub fn set_register(state: &mut AbstractState, register: u8, word: AbstractValue)
    requires { register < REGISTERS }
    ensures is { state.new ≡ knowing state.old register word }
    ensures long { length state.old.registers ≡ REGISTERS }
{
    state.registers[usize::from(register)] = Some(word);
    state.classes[usize::from(register)] = 0;
}

/// Forgets registers 1 to 5, as after a call.
pub fn clear(registers: &mut [Option<AbstractValue>])
    requires { length registers.old ≡ REGISTERS }
    ensures { Clears registers.old registers.new }
{
    for register in 1..6 {
        registers[register] = None;
    }
}
