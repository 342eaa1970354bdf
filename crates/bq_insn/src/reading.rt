//! The instruction that slots without a fault spell.
ghost use Rattle.std.specs.Prelude.{◌≡◌, None};
ghost use Rattle.bq_insn.specs.Reading.{bits_of, variant, second_imm, register_move, alu_of, insn_of};

use crate::form::Form;
use crate::slot::Slot;
use crate::{Bits, Condition, Insn, Operation, Order, Size, Source, Width};

/// The instruction of this form that the slots spell, if they have no fault.
pub fn insn_of(form: Form, slot: Slot, next: Option<Slot>) -> Insn
    ensures { result ≡ insn_of form slot next }
{
    match form {
        Form::Alu {
            width,
            op,
            by_register,
        } => alu_of(width, op, by_register, slot),
        Form::Neg { width } => Insn::Neg {
            width,
            dst: slot.dst,
        },
        Form::End { order } => end_of(order, slot),
        Form::Load { size, signed } => load_of(size, signed, slot),
        Form::StoreImm { size } => store_imm_of(size, slot),
        Form::StoreReg { size } => store_reg_of(size, slot),
        Form::Wide => wide_of(slot, next),
        Form::Goto => Insn::Goto {
            off: slot.signed_offset(),
        },
        Form::Goto32 => Insn::Goto32 {
            imm: slot.signed_imm(),
        },
        Form::Branch {
            width,
            cond,
            by_register,
        } => branch_of(width, cond, by_register, slot),
        Form::Call => Insn::Call {
            helper: slot.signed_imm(),
        },
        Form::Exit => Insn::Exit,
    }
}

/// An operation on an immediate or a register, in the variant that its offset names.
fn alu_of(width: Width, op: Operation, by_register: bool, slot: Slot) -> Insn
    ensures { result ≡ alu_of width op by_register slot }
{
    let dst = slot.dst;
    if !by_register {
        return Insn::Alu {
            width,
            op: variant(op, slot.offset),
            dst,
            src: Source::Imm(slot.signed_imm()),
        };
    }
    match op {
        Operation::Mov => move_of(width, slot),
        _ => Insn::Alu {
            width,
            op: variant(op, slot.offset),
            dst,
            src: Source::Reg(slot.src),
        },
    }
}

/// The operation that the opcode and the offset name together: offset 1 makes a division or a remainder signed (RFC
/// 9669, section 4.1).
fn variant(op: Operation, offset: u16) -> Operation
    ensures { result ≡ variant op offset }
{
    match (op, offset) {
        (Operation::Div, 1) => Operation::Sdiv,
        (Operation::Rem, 1) => Operation::Srem,
        _ => op,
    }
}

/// A move from a register. If the offset is not 0, the move extends the sign from that many bits.
fn move_of(width: Width, slot: Slot) -> Insn
    ensures { result ≡ register_move width slot }
{
    if slot.offset == 0 {
        return Insn::Alu {
            width,
            op: Operation::Mov,
            dst: slot.dst,
            src: Source::Reg(slot.src),
        };
    }
    Insn::MovSx {
        width,
        bits: bits_of(u32::from(slot.offset)),
        dst: slot.dst,
        src: slot.src,
    }
}

/// The name of a number of bits.
fn bits_of(number: u32) -> Bits
    ensures { result ≡ bits_of number }
{
    match number {
        8 => Bits::B8,
        16 => Bits::B16,
        32 => Bits::B32,
        _ => Bits::B64,
    }
}

/// A byte order, on as many bits as its immediate says (RFC 9669, section 4.2).
fn end_of(order: Order, slot: Slot) -> Insn
    ensures { result ≡ insn_of (Form.End order) slot None }
{
    Insn::End {
        kind: order,
        bits: bits_of(slot.imm),
        dst: slot.dst,
    }
}

/// A load from the address that the source register and the offset give (RFC 9669, section 5).
fn load_of(size: Size, signed: bool, slot: Slot) -> Insn
    ensures { result ≡ insn_of (Form.Load size signed) slot None }
{
    Insn::Load {
        size,
        signed,
        dst: slot.dst,
        src: slot.src,
        off: slot.signed_offset(),
    }
}

/// A store of the immediate (RFC 9669, section 5.1).
fn store_imm_of(size: Size, slot: Slot) -> Insn
    ensures { result ≡ insn_of (Form.StoreImm size) slot None }
{
    Insn::StoreImm {
        size,
        dst: slot.dst,
        off: slot.signed_offset(),
        imm: slot.signed_imm(),
    }
}

/// A store of the source register (RFC 9669, section 5.1).
fn store_reg_of(size: Size, slot: Slot) -> Insn
    ensures { result ≡ insn_of (Form.StoreReg size) slot None }
{
    Insn::StoreReg {
        size,
        dst: slot.dst,
        off: slot.signed_offset(),
        src: slot.src,
    }
}

/// A branch that compares with the immediate or with the source register (RFC 9669, section 4.3).
fn branch_of(width: Width, cond: Condition, by_register: bool, slot: Slot) -> Insn
    ensures { result ≡ insn_of (Form.Branch width cond by_register) slot None }
{
    Insn::Branch {
        width,
        cond,
        dst: slot.dst,
        src: if by_register {
            Source::Reg(slot.src)
        } else {
            Source::Imm(slot.signed_imm())
        },
        off: slot.signed_offset(),
    }
}

/// A wide instruction, by the kind that its source field names (RFC 9669, section 5.4).
fn wide_of(slot: Slot, next: Option<Slot>) -> Insn
    ensures { result ≡ insn_of Form.Wide slot next }
{
    if slot.src == 5 {
        return Insn::MapRef {
            dst: slot.dst,
            index: slot.signed_imm(),
        };
    }
    Insn::Imm64 {
        dst: slot.dst,
        value: u64::from(slot.imm) + (u64::from(second_imm(next)) << 32),
    }
}

/// The immediate of the second slot, or 0 if there is no second slot.
fn second_imm(next: Option<Slot>) -> u32
    ensures { result ≡ second_imm next }
{
    match next {
        None => 0,
        Some(second) => second.imm,
    }
}
