//! The slots that spell an instruction.
ghost use Rattle.std.specs.Prelude.{◌≡◌, ◌∷◌, []};
ghost use Rattle.bq_insn.specs.Spelling.{slot, AreSlots, variant_of, bits_number, spelled};
ghost use Rattle.bq_insn.specs.Table.{opcode_of};

use crate::form::Form;
use crate::slot::Slot;
use crate::{Bits, Condition, Insn, Operation, Order, Source, Width};

/// The slot that spells an instruction, and the second one if it is wide.
pub fn slots_of(insn: Insn) -> (Slot, Option<Slot>)
    ensures { AreSlots result (spelled insn) }
{
    match insn {
        Insn::Alu {
            width,
            op,
            dst,
            src,
        } => operation_slots(width, op, dst, src),
        Insn::MovSx {
            width,
            bits,
            dst,
            src,
        } => extension_slots(width, bits, dst, src),
        Insn::Neg { width, dst } => one(Form::Neg { width }, dst, 0, 0, 0),
        Insn::End { kind, bits, dst } => end_slots(kind, bits, dst),
        Insn::Load {
            size,
            signed,
            dst,
            src,
            off,
        } => one(
            Form::Load { size, signed },
            dst,
            src,
            off.cast_unsigned(),
            0,
        ),
        Insn::StoreImm {
            size,
            dst,
            off,
            imm,
        } => one(
            Form::StoreImm { size },
            dst,
            0,
            off.cast_unsigned(),
            imm.cast_unsigned(),
        ),
        Insn::StoreReg {
            size,
            dst,
            off,
            src,
        } => one(Form::StoreReg { size }, dst, src, off.cast_unsigned(), 0),
        Insn::Imm64 { dst, value } => number_slots(dst, value),
        Insn::MapRef { dst, index } => two(dst, 5, index.cast_unsigned(), 0),
        Insn::Goto { off } => one(Form::Goto, 0, 0, off.cast_unsigned(), 0),
        Insn::Goto32 { imm } => one(Form::Goto32, 0, 0, 0, imm.cast_unsigned()),
        Insn::Branch {
            width,
            cond,
            dst,
            src,
            off,
        } => branch_slots(width, cond, dst, src, off),
        Insn::Call { helper } => one(Form::Call, 0, 0, 0, helper.cast_unsigned()),
        Insn::Exit => one(Form::Exit, 0, 0, 0, 0),
    }
}

/// The slot of an operation, by whether its second operand is a number or a register.
fn operation_slots(width: Width, op: Operation, dst: u8, src: Source) -> (Slot, Option<Slot>)
    ensures { AreSlots result (spelled (Insn.Alu width op dst src)) }
{
    let offset = variant_of(op);
    match src {
        Source::Imm(imm) => one(alu(width, op, false), dst, 0, offset, imm.cast_unsigned()),
        Source::Reg(register) => one(alu(width, op, true), dst, register, offset, 0),
    }
}

/// The form of an operation.
fn alu(width: Width, op: Operation, by_register: bool) -> Form
    ensures { result ≡ Form.Alu width op by_register }
{
    Form::Alu {
        width,
        op,
        by_register,
    }
}

/// The slot of a move that extends the sign. Its offset is the number of bits.
fn extension_slots(width: Width, bits: Bits, dst: u8, src: u8) -> (Slot, Option<Slot>)
    ensures { AreSlots result (spelled (Insn.MovSx width bits dst src)) }
{
    one(
        alu(width, Operation::Mov, true),
        dst,
        src,
        bits_number(bits),
        0,
    )
}

/// The slot of a byte order. Its immediate is the number of bits.
fn end_slots(order: Order, bits: Bits, dst: u8) -> (Slot, Option<Slot>)
    ensures { AreSlots result (spelled (Insn.End order bits dst)) }
{
    one(Form::End { order }, dst, 0, 0, u32::from(bits_number(bits)))
}

/// The slot of a branch, by whether its second operand is a number or a register.
fn branch_slots(
    width: Width,
    cond: Condition,
    dst: u8,
    src: Source,
    off: i16,
) -> (Slot, Option<Slot>)
    ensures { AreSlots result (spelled (Insn.Branch width cond dst src off)) }
{
    let offset = off.cast_unsigned();
    match src {
        Source::Imm(imm) => {
            let form = Form::Branch {
                width,
                cond,
                by_register: false,
            };
            one(form, dst, 0, offset, imm.cast_unsigned())
        }
        Source::Reg(register) => {
            let form = Form::Branch {
                width,
                cond,
                by_register: true,
            };
            one(form, dst, register, offset, 0)
        }
    }
}

/// The two slots of a number; the low half is in the first.
fn number_slots(dst: u8, value: u64) -> (Slot, Option<Slot>)
    ensures { AreSlots result (spelled (Insn.Imm64 dst value)) }
{
    let low = (value % 0x1_0000_0000) as u32;
    let high = (value / 0x1_0000_0000) as u32;
    two(dst, 0, low, high)
}

/// A single slot of that form, with these fields.
fn one(form: Form, dst: u8, src: u8, offset: u16, imm: u32) -> (Slot, Option<Slot>)
    ensures { AreSlots result (slot (opcode_of form) dst src offset imm ∷ []) }
{
    (slot(form.opcode(), dst, src, offset, imm), None)
}

/// The two slots of a wide instruction.
fn two(dst: u8, src: u8, low: u32, high: u32) -> (Slot, Option<Slot>)
    ensures { AreSlots result (slot 24 dst src 0 low ∷ slot 0 0 0 0 high ∷ []) }
{
    (slot(0x18, dst, src, 0, low), Some(slot(0, 0, 0, 0, high)))
}

/// A slot made of its fields.
fn slot(opcode: u8, dst: u8, src: u8, offset: u16, imm: u32) -> Slot
    ensures { result ≡ slot opcode dst src offset imm }
{
    Slot {
        opcode,
        dst,
        src,
        offset,
        imm,
    }
}

/// The offset that names a variant of an operation.
fn variant_of(op: Operation) -> u16
    ensures { result ≡ variant_of op }
{
    u16::from(matches!(op, Operation::Sdiv | Operation::Srem))
}

/// The number that a `Bits` names.
fn bits_number(bits: Bits) -> u16
    ensures { result ≡ bits_number bits }
{
    match bits {
        Bits::B8 => 8,
        Bits::B16 => 16,
        Bits::B32 => 32,
        Bits::B64 => 64,
    }
}
