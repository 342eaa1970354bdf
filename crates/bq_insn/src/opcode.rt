//! The opcode of a form.
ghost use Rattle.std.specs.Prelude.{◌≡◌, ◌≤◌};
ghost use Rattle.bq_insn.specs.Table.{alu_class, jump_class, code_of, condition_code, size_code, source_bit, opcode_of};

use crate::form::Form;
use crate::{Condition, Operation, Order, Size, Width};

impl Form {
    /// The opcode of the form.
    pub fn opcode(self) -> u8
        ensures { result ≡ opcode_of self }
    {
        match self {
            Form::Alu {
                width,
                op,
                by_register,
            } => alu_class(width) + source_bit(by_register) + 16 * code_of(op),
            Form::Neg { width } => alu_class(width) + 0x80,
            Form::End { order } => match order {
                Order::Little => 0xd4,
                Order::Big => 0xdc,
                Order::Swapped => 0xd7,
            },
            Form::Load { size, signed } => {
                1 + 8 * size_code(size) + if signed { 0x80 } else { 0x60 }
            }
            Form::StoreImm { size } => 2 + 8 * size_code(size) + 0x60,
            Form::StoreReg { size } => 3 + 8 * size_code(size) + 0x60,
            Form::Wide => 0x18,
            Form::Goto => 0x05,
            Form::Goto32 => 0x06,
            Form::Branch {
                width,
                cond,
                by_register,
            } => jump_class(width) + source_bit(by_register) + 16 * condition_code(cond),
            Form::Call => 0x85,
            Form::Exit => 0x95,
        }
    }
}

/// The class of arithmetic of that width (RFC 9669, section 3.3).
fn alu_class(width: Width) -> u8
    ensures { result ≡ alu_class width }
{
    match width {
        Width::W32 => 4,
        Width::W64 => 7,
    }
}

/// The class of jumps of that width (RFC 9669, section 3.3).
fn jump_class(width: Width) -> u8
    ensures { result ≡ jump_class width }
{
    match width {
        Width::W64 => 5,
        Width::W32 => 6,
    }
}

/// The bit that says whether the second operand is a register (RFC 9669, section 4).
fn source_bit(by_register: bool) -> u8
    ensures { result ≡ source_bit by_register }
{
    if by_register { 8 } else { 0 }
}

/// The code of an operation (RFC 9669, section 4.1); the signed division and remainder share the codes of the unsigned
/// ones.
fn code_of(op: Operation) -> u8
    ensures code { result ≡ code_of op }
    ensures small { result ≤ 13 }
{
    match op {
        Operation::Add => 0,
        Operation::Sub => 1,
        Operation::Mul => 2,
        Operation::Div | Operation::Sdiv => 3,
        Operation::Or => 4,
        Operation::And => 5,
        Operation::Lsh => 6,
        Operation::Rsh => 7,
        Operation::Rem | Operation::Srem => 9,
        Operation::Xor => 10,
        Operation::Mov => 11,
        Operation::Arsh => 12,
    }
}

/// The code of a condition (RFC 9669, section 4.3).
fn condition_code(cond: Condition) -> u8
    ensures code { result ≡ condition_code cond }
    ensures small { result ≤ 13 }
{
    match cond {
        Condition::Equal => 1,
        Condition::Greater => 2,
        Condition::GreaterEqual => 3,
        Condition::AnyBit => 4,
        Condition::NotEqual => 5,
        Condition::SignedGreater => 6,
        Condition::SignedGreaterEqual => 7,
        Condition::Less => 10,
        Condition::LessEqual => 11,
        Condition::SignedLess => 12,
        Condition::SignedLessEqual => 13,
    }
}

/// The code of a size (RFC 9669, section 5).
fn size_code(size: Size) -> u8
    ensures { result ≡ size_code size }
{
    match size {
        Size::Word => 0,
        Size::Half => 1,
        Size::Byte => 2,
        Size::Double => 3,
    }
}
