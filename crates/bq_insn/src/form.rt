//! What an opcode says about an instruction.
ghost use Rattle.std.specs.Prelude.{◌≡◌, option_map};
ghost use Rattle.bq_insn.specs.Table.{operation_of, condition_of, size_of_code, form_of, alu_form_of, jump_form_of, load_form_of, end_form_of};

use crate::{Condition, Operation, Order, Size, Width};

/// What an opcode says: the kind of instruction, and the parts of it that no field holds (RFC 9669, sections 3.3 to 5).
/// The signed division and remainder have no opcode of their own, so no opcode has a form with `Sdiv` or `Srem`.
#[derive(Clone, Copy)]
pub enum Form {
    /// An operation on a register, or on the immediate.
    Alu {
        width: Width,
        op: Operation,
        by_register: bool,
    },
    /// A negation.
    Neg {
        width: Width,
    },
    /// A byte order.
    End {
        order: Order,
    },
    /// A load.
    Load {
        size: Size,
        signed: bool,
    },
    /// A store of the immediate.
    StoreImm {
        size: Size,
    },
    /// A store of a register.
    StoreReg {
        size: Size,
    },
    /// A 64-bit immediate or a map reference, in two slots.
    Wide,
    /// A jump by the offset.
    Goto,
    /// A jump by the immediate.
    Goto32,
    /// A branch that compares a register with another register or with the immediate.
    Branch {
        width: Width,
        cond: Condition,
        by_register: bool,
    },
    /// A call of a helper.
    Call,
    /// The end of the program.
    Exit,
}

impl Form {
    /// The form of an opcode; `None` if the opcode is not in the table.
    pub fn of(opcode: u8) -> Option<Form>
        ensures { result ≡ form_of opcode }
    {
        let size = size_of(opcode / 8 % 4);
        let by_register = opcode / 8 % 2 == 1;
        match opcode % 8 {
            0 => {
                if opcode == 0x18 {
                    return Some(Form::Wide);
                }
                None
            }
            1 => load_form_of(size, opcode / 32),
            2 => {
                if opcode / 32 == 3 {
                    return Some(Form::StoreImm { size });
                }
                None
            }
            3 => {
                if opcode / 32 == 3 {
                    return Some(Form::StoreReg { size });
                }
                None
            }
            4 => alu_form_of(Width::W32, opcode / 16, by_register),
            5 => jump_form_of(Width::W64, opcode / 16, by_register),
            6 => jump_form_of(Width::W32, opcode / 16, by_register),
            _ => alu_form_of(Width::W64, opcode / 16, by_register),
        }
    }
}

/// Arithmetic and byte orders, by class, code and source bit.
fn alu_form_of(width: Width, code: u8, by_register: bool) -> Option<Form>
    ensures { result ≡ alu_form_of width code by_register }
{
    if code == 13 {
        return end_form_of(width, by_register);
    }
    if code == 8 {
        if by_register {
            return None;
        }
        return Some(Form::Neg { width });
    }
    let op = operation_of(code)?;
    Some(Form::Alu {
        width,
        op,
        by_register,
    })
}

/// Byte orders, by class and source bit.
fn end_form_of(width: Width, by_register: bool) -> Option<Form>
    ensures { result ≡ end_form_of width by_register }
{
    match (width, by_register) {
        (Width::W32, false) => Some(Form::End {
            order: Order::Little,
        }),
        (Width::W32, true) => Some(Form::End { order: Order::Big }),
        (Width::W64, false) => Some(Form::End {
            order: Order::Swapped,
        }),
        (Width::W64, true) => None,
    }
}

/// The operation of a code of arithmetic; `None` if no operation has the code.
fn operation_of(code: u8) -> Option<Operation>
    ensures { result ≡ operation_of code }
{
    match code {
        0 => Some(Operation::Add),
        1 => Some(Operation::Sub),
        2 => Some(Operation::Mul),
        3 => Some(Operation::Div),
        4 => Some(Operation::Or),
        5 => Some(Operation::And),
        6 => Some(Operation::Lsh),
        7 => Some(Operation::Rsh),
        9 => Some(Operation::Rem),
        10 => Some(Operation::Xor),
        11 => Some(Operation::Mov),
        12 => Some(Operation::Arsh),
        _ => None,
    }
}

/// Jumps, calls and the exit, by class, code and source bit.
fn jump_form_of(width: Width, code: u8, by_register: bool) -> Option<Form>
    ensures { result ≡ jump_form_of width code by_register }
{
    let alone = match (width, code) {
        (Width::W64, 0) => Form::Goto,
        (Width::W64, 8) => Form::Call,
        (Width::W64, 9) => Form::Exit,
        (Width::W32, 0) => Form::Goto32,
        _ => return branch_form_of(width, code, by_register),
    };
    if by_register { None } else { Some(alone) }
}

/// Branches, by class, code and source bit.
fn branch_form_of(width: Width, code: u8, by_register: bool) -> Option<Form>
    ensures { result ≡ option_map (λ c. Form.Branch width c by_register) (condition_of code) }
{
    let cond = condition_of(code)?;
    Some(Form::Branch {
        width,
        cond,
        by_register,
    })
}

/// The condition of a code of branches; `None` if no condition has the code.
fn condition_of(code: u8) -> Option<Condition>
    ensures { result ≡ condition_of code }
{
    match code {
        1 => Some(Condition::Equal),
        2 => Some(Condition::Greater),
        3 => Some(Condition::GreaterEqual),
        4 => Some(Condition::AnyBit),
        5 => Some(Condition::NotEqual),
        6 => Some(Condition::SignedGreater),
        7 => Some(Condition::SignedGreaterEqual),
        10 => Some(Condition::Less),
        11 => Some(Condition::LessEqual),
        12 => Some(Condition::SignedLess),
        13 => Some(Condition::SignedLessEqual),
        _ => None,
    }
}

/// Loads, by size and mode. No load extends the sign of eight bytes.
fn load_form_of(size: Size, mode: u8) -> Option<Form>
    ensures { result ≡ load_form_of size mode }
{
    if mode == 3 {
        return Some(Form::Load {
            size,
            signed: false,
        });
    }
    if mode == 4 {
        return match size {
            Size::Double => None,
            _ => Some(Form::Load { size, signed: true }),
        };
    }
    None
}

/// The size of a code.
fn size_of(code: u8) -> Size
    ensures { result ≡ size_of_code code }
{
    match code {
        0 => Size::Word,
        1 => Size::Half,
        2 => Size::Byte,
        _ => Size::Double,
    }
}
