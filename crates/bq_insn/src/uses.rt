//! What the fields of each form are for.
ghost use Rattle.std.specs.Prelude.{◌≡◌};
ghost use Rattle.bq_insn.specs.Uses.{row, uses_of, src_use, imm_use, variant_use};

use crate::Operation;
use crate::form::Form;
use Use::{Register, Unused, Value};

/// What a field of a slot is for.
#[derive(Clone, Copy)]
pub enum Use {
    /// Nothing: it must be zero.
    Unused,
    /// It names a register.
    Register,
    /// It is a number, or it names a variant or a kind.
    Value,
}

/// What the fields of a form are for. An unused field must be zero (RFC 9669, section 3.1).
#[derive(Clone, Copy)]
pub struct Uses {
    /// The destination register's field.
    pub dst: Use,
    /// The source register's field.
    pub src: Use,
    /// The offset.
    pub offset: Use,
    /// The immediate.
    pub imm: Use,
}

impl Form {
    /// What the fields of this form are for.
    pub fn uses(self) -> Uses
        ensures { result ≡ uses_of self }
    {
        match self {
            Form::Alu {
                op,
                by_register,
                ..
            } => row(
                Register,
                src_use(by_register),
                variant_use(op),
                imm_use(by_register),
            ),
            Form::Neg { .. } => row(Register, Unused, Unused, Unused),
            Form::End { .. } => row(Register, Unused, Unused, Value),
            Form::Load { .. } => row(Register, Register, Value, Unused),
            Form::StoreImm { .. } => row(Register, Unused, Value, Value),
            Form::StoreReg { .. } => row(Register, Register, Value, Unused),
            Form::Wide => row(Register, Value, Unused, Value),
            Form::Goto => row(Unused, Unused, Value, Unused),
            Form::Goto32 => row(Unused, Unused, Unused, Value),
            Form::Branch { by_register, .. } => row(
                Register,
                src_use(by_register),
                Value,
                imm_use(by_register),
            ),
            Form::Call => row(Unused, Value, Unused, Value),
            Form::Exit => row(Unused, Unused, Unused, Unused),
        }
    }
}

/// The uses of the four fields.
fn row(dst: Use, src: Use, offset: Use, imm: Use) -> Uses
    ensures { result ≡ row dst src offset imm }
{
    Uses {
        dst,
        src,
        offset,
        imm,
    }
}

/// What the source register's field is for: it is unused if the second operand is the immediate.
fn src_use(by_register: bool) -> Use
    ensures { result ≡ src_use by_register }
{
    if by_register { Register } else { Unused }
}

/// What the offset is for: it names a variant of a division, a remainder or a move, and is unused otherwise.
fn variant_use(op: Operation) -> Use
    ensures { result ≡ variant_use op }
{
    match op {
        Operation::Div | Operation::Rem | Operation::Mov => Value,
        _ => Unused,
    }
}

/// What the immediate is for: it is unused if the second operand is a register.
fn imm_use(by_register: bool) -> Use
    ensures { result ≡ imm_use by_register }
{
    if by_register { Unused } else { Value }
}
