//! The registers that an instruction reads, and the memory that it accesses.
ghost use Rattle.std.specs.Prelude.{◌≡◌, ◌≤◌, ℕ, IfSome, IsTrue, false, slice_index_or, true};
ghost use Rattle.bq_insn.specs.Slots.{byte_count};
ghost use Rattle.bq_needs.specs.Operands.{NeedsSet, access_of, is_that_register, reads, reads_left, works_on};

use bq_insn::{Insn, Operation, REGISTERS, Size, Source};

/// Registers by their numbers: whether each is one of them.
pub type Registers = [bool; REGISTERS];

/// The access of a load or a store.
#[derive(Clone, Copy)]
pub struct MemoryAccess {
    /// Whether it writes; otherwise it reads.
    pub writes: bool,
    /// How many bytes.
    pub bytes: usize,
    /// The register that its address counts from.
    pub register: u8,
    /// The distance from there at which it begins.
    pub off: i16,
}

/// Whether the instruction reads the register as an operand; then it does nothing if the register is unset.
pub fn reads(insn: Insn, register: u8) -> bool
    ensures is { result ≡ reads insn register }
    ensures needs { IsTrue result → NeedsSet insn register }
{
    match insn {
        Insn::Alu { op, dst, src, .. } => {
            (reads_left(op) && dst == register) || is_register(src, register)
        }
        Insn::MovSx { src, .. } | Insn::Load { src, .. } => src == register,
        Insn::Neg { dst, .. } | Insn::End { dst, .. } | Insn::StoreImm { dst, .. } => {
            dst == register
        }
        Insn::StoreReg { dst, src, .. } => dst == register || src == register,
        Insn::Branch { dst, src, .. } => dst == register || is_register(src, register),
        _ => false,
    }
}

/// Lists the registers that the instruction reads as operands.
pub fn read_registers(insn: Insn) -> Registers
    ensures { (r : ℕ) → slice_index_or result r false ≡ true → reads insn r ≡ true }
{
    let mut registers = [false; REGISTERS];
    for register in 0..REGISTERS as u8 {
        registers[usize::from(register)] = reads(insn, register);
    }
    registers
}

/// Whether the instruction works on the register: a store of a register works on the register that it stores, and each
/// other instruction on those that it reads.
pub(crate) fn works_on(insn: Insn, register: u8) -> bool
    ensures { result ≡ works_on insn register }
{
    match insn {
        Insn::StoreReg { src, .. } => src == register,
        _ => reads(insn, register),
    }
}

/// Whether the operation reads the register that it changes: all but a move do.
fn reads_left(op: Operation) -> bool
    ensures { result ≡ reads_left op }
{
    match op {
        Operation::Mov => false,
        _ => true,
    }
}

/// Whether the second operand is that register.
fn is_register(src: Source, register: u8) -> bool
    ensures { result ≡ is_that_register src register }
{
    match src {
        Source::Imm(_) => false,
        Source::Reg(number) => number == register,
    }
}

/// Finds the access of the instruction; None if it is no load and no store.
pub(crate) fn access_of(insn: Insn) -> Option<MemoryAccess>
    ensures is { result ≡ access_of insn }
    ensures few { IfSome result (λ access. access.bytes ≤ 8) }
{
    match insn {
        Insn::Load { size, src, off, .. } => Some(sized(false, size, src, off)),
        Insn::StoreImm { size, dst, off, .. } => Some(sized(true, size, dst, off)),
        Insn::StoreReg { size, dst, off, .. } => Some(sized(true, size, dst, off)),
        _ => None,
    }
}

/// Makes an access of that size.
fn sized(writes: bool, size: Size, register: u8, off: i16) -> MemoryAccess
    ensures is { result ≡ record { writes = writes; bytes = byte_count size; register = register; off = off } }
    ensures few { result.bytes ≤ 8 }
{
    MemoryAccess {
        writes,
        bytes: size.bytes(),
        register,
        off,
    }
}
