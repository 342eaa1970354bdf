//! The first words of instructions.
ghost use Rattle.std.specs.Prelude.{◌≡◌, ◌++◌, Some};
ghost use Rattle.bq_asm.specs.Names.{op_name, cond_name, width_name, size_name, order_name, bits_name, mnemonic_word};

use bq_insn::{Bits, Condition, Operation, Order, Size, Width};
use std::fmt;

/// What the first word of an instruction says: the instruction without its operands.
#[derive(Clone, Copy)]
pub enum Mnemonic {
    Alu(Width, Operation),
    MovSx(Width, Bits),
    Neg(Width),
    End(Order, Bits),
    Load(Size),
    LoadSigned(Size),
    StoreImm(Size),
    StoreReg(Size),
    Imm64,
    MapRef,
    Goto,
    Goto32,
    Branch(Width, Condition),
    Call,
    Exit,
}

/// Returns the first word of an arithmetic operation, without the width.
fn op_name(op: Operation) -> &'static str
    ensures { result.now ≡ op_name op }
{
    match op {
        Operation::Add => "add",
        Operation::Sub => "sub",
        Operation::Mul => "mul",
        Operation::Div => "div",
        Operation::Sdiv => "sdiv",
        Operation::Or => "or",
        Operation::And => "and",
        Operation::Lsh => "lsh",
        Operation::Rsh => "rsh",
        Operation::Rem => "mod",
        Operation::Srem => "smod",
        Operation::Xor => "xor",
        Operation::Mov => "mov",
        Operation::Arsh => "arsh",
    }
}

/// Returns the first word of a branch on a condition, without the width.
fn cond_name(cond: Condition) -> &'static str
    ensures { result.now ≡ cond_name cond }
{
    match cond {
        Condition::Equal => "jeq",
        Condition::Greater => "jgt",
        Condition::GreaterEqual => "jge",
        Condition::AnyBit => "jset",
        Condition::NotEqual => "jne",
        Condition::SignedGreater => "jsgt",
        Condition::SignedGreaterEqual => "jsge",
        Condition::Less => "jlt",
        Condition::LessEqual => "jle",
        Condition::SignedLess => "jslt",
        Condition::SignedLessEqual => "jsle",
    }
}

/// Returns the number of bits of a width, as the end of a first word.
fn width_name(width: Width) -> &'static str
    ensures { result.now ≡ width_name width }
{
    match width {
        Width::W32 => "32",
        Width::W64 => "64",
    }
}

/// Returns the letters for the size of a load or store, as the end of a first word.
fn size_name(size: Size) -> &'static str
    ensures { result.now ≡ size_name size }
{
    match size {
        Size::Byte => "b",
        Size::Half => "h",
        Size::Word => "w",
        Size::Double => "dw",
    }
}

/// Returns the first word of a byte order, without the number of bits.
fn order_name(order: Order) -> &'static str
    ensures { result.now ≡ order_name order }
{
    match order {
        Order::Little => "le",
        Order::Big => "be",
        Order::Swapped => "swap",
    }
}

/// Returns the number of bits, as the end of a first word.
fn bits_name(bits: Bits) -> &'static str
    ensures { result.now ≡ bits_name bits }
{
    match bits {
        Bits::B8 => "8",
        Bits::B16 => "16",
        Bits::B32 => "32",
        Bits::B64 => "64",
    }
}

/// Returns the two halves of a first word: what the instruction does, and the width or size on which it works.
fn halves(mnemonic: Mnemonic) -> (&'static str, &'static str)
    ensures { result.0.now ++ result.1.now ≡ mnemonic_word mnemonic }
{
    match mnemonic {
        Mnemonic::Alu(width, op) => (op_name(op), width_name(width)),
        Mnemonic::MovSx(Width::W32, bits) => ("movsx32_", bits_name(bits)),
        Mnemonic::MovSx(Width::W64, bits) => ("movsx64_", bits_name(bits)),
        Mnemonic::Neg(width) => ("neg", width_name(width)),
        Mnemonic::End(order, bits) => (order_name(order), bits_name(bits)),
        Mnemonic::Load(size) => ("ldx", size_name(size)),
        Mnemonic::LoadSigned(size) => ("ldxs", size_name(size)),
        Mnemonic::StoreImm(size) => ("st", size_name(size)),
        Mnemonic::StoreReg(size) => ("stx", size_name(size)),
        Mnemonic::Imm64 => ("lddw", ""),
        Mnemonic::MapRef => ("ldmap", ""),
        Mnemonic::Goto => ("ja", ""),
        Mnemonic::Goto32 => ("ja", "32"),
        Mnemonic::Branch(width, cond) => (cond_name(cond), width_name(width)),
        Mnemonic::Call => ("call", ""),
        Mnemonic::Exit => ("exit", ""),
    }
}

impl fmt::Display for Mnemonic {
    ghost use Rattle.bq_asm.specs.Names.{mnemonic_word};

    ghost output = { λ m. Some (mnemonic_word m) };

    /// Writes the first word.
    fn fmt<W: fmt::Write>(&self, f: &mut fmt::Formatter<W>) -> fmt::Result {
        let (stem, ending) = halves(*self);
        write!(f, "{stem}{ending}")
    }
}
