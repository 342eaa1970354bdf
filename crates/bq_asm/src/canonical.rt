//! The canonical text of instructions.
ghost use Rattle.std.specs.Prelude.{◌≡◌, Some, IfOk};
ghost use Rattle.std.specs.String.{string_bytes};
ghost use Rattle.bq_asm.specs.Text.{mnemonic_of, operands_of, list_of, source_operand, text_of_instruction, listing_text};

use crate::mnemonic::Mnemonic;
use crate::operand::{Operand, Operands};
use bq_insn::{Insn, Source};
use std::alloc::{AllocError, Global};
use std::fmt;

/// Writes the canonical text of a program: one line for each instruction, a space after its first word, a comma and a
/// space between operands, numbers in decimal, offsets and jump distances with a sign. If the instructions are well
/// formed, the text assembles to them again.
pub fn listing(alloc: Global, insns: &[Insn]) -> Result<String, AllocError>
    ensures { IfOk result (λ text. string_bytes text ≡ listing_text insns.now) }
{
    let mut text = String::new(alloc);
    for insn in insns {
        let line = Written(*insn);
        write!(text, "{line}")?;
    }
    Ok(text)
}

/// An instruction that is displayed as its line.
#[derive(Clone, Copy)]
struct Written(Insn);

impl fmt::Display for Written {
    ghost use Rattle.bq_asm.specs.Text.{text_of_instruction};

    ghost output = { λ written. Some (text_of_instruction written.0) };

    /// Writes the line of the instruction.
    fn fmt<W: fmt::Write>(&self, f: &mut fmt::Formatter<W>) -> fmt::Result {
        let mnemonic = mnemonic_of(self.0);
        let operands = operands_of(self.0);
        write!(f, "{mnemonic}{operands}\n")
    }
}

/// Returns the mnemonic of an instruction.
pub fn mnemonic_of(insn: Insn) -> Mnemonic
    ensures { result ≡ mnemonic_of insn }
{
    match insn {
        Insn::Alu { width, op, .. } => Mnemonic::Alu(width, op),
        Insn::MovSx { width, bits, .. } => Mnemonic::MovSx(width, bits),
        Insn::Neg { width, .. } => Mnemonic::Neg(width),
        Insn::End { kind, bits, .. } => Mnemonic::End(kind, bits),
        Insn::Load {
            size,
            signed: false,
            ..
        } => Mnemonic::Load(size),
        Insn::Load {
            size,
            signed: true,
            ..
        } => Mnemonic::LoadSigned(size),
        Insn::StoreImm { size, .. } => Mnemonic::StoreImm(size),
        Insn::StoreReg { size, .. } => Mnemonic::StoreReg(size),
        Insn::Imm64 { .. } => Mnemonic::Imm64,
        Insn::MapRef { .. } => Mnemonic::MapRef,
        Insn::Goto { .. } => Mnemonic::Goto,
        Insn::Goto32 { .. } => Mnemonic::Goto32,
        Insn::Branch { width, cond, .. } => Mnemonic::Branch(width, cond),
        Insn::Call { .. } => Mnemonic::Call,
        Insn::Exit => Mnemonic::Exit,
    }
}

/// Returns the operands of an instruction, as its line lists them.
pub fn operands_of(insn: Insn) -> Operands
    ensures { list_of result ≡ operands_of insn }
{
    match insn {
        Insn::Alu { dst, src, .. } => Operands::Two(Operand::Register(dst), source_operand(src)),
        Insn::MovSx { dst, src, .. } => {
            Operands::Two(Operand::Register(dst), Operand::Register(src))
        }
        Insn::Neg { dst, .. } | Insn::End { dst, .. } => Operands::One(Operand::Register(dst)),
        Insn::Load { dst, src, off, .. } => Operands::Two(
            Operand::Register(dst),
            Operand::Memory {
                base: src,
                offset: off,
            },
        ),
        Insn::StoreImm { dst, off, imm, .. } => Operands::Two(
            Operand::Memory {
                base: dst,
                offset: off,
            },
            Operand::Number(imm),
        ),
        Insn::StoreReg { dst, off, src, .. } => Operands::Two(
            Operand::Memory {
                base: dst,
                offset: off,
            },
            Operand::Register(src),
        ),
        Insn::Imm64 { dst, value } => {
            Operands::Two(Operand::Register(dst), Operand::Wide(value))
        }
        Insn::MapRef { dst, index } => {
            Operands::Two(Operand::Register(dst), Operand::Number(index))
        }
        Insn::Goto { off } => Operands::One(Operand::Near(off)),
        Insn::Goto32 { imm } => Operands::One(Operand::Far(imm)),
        Insn::Branch { dst, src, off, .. } => Operands::Three(
            Operand::Register(dst),
            source_operand(src),
            Operand::Near(off),
        ),
        Insn::Call { helper } => Operands::One(Operand::Number(helper)),
        Insn::Exit => Operands::Zero,
    }
}

/// Returns the operand that a source says: a number or a register.
fn source_operand(source: Source) -> Operand
    ensures { result ≡ source_operand source }
{
    match source {
        Source::Imm(number) => Operand::Number(number),
        Source::Reg(register) => Operand::Register(register),
    }
}
