//! The instruction that a first word and its operands say.
ghost use Rattle.std.specs.Prelude.{◌≡◌, [], ◌∷◌, length, Some, pos};
ghost use Rattle.bq_asm.specs.Operands.{kinds_of, lesser, with_next, both_operands, listed_operands, each_operand, kind_list, word_texts, insn_from, instruction_of};
ghost use Rattle.bq_asm.specs.Text.{list_of};

use crate::fault::AssemblyCause;
use crate::mnemonic::Mnemonic;
use crate::operand::{Operand, Operands};
use crate::operand_kind::{OperandKind, operand_of};
use crate::table::named;
use bq_insn::{Insn, Source};

/// The kinds of the operands after a first word.
#[derive(Clone, Copy)]
pub enum Kinds {
    Zero,
    One(OperandKind),
    Two(OperandKind, OperandKind),
    Three(OperandKind, OperandKind, OperandKind),
}

/// Returns the instruction that a first word and its operands say, or the least cause why they say none. A label in the
/// place of a target stands for the distance 0.
pub fn instruction_of(first: &[u8], words: &[&[u8]]) -> Result<Insn, AssemblyCause>
    ensures { result ≡ instruction_of first.now (word_texts words.now) (Some (pos 0)) }
{
    let Some(mnemonic) = named(first) else {
        return Err(AssemblyCause::Word);
    };
    let operands = match operands_of(kinds_of(mnemonic), words) {
        Ok(operands) => operands,
        Err(cause) => return Err(cause),
    };
    match insn_from(mnemonic, operands) {
        Some(insn) => Ok(insn),
        None => Err(AssemblyCause::Word),
    }
}

/// Returns the kinds of the operands that follow a first word.
pub fn kinds_of(mnemonic: Mnemonic) -> Kinds
    ensures { result ≡ kinds_of mnemonic }
{
    match mnemonic {
        Mnemonic::Alu(_, _) => Kinds::Two(OperandKind::Register, OperandKind::Source),
        Mnemonic::MovSx(_, _) => Kinds::Two(OperandKind::Register, OperandKind::Register),
        Mnemonic::Neg(_) | Mnemonic::End(_, _) => Kinds::One(OperandKind::Register),
        Mnemonic::Load(_) | Mnemonic::LoadSigned(_) => Kinds::Two(
            OperandKind::Register,
            OperandKind::Memory,
        ),
        Mnemonic::StoreImm(_) => Kinds::Two(OperandKind::Memory, OperandKind::Number),
        Mnemonic::StoreReg(_) => Kinds::Two(OperandKind::Memory, OperandKind::Register),
        Mnemonic::Imm64 => Kinds::Two(OperandKind::Register, OperandKind::Wide),
        Mnemonic::MapRef => Kinds::Two(OperandKind::Register, OperandKind::Number),
        Mnemonic::Goto => Kinds::One(OperandKind::Near),
        Mnemonic::Goto32 => Kinds::One(OperandKind::Far),
        Mnemonic::Branch(_, _) => Kinds::Three(
            OperandKind::Register,
            OperandKind::Source,
            OperandKind::Near,
        ),
        Mnemonic::Call => Kinds::One(OperandKind::Number),
        Mnemonic::Exit => Kinds::Zero,
    }
}

/// Returns the operands that the words write, or the least cause among them.
fn operands_of(kinds: Kinds, words: &[&[u8]]) -> Result<Operands, AssemblyCause>
    ensures { listed_operands result ≡ each_operand (kind_list kinds) (word_texts words.now) (Some (pos 0)) }
{
    if words.len() != count_of(kinds) {
        return Err(AssemblyCause::Word);
    }
    each_of(kinds, words)
}

/// Returns the operands that the words write, one word for each kind, or the least cause among them.
fn each_of(kinds: Kinds, words: &[&[u8]]) -> Result<Operands, AssemblyCause>
    requires { length words.now ≡ length (kind_list kinds) }
    ensures { listed_operands result ≡ each_operand (kind_list kinds) (word_texts words.now) (Some (pos 0)) }
{
    match kinds {
        Kinds::Zero => Ok(Operands::Zero),
        Kinds::One(only) => one_of(operand_of(only, words[0])),
        Kinds::Two(first, second) => two_of(pair_of(first, second, words)),
        Kinds::Three(first, second, third) => {
            three_of(
                operand_of(first, words[0]),
                pair_of(second, third, &words[1..]),
            )
        }
    }
}

/// Returns the number of operands, 0 to 3.
fn count_of(kinds: Kinds) -> usize
    ensures { result ≡ length (kind_list kinds) }
{
    match kinds {
        Kinds::Zero => 0,
        Kinds::One(_) => 1,
        Kinds::Two(_, _) => 2,
        Kinds::Three(_, _, _) => 3,
    }
}

/// Returns the list of one operand, or the cause why there is no operand.
fn one_of(only: Result<Operand, AssemblyCause>) -> Result<Operands, AssemblyCause>
    ensures { listed_operands result ≡ with_next only (Ok []) }
{
    Ok(Operands::One(only?))
}

/// Returns the list of two operands, or the cause why they are missing.
fn two_of(pair: Result<(Operand, Operand), AssemblyCause>) -> Result<Operands, AssemblyCause>
    ensures { listed_operands result ≡ both_operands pair }
{
    let (a, b) = pair?;
    Ok(Operands::Two(a, b))
}

/// Returns the operands that two words write, or the lesser of their causes.
fn pair_of(
    first: OperandKind,
    second: OperandKind,
    words: &[&[u8]],
) -> Result<(Operand, Operand), AssemblyCause>
    requires { length words.now ≡ 2 }
    ensures { both_operands result ≡ each_operand (first ∷ second ∷ []) (word_texts words.now) (Some (pos 0)) }
{
    match (operand_of(first, words[0]), operand_of(second, words[1])) {
        (Ok(a), Ok(b)) => Ok((a, b)),
        (Ok(_), Err(cause)) | (Err(cause), Ok(_)) => Err(cause),
        (Err(a), Err(b)) => Err(lesser(a, b)),
    }
}

/// Returns the list of three operands, or the lesser of the causes why some are missing.
fn three_of(
    first: Result<Operand, AssemblyCause>,
    others: Result<(Operand, Operand), AssemblyCause>,
) -> Result<Operands, AssemblyCause>
    ensures { listed_operands result ≡ with_next first (both_operands others) }
{
    match (first, others) {
        (Ok(a), Ok((b, c))) => Ok(Operands::Three(a, b, c)),
        (Ok(_), Err(cause)) | (Err(cause), Ok(_)) => Err(cause),
        (Err(first), Err(others)) => Err(lesser(first, others)),
    }
}

/// Returns the lesser of the causes of two operands: A1 if one of them is A1, else A2.
fn lesser(a: AssemblyCause, b: AssemblyCause) -> AssemblyCause
    ensures { result ≡ lesser a b }
{
    match (a, b) {
        (AssemblyCause::Word, _) | (_, AssemblyCause::Word) => AssemblyCause::Word,
        (AssemblyCause::Number, _) | (_, AssemblyCause::Number) => AssemblyCause::Number,
        _ => a,
    }
}

/// Returns the instruction of a mnemonic with these operands, if there is one.
fn insn_from(mnemonic: Mnemonic, operands: Operands) -> Option<Insn>
    ensures { result ≡ insn_from mnemonic (list_of operands) }
{
    match operands {
        Operands::Zero => insn_alone(mnemonic),
        Operands::One(a) => insn_of_one(mnemonic, a),
        Operands::Two(a, b) => insn_of_two(mnemonic, a, b),
        Operands::Three(a, b, c) => insn_of_three(mnemonic, a, b, c),
    }
}

/// Returns the instruction without operands, if the mnemonic has one.
fn insn_alone(mnemonic: Mnemonic) -> Option<Insn>
    ensures { result ≡ insn_from mnemonic [] }
{
    match mnemonic {
        Mnemonic::Exit => Some(Insn::Exit),
        _ => None,
    }
}

/// Returns the instruction with this one operand, if the mnemonic has one.
fn insn_of_one(mnemonic: Mnemonic, operand: Operand) -> Option<Insn>
    ensures { result ≡ insn_from mnemonic (operand ∷ []) }
{
    match (mnemonic, operand) {
        (Mnemonic::Neg(width), Operand::Register(dst)) => Some(Insn::Neg { width, dst }),
        (Mnemonic::End(kind, bits), Operand::Register(dst)) => Some(Insn::End { kind, bits, dst }),
        (Mnemonic::Goto, Operand::Near(off)) => Some(Insn::Goto { off }),
        (Mnemonic::Goto32, Operand::Far(imm)) => Some(Insn::Goto32 { imm }),
        (Mnemonic::Call, Operand::Number(helper)) => Some(Insn::Call { helper }),
        _ => None,
    }
}

/// Returns the instruction with these two operands, if the mnemonic has one.
fn insn_of_two(mnemonic: Mnemonic, first: Operand, second: Operand) -> Option<Insn>
    ensures { result ≡ insn_from mnemonic (first ∷ second ∷ []) }
{
    match (first, second) {
        (Operand::Register(dst), Operand::Number(number)) => insn_of_number(mnemonic, dst, number),
        (Operand::Register(dst), Operand::Register(src)) => insn_of_register(mnemonic, dst, src),
        (Operand::Register(dst), Operand::Memory { base, offset }) => {
            insn_of_load(mnemonic, dst, base, offset)
        }
        (Operand::Register(dst), Operand::Wide(value)) => match mnemonic {
            Mnemonic::Imm64 => Some(Insn::Imm64 { dst, value }),
            _ => None,
        },
        (Operand::Memory { base, offset }, stored) => insn_of_store(mnemonic, base, offset, stored),
        _ => None,
    }
}

/// Returns the instruction whose operands are a register and a number, if the mnemonic has one.
fn insn_of_number(mnemonic: Mnemonic, dst: u8, number: i32) -> Option<Insn>
    ensures { result ≡ insn_from mnemonic (Operand.Register dst ∷ Operand.Number number ∷ []) }
{
    match mnemonic {
        Mnemonic::Alu(width, op) => Some(Insn::Alu {
            width,
            op,
            dst,
            src: Source::Imm(number),
        }),
        Mnemonic::MapRef => Some(Insn::MapRef { dst, index: number }),
        _ => None,
    }
}

/// Returns the instruction whose operands are two registers, if the mnemonic has one.
fn insn_of_register(mnemonic: Mnemonic, dst: u8, src: u8) -> Option<Insn>
    ensures { result ≡ insn_from mnemonic (Operand.Register dst ∷ Operand.Register src ∷ []) }
{
    match mnemonic {
        Mnemonic::Alu(width, op) => Some(Insn::Alu {
            width,
            op,
            dst,
            src: Source::Reg(src),
        }),
        Mnemonic::MovSx(width, bits) => Some(Insn::MovSx {
            width,
            bits,
            dst,
            src,
        }),
        _ => None,
    }
}

/// Returns the instruction whose operands are a register and a place in memory, if the mnemonic has one.
fn insn_of_load(mnemonic: Mnemonic, dst: u8, src: u8, off: i16) -> Option<Insn>
    ensures { result ≡ insn_from mnemonic (Operand.Register dst ∷ Operand.Memory src off ∷ []) }
{
    let (size, signed) = match mnemonic {
        Mnemonic::Load(size) => (size, false),
        Mnemonic::LoadSigned(size) => (size, true),
        _ => return None,
    };
    Some(Insn::Load {
        size,
        signed,
        dst,
        src,
        off,
    })
}

/// Returns the instruction whose operands are a place in memory and what is stored there, if the mnemonic has one.
fn insn_of_store(mnemonic: Mnemonic, dst: u8, off: i16, stored: Operand) -> Option<Insn>
    ensures { result ≡ insn_from mnemonic (Operand.Memory dst off ∷ stored ∷ []) }
{
    match (mnemonic, stored) {
        (Mnemonic::StoreImm(size), Operand::Number(imm)) => Some(Insn::StoreImm {
            size,
            dst,
            off,
            imm,
        }),
        (Mnemonic::StoreReg(size), Operand::Register(src)) => Some(Insn::StoreReg {
            size,
            dst,
            off,
            src,
        }),
        _ => None,
    }
}

/// Returns the instruction with these three operands, if the mnemonic has one: only branches do.
fn insn_of_three(mnemonic: Mnemonic, a: Operand, b: Operand, c: Operand) -> Option<Insn>
    ensures { result ≡ insn_from mnemonic (a ∷ b ∷ c ∷ []) }
{
    let (Mnemonic::Branch(width, cond), Operand::Register(dst), Operand::Near(off)) = (
        mnemonic, a, c,
    ) else {
        return None;
    };
    let src = match b {
        Operand::Number(imm) => Source::Imm(imm),
        Operand::Register(register) => Source::Reg(register),
        _ => return None,
    };
    Some(Insn::Branch {
        width,
        cond,
        dst,
        src,
        off,
    })
}
