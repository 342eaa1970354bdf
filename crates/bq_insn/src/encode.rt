//! From instructions to bytes.
ghost use Rattle.std.specs.Prelude.{◌≡◌, ◌++◌, true, OnOk, OnErr};
ghost use Rattle.bq_insn.specs.Spelling.{is_register, is_source, is_insn, insn_bytes, spelling, is_well_formed};
ghost use Rattle.std.specs.List.{list_all};
ghost use Rattle.bq_insn.specs.Appending.{StartsWith};

use crate::spelling::slots_of;
use crate::{Bits, Insn, SLOTS, Size, Source, Width};
use std::alloc::AllocError;

/// Whether the list is a program: every register is at most 10, each instruction has a width that it may have,
/// and the instructions take from 1 to 4096 slots.
pub fn well_formed(insns: &[Insn]) -> bool
    ensures { result ≡ is_well_formed insns.now }
{
    let mut slots = 0;
    for insn in insns {
        if !is_insn(insn) {
            return false;
        }
        slots += insn.slots();
        if slots > SLOTS {
            return false;
        }
    }
    slots >= 1
}

/// Whether the registers and the widths of an instruction are in range.
fn is_insn(insn: &Insn) -> bool
    ensures { result ≡ is_insn insn.now }
{
    match *insn {
        Insn::Alu { dst, src, .. } | Insn::Branch { dst, src, .. } => {
            is_register(dst) && is_source(src)
        }
        Insn::MovSx {
            width,
            bits,
            dst,
            src,
        } => match (width, bits) {
            (_, Bits::B8 | Bits::B16) | (Width::W64, Bits::B32) => {
                is_register(dst) && is_register(src)
            }
            _ => false,
        },
        Insn::End { bits, dst, .. } => match bits {
            Bits::B8 => false,
            _ => is_register(dst),
        },
        Insn::Load {
            size,
            signed,
            dst,
            src,
            ..
        } => match (size, signed) {
            (Size::Double, true) => false,
            _ => is_register(dst) && is_register(src),
        },
        Insn::StoreReg { dst, src, .. } => is_register(dst) && is_register(src),
        Insn::Neg { dst, .. }
        | Insn::StoreImm { dst, .. }
        | Insn::Imm64 { dst, .. }
        | Insn::MapRef { dst, .. } => is_register(dst),
        Insn::Goto { .. } | Insn::Goto32 { .. } | Insn::Call { .. } | Insn::Exit => true,
    }
}

/// Whether the operand is a number or a register that exists.
fn is_source(source: Source) -> bool
    ensures { result ≡ is_source source }
{
    match source {
        Source::Imm(_) => true,
        Source::Reg(register) => is_register(register),
    }
}

/// Whether a register of this number exists.
fn is_register(register: u8) -> bool
    ensures { result ≡ is_register register }
{
    register <= 10
}

/// Appends the bytes that spell the program (RFC 9669, section 3). If memory runs out, nothing is appended.
pub fn encode(insns: &[Insn], out: &mut Vec<u8>) -> Result<(), AllocError>
    requires { is_well_formed insns.now ≡ true }
    ensures ok { OnOk result (out.new.items ≡ out.old.items ++ spelling insns.now) }
    ensures err { OnErr result (out.new.items ≡ out.old.items) }
{
    let start = out.len();
    if let Err(error) = append_all(insns, out) {
        out.truncate(start);
        return Err(error);
    }
    Ok(())
}

/// Appends the bytes that spell these instructions, for any list of instructions in range. If memory runs out, a part
/// of the bytes may remain appended.
fn append_all(insns: &[Insn], out: &mut Vec<u8>) -> Result<(), AllocError>
    requires { list_all is_insn insns.now ≡ true }
    ensures ok { OnOk result (out.new.items ≡ out.old.items ++ spelling insns.now) }
    ensures err { OnErr result (StartsWith out.old.items out.new.items) }
{
    for insn in insns {
        append(*insn, out)?;
    }
    Ok(())
}

/// Appends the bytes of an instruction. If memory runs out, a part of the bytes may remain appended.
fn append(insn: Insn, out: &mut Vec<u8>) -> Result<(), AllocError>
    requires { is_insn insn ≡ true }
    ensures ok { OnOk result (out.new.items ≡ out.old.items ++ insn_bytes insn) }
    ensures err { OnErr result (StartsWith out.old.items out.new.items) }
{
    let (first, second) = slots_of(insn);
    first.append_to(out)?;
    if let Some(second) = second {
        second.append_to(out)?;
    }
    Ok(())
}
