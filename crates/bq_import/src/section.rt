//! From the bytes of a compiled program to instructions in order.
ghost use Rattle.bq_bpf.specs.declared.shape.TheConstants.{MAPS};
ghost use Rattle.std.specs.Prelude.{◌≡◌, ◌≤◌, true, false, IfOk, IfErr, IfSome, IfNone};
ghost use Rattle.std.specs.List.{list_any};
ghost use Rattle.bq_insn.specs.Faults.{IsDecodeFault};
ghost use Rattle.bq_insn.specs.Spelling.{is_well_formed};
ghost use Rattle.bq_import.specs.Importing.{Imports, IsFirstAddress, IsImportFault, byte_of_slot, is_address, is_short};

use crate::fault::Disorder;
use crate::order::{Ordered, order};
use crate::reason::{SlotReason, reason_of};
use bq_insn::Insn;
use bq_insn::decode::decode;
use bq_insn::fault::DecodeFault;
use std::alloc::Global;
use thiserror::Error;

/// Why the bytes of a compiled program are not imported.
#[derive(Clone, Copy, Debug, Error)]
pub enum ImportFault {
    /// What is at the slot is no instruction here, or needs a linker.
    #[error("slot {slot}: {reason}")]
    At { slot: usize, reason: SlotReason },
    /// The program cannot be brought into order.
    #[error("{0}")]
    Order(Disorder),
}

impl ImportFault {
    /// The slot at fault, if it is one.
    pub fn slot(&self) -> Option<u64> {
        match self {
            ImportFault::At { slot, .. } => Some(*slot as u64),
            ImportFault::Order(Disorder::Outside { slot } | Disorder::Ends { slot }) => Some(
                *slot as u64,
            ),
            ImportFault::Order(Disorder::Loop { from, .. }) => Some(*from as u64),
            ImportFault::Order(Disorder::Long | Disorder::OutOfMemory) => None,
        }
    }
}

impl From<Disorder> for ImportFault {
    ghost use Rattle.std.specs.Prelude.{◌≡◌};
    ghost use Rattle.bq_import.specs.declared.section.ImportFault.TheVariants.{Order};

    ghost from_gives = { λ d e. e ≡ Order d };

    fn from(disorder: Disorder) -> ImportFault {
        ImportFault::Order(disorder)
    }
}

/// The program that the bytes of a text section spell, beside this many maps, in an order in which every jump goes forward.
///
/// The program is a copy (see `order`) of what the bytes spell. An `lddw` of a number that a move could load is refused as an
/// address: a compiler writes it only for what a linker fills in. What is refused has the fault that is named.
pub fn import(alloc: Global, bytes: &[u8], maps: usize) -> Result<Ordered, ImportFault>
    requires few { maps ≤ MAPS }
    ensures imports { IfOk result (λ ordered. Imports maps bytes.now ordered.insns.items ordered.origins.items) }
    ensures fault { IfErr result (IsImportFault bytes.now) }
{
    let insns = match decode(alloc, bytes) {
        Ok(insns) => insns,
        Err(fault) => return Err(refusal(bytes, fault)),
    };
    if let Some(slot) = address_in(insns.as_slice()) {
        return Err(ImportFault::At {
            slot,
            reason: SlotReason::Address,
        });
    }
    let ordered = order(alloc, insns.as_slice(), maps)?;
    Ok(ordered)
}

/// Why bytes that are no program are not imported.
fn refusal(bytes: &[u8], fault: DecodeFault) -> ImportFault
    requires { IsDecodeFault bytes.now fault }
    ensures { IsImportFault bytes.now result }
{
    match fault {
        DecodeFault::OutOfMemory => ImportFault::Order(Disorder::OutOfMemory),
        DecodeFault::At { slot, cause } => {
            let reason = reason_of(cause, byte_at(bytes, slot, 0), byte_at(bytes, slot, 1) / 16);
            ImportFault::At { slot, reason }
        }
    }
}

/// A byte of a slot, or 0 past the end.
fn byte_at(bytes: &[u8], slot: usize, offset: usize) -> u8
    ensures { result ≡ byte_of_slot bytes.now slot offset }
{
    let index = slot.saturating_mul(8).saturating_add(offset);
    if index >= bytes.len() {
        return 0;
    }
    bytes[index]
}

/// The slot of the first address, if there is one.
fn address_in(insns: &[Insn]) -> Option<usize>
    requires { is_well_formed insns.now ≡ true }
    ensures some { IfSome result (IsFirstAddress insns.now) }
    ensures none { IfNone result (list_any is_address insns.now ≡ false) }
{
    let mut slot: usize = 0;
    for insn in insns {
        if is_address(*insn) {
            return Some(slot);
        }
        slot += insn.slots();
    }
    None
}

/// Whether the instruction loads a wide number that a move could load.
fn is_address(insn: Insn) -> bool
    ensures { result ≡ is_address insn }
{
    match insn {
        Insn::Imm64 { value, .. } => is_short(value),
        _ => false,
    }
}

/// Whether the number is one of 32 bits with a sign.
fn is_short(value: u64) -> bool
    ensures { result ≡ is_short value }
{
    value < 0x8000_0000 || value >= 0xffff_ffff_8000_0000
}
