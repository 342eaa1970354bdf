//! Instructions from which control goes on to the next one.

ghost use Rattle.bq_bpf.specs.declared.shape.TheConstants.{MAPS};
ghost use Rattle.std.specs.Prelude.{IsOk, ◌<◌, ◌≤◌, ◌^◌, OnOk, length, IfErr};
ghost use Rattle.bq_transfer.specs.Obligations.{MayBeUnproven};
ghost use Rattle.bq_transfer.specs.Transfers.{Transfers, IsStraight};
ghost use Rattle.bq_transfer.specs.After.{CarriesFacts};
ghost use Rattle.bq_transfer.specs.Ready.{IsTransferred, IsReady, WritesBelowFrame};

use crate::access::Access;
use crate::alu::alu;
use crate::calls::{call, map_ref};
use crate::loads::load;
use crate::moves::{extend, immediate, negate, reorder};
use crate::obligation::Obligation;
use crate::stores::{store_imm, store_reg};
use bq_bpf::MapShape;
use bq_insn::Insn;
use bq_states::abstract_state::AbstractState;

/// Changes the abstract state to the one after the instruction. The error is the obligation that is left unproven.
#[tactic(auto, using(crate::proofs::TransferLemmas::transferring))]
pub fn transfer(
    state: &mut AbstractState,
    shapes: &[MapShape],
    context: usize,
    insn: Insn,
) -> Result<(), Obligation>
    requires context { context < 2 ^ 16 }
    requires few { length shapes.now ≤ MAPS }
    requires transferred { IsTransferred insn }
    requires below { WritesBelowFrame insn }
    ensures straight { OnOk result (IsStraight insn) }
    ensures transfers { OnOk result (Transfers shapes.now context insn state.old state.new) }
    ensures obligations { IfErr result (λ obligation. MayBeUnproven obligation insn) }
    ensures accepts { IsReady shapes.now context state.old insn → IsOk result × CarriesFacts insn state.old state.new }
{
    match insn {
        Insn::Alu {
            width,
            op,
            dst,
            src,
        } => alu(state, width, op, dst, src),
        Insn::MovSx {
            width,
            bits,
            dst,
            src,
        } => extend(state, width, bits, dst, src),
        Insn::Neg { width, dst } => negate(state, width, dst),
        Insn::End { kind, bits, dst } => reorder(state, kind, bits, dst),
        Insn::Imm64 { dst, value } => {
            immediate(state, dst, value);
            Ok(())
        }
        Insn::Load {
            size,
            signed,
            dst,
            src,
            off,
        } => {
            let access = Access {
                size,
                base: src,
                off,
            };
            load(state, shapes, context, access, signed, dst)
        }
        Insn::StoreImm {
            size,
            dst,
            off,
            imm,
        } => {
            let access = Access {
                size,
                base: dst,
                off,
            };
            store_imm(state, shapes, context, access, imm)
        }
        Insn::StoreReg {
            size,
            dst,
            off,
            src,
        } => {
            let access = Access {
                size,
                base: dst,
                off,
            };
            store_reg(state, shapes, context, access, src)
        }
        Insn::MapRef { dst, index } => map_ref(state, shapes, dst, index),
        Insn::Call { helper } => call(state, shapes, context, helper),
        Insn::Goto { .. } | Insn::Goto32 { .. } | Insn::Branch { .. } | Insn::Exit => {
            unreachable!()
        }
    }
}
