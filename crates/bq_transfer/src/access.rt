//! To which place an access by a register goes.

ghost use Rattle.std.specs.Prelude.{Some, ◌↔◌, ◌≡◌, ◌^◌, ◌<◌, ℕ, IsOk, IfErr, IfOk};
ghost use Rattle.bq_bpf.specs.Meaning.{word_of};
ghost use Rattle.bq_insn.specs.declared.Insn.{Insn};
ghost use Rattle.bq_transfer.specs.Obligations.{IsAccess, IsUnknownAt, MayBeUnproven, ReadsOperand};
ghost use Rattle.bq_transfer.specs.Ready.{IsLocation, IsPlacedAt};
ghost use Rattle.bq_states.specs.declared.abstract_state.ValueKind.{ValueKind as ValueKindValue};
ghost use Rattle.bq_transfer.specs.Transfers.{FindsPlace};

use crate::obligation::Obligation;
use bq_bpf::MapShape;
use bq_insn::{Operation, Size, Width};
use bq_ranges::{Range, arithmetic};
use bq_states::abstract_state::{AbstractState, ValueKind};
use bq_states::places::{bound, stays};
use bq_states::registers::known;

/// An access of a load or a store: how many bytes, by which register, and at which distance from where the register
/// points.
#[derive(Clone, Copy)]
pub struct Access {
    pub size: Size,
    pub base: u8,
    pub off: i16,
}

/// The place of an access: from what the pointer counts, and the possible offsets from there.
#[derive(Clone, Copy)]
pub struct Location {
    pub kind: ValueKind,
    pub at: Range,
}

/// The place of an access, if it stays inside its region. The error is `Unset` if nothing is known of the register,
/// else `Access`.
pub fn locate(
    state: &AbstractState,
    shapes: &[MapShape],
    context: usize,
    access: Access,
) -> Result<Location, Obligation>
    requires context { context < 2 ^ 16 }
    ensures finds { IfOk result (λ p. FindsPlace shapes.now context state.now access.base access.off access.size p.kind p.at) }
    ensures obligations { IfErr result (λ obligation. (insn : Insn) → IsAccess insn → ReadsOperand insn → MayBeUnproven obligation insn) }
    ensures unset { IfErr result (λ obligation. obligation ≡ Obligation.Unset ↔ IsUnknownAt state.now access.base) }
    ensures accepts { (kind : ValueKindValue) (place : ℕ) → IsPlacedAt shapes.now context state.now access kind place → IsOk result }
    ensures there { IfOk result (IsLocation shapes.now context state.now access) }
{
    let Some(base) = known(state, access.base) else {
        return Err(Obligation::Unset);
    };
    let Some(bound) = bound(base.kind, shapes, context) else {
        return Err(Obligation::Access);
    };
    let at = arithmetic::alu(
        Width::W64,
        Operation::Add,
        base.offset,
        Range::single(word_of_distance(access.off)),
    );
    if !stays(at, access.size, bound) {
        return Err(Obligation::Access);
    }
    Ok(Location {
        kind: base.kind,
        at,
    })
}

/// The 64-bit word of a distance.
fn word_of_distance(off: i16) -> u64
    ensures { result ≡ word_of off }
{
    i64::from(off).cast_unsigned()
}
