//! What a branch shows about its operands on each side.

ghost use Rattle.std.specs.Prelude.{◌≡◌, ◌<◌, ℕ, ℤ, IfOk, IfSome, IfErr, IsOk, OnOk, List, Some, true, false};
ghost use Rattle.bq_insn.specs.declared.Insn.{Insn};
ghost use Rattle.bq_bpf.specs.Meaning.{taken, word_of};
ghost use Rattle.bq_bpf.specs.declared.shape.MapShape.{MapShape};
ghost use Rattle.bq_transfer.specs.Obligations.{MayBeUnproven, UsesWord};
ghost use Rattle.bq_states.specs.Certainty.{IsWord};
ghost use Rattle.bq_transfer.specs.Ready.{IsNullCheck, IsNullTest};
ghost use Rattle.bq_transfer.specs.Sides.{FitsSide, IfAnswerTested, IsCompared, IsNumberIfAny, IsNeverOrNumber, IsTested, IsComparableAndTested, is_found};
ghost use Rattle.bq_states.specs.AbstractStates.{Describes};

use crate::obligation::Obligation;
use bq_insn::{Condition, Source, Width};
use bq_ranges::narrowing::{narrow, narrow_right};
use bq_states::abstract_state::{AbstractValue, ValueKind};

/// What the left operand is on one side of a branch; `None` if control never goes there.
pub fn side(
    width: Width,
    cond: Condition,
    left: AbstractValue,
    src: Source,
    right: AbstractValue,
    goes: bool,
) -> Result<Option<AbstractValue>, Obligation>
    requires { (i : ℤ) → src ≡ Source.Imm i → IsWord (word_of i) (Some right) }
    ensures fits { IfOk result (FitsSide width cond left right goes) }
    ensures obligations { IfErr result (λ obligation. (insn : Insn) → UsesWord insn → MayBeUnproven obligation insn) }
    ensures compared { OnOk result (IsCompared width cond left src right) }
    ensures accepts { left.kind ≡ ValueKind.Number → right.kind ≡ ValueKind.Number → IsOk result }
    ensures number { left.kind ≡ ValueKind.Number → right.kind ≡ ValueKind.Number → IfOk result IsNumberIfAny }
    ensures checks { IfAnswerTested width cond left src (λ map. IsOk result) }
    ensures tested { IfAnswerTested width cond left src (λ map. IfOk result (IsTested map (is_found cond goes))) }
{
    match outcome(width, cond, left, src, right, goes) {
        Some(side) => Ok(side),
        None => Err(Obligation::PointerUse),
    }
}

/// What the right operand is on one side of a branch, if control goes there.
pub fn right_side(
    width: Width,
    cond: Condition,
    left: AbstractValue,
    right: AbstractValue,
    goes: bool,
) -> AbstractValue
    ensures { (shapes : List MapShape) (a b : ℕ) → Describes shapes left a → Describes shapes right b → taken width cond a b ≡ goes → Describes shapes result b }
{
    match (left.kind, right.kind) {
        (ValueKind::Number, ValueKind::Number) => AbstractValue {
            kind: ValueKind::Number,
            offset: narrow_right(cond, width, left.offset, right.offset, goes),
        },
        _ => right,
    }
}

/// What the left operand is on one side of a branch. The outer `None` means that the two words may not be compared, the
/// inner `None` that control never goes there.
fn outcome(
    width: Width,
    cond: Condition,
    left: AbstractValue,
    src: Source,
    right: AbstractValue,
    goes: bool,
) -> Option<Option<AbstractValue>>
    requires { (i : ℤ) → src ≡ Source.Imm i → IsWord (word_of i) (Some right) }
    ensures compared { IfSome result (λ _. IsCompared width cond left src right) }
    ensures fits { IfSome result (FitsSide width cond left right goes) }
    ensures numbers { left.kind ≡ ValueKind.Number → right.kind ≡ ValueKind.Number → IsNeverOrNumber result }
    ensures tested { IfAnswerTested width cond left src (λ map. IsComparableAndTested map (is_found cond goes) result) }
{
    match (left.kind, right.kind) {
        (ValueKind::Number, ValueKind::Number) => match narrow(
            cond,
            width,
            left.offset,
            right.offset,
            goes,
        ) {
            Some(offset) => Some(Some(AbstractValue {
                kind: ValueKind::Number,
                offset,
            })),
            None => Some(None),
        },
        (ValueKind::EntryOrNull(map), ValueKind::Number) => {
            if left.offset.hi > 0 || src != Source::Imm(0) {
                return None;
            }
            null_check(map, width, cond, left, right, goes)
        }
        (ValueKind::Entry(_), ValueKind::Number) => found_check(width, cond, left, src),
        _ => None,
    }
}

/// The answer of a look-up that was already found, on one side of another test: it stays what it is.
fn found_check(
    width: Width,
    cond: Condition,
    left: AbstractValue,
    src: Source,
) -> Option<Option<AbstractValue>>
    ensures compared { IfSome result (λ _. (left.offset.hi ≡ 0) × IsNullCheck width cond src) }
    ensures same { IfSome result (λ side. side ≡ Some left) }
{
    if left.offset.hi > 0 {
        return None;
    }
    match (width, cond, src) {
        (Width::W64, Condition::Equal | Condition::NotEqual, Source::Imm(0)) => Some(Some(left)),
        _ => None,
    }
}

/// The answer of a look-up on one side of its test.
fn null_check(
    map: u8,
    width: Width,
    cond: Condition,
    left: AbstractValue,
    right: AbstractValue,
    goes: bool,
) -> Option<Option<AbstractValue>>
    requires left { left.kind ≡ ValueKind.EntryOrNull map }
    requires right { right.kind ≡ ValueKind.Number }
    requires whole { left.offset.hi ≡ 0 }
    requires null { right.offset.hi ≡ 0 }
    ensures compared { IfSome result (λ _. (width ≡ Width.W64) × IsNullTest cond) }
    ensures tested { width ≡ Width.W64 → IsNullTest cond → left.offset.lo ≡ 0 → IsComparableAndTested map (is_found cond goes) result }
    ensures fits { IfSome result (FitsSide width cond left right goes) }
{
    let null = AbstractValue {
        kind: ValueKind::Number,
        offset: right.offset,
    };
    let entry = AbstractValue {
        kind: ValueKind::Entry(map),
        offset: left.offset,
    };
    match (width, cond, goes) {
        (Width::W64, Condition::Equal, true) => Some(Some(null)),
        (Width::W64, Condition::Equal, false) => Some(Some(entry)),
        (Width::W64, Condition::NotEqual, true) => Some(Some(entry)),
        (Width::W64, Condition::NotEqual, false) => Some(Some(null)),
        _ => None,
    }
}
