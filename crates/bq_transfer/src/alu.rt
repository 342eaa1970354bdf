//! Arithmetic on what is known.

ghost use Rattle.std.specs.Prelude.{◌≡◌, ◌≢◌, ◌+◌, ◌%◌, ◌^◌, ◌<◌, length, slice_index, IsTrue, IfSome, OnOk, IsOk, IfErr, List, ℕ, ℤ, Some};
ghost use Rattle.bq_bpf.specs.declared.shape.MapShape.{MapShape};
ghost use Rattle.bq_bpf.specs.Meaning.{alu_result, word_of};
ghost use Rattle.bq_insn.specs.declared.Insn.TheVariants.{Alu};
ghost use Rattle.bq_transfer.specs.Obligations.{MayBeUnproven};
ghost use Rattle.bq_states.specs.declared.abstract_state.TheConstants.{PLACES};
ghost use Rattle.bq_states.specs.Certainty.{Scalar, Exact, Pointer, CertaintyHolds, CertaintyHoldsAt, IsScalarOperand, IsGiven, IsMade};
ghost use Rattle.bq_transfer.specs.After.{CarriesFacts};
ghost use Rattle.bq_transfer.specs.Ready.{IfReady, IsCopyOfFrame, IsMoveOfPointer};
ghost use Rattle.bq_transfer.specs.Transfers.{AddsConstant, DescribesResult, LinksCopy, MovesPointer, RelatesSum, TransfersEverywhere};
ghost use Rattle.bq_states.specs.AbstractStates.{Describes};
ghost use Rattle.bq_ranges.specs.Within.{Within};

use crate::obligation::Obligation;
use bq_insn::{Insn, Operation, REGISTERS, Source, Width};
use bq_ranges::{Range, arithmetic};
use bq_states::abstract_state::{AbstractState, AbstractValue, ValueKind};
use bq_states::copies::{class_of, link};
use bq_states::registers::{known, operand, set_register};
use bq_states::relations::{RELATIONS, Related, Relation, relate};

/// What is known of the result; `None` if the instruction may not work on these words.
pub fn combine(
    width: Width,
    op: Operation,
    a: AbstractValue,
    b: AbstractValue,
) -> Option<AbstractValue>
    ensures describes { IfSome result (DescribesResult width op a b) }
    ensures scalar { a.kind ≡ ValueKind.Number → b.kind ≡ ValueKind.Number → CertaintyHolds Scalar result }
    ensures moves { MovesPointer width op (Some a) (Some b) result }
{
    match (a.kind, b.kind) {
        (ValueKind::Number, ValueKind::Number) => Some(AbstractValue {
            kind: ValueKind::Number,
            offset: arithmetic::alu(width, op, a.offset, b.offset),
        }),
        (ValueKind::EntryOrNull(_), _) | (ValueKind::Map(_), _) => None,
        (_, ValueKind::Number) => moved(width, op, a, b),
        (ValueKind::Number, _) => added(width, op, a, b),
        _ => None,
    }
}

/// What is known of the result if the operands are a pointer and a number.
fn moved(width: Width, op: Operation, a: AbstractValue, b: AbstractValue) -> Option<AbstractValue>
    requires { b.kind ≡ ValueKind.Number }
    ensures moves { MovesPointer width op (Some a) (Some b) result }
    ensures describes { IfSome result (DescribesResult width op a b) }
{
    match (width, op) {
        (Width::W64, Operation::Add) => Some(AbstractValue {
            kind: a.kind,
            offset: arithmetic::alu(Width::W64, Operation::Add, a.offset, b.offset),
        }),
        (Width::W64, Operation::Sub) => Some(AbstractValue {
            kind: a.kind,
            offset: arithmetic::sub(Width::W64, a.offset, b.offset),
        }),
        _ => None,
    }
}

/// What is known of the result if a pointer is added to a number: the pointer, moved.
fn added(width: Width, op: Operation, a: AbstractValue, b: AbstractValue) -> Option<AbstractValue>
    requires { a.kind ≡ ValueKind.Number }
    ensures { IfSome result (DescribesResult width op a b) }
{
    match (width, op, b.kind) {
        (_, _, ValueKind::EntryOrNull(_) | ValueKind::Map(_)) => None,
        (Width::W64, Operation::Add, _) => Some(AbstractValue {
            kind: b.kind,
            offset: arithmetic::add(Width::W64, b.offset, a.offset),
        }),
        _ => None,
    }
}

/// The abstract state after an arithmetic instruction.
pub fn alu(
    state: &mut AbstractState,
    width: Width,
    op: Operation,
    dst: u8,
    src: Source,
) -> Result<(), Obligation>
    requires { dst < 10 }
    ensures transfers { OnOk result (TransfersEverywhere (Alu width op dst src) state.old state.new) }
    ensures obligations { IfErr result (λ obligation. MayBeUnproven obligation (Alu width op dst src)) }
    ensures accepts { IfReady state.old (Alu width op dst src) (IsOk result × CarriesFacts (Alu width op dst src) state.old state.new) }
{
    if op == Operation::Mov {
        return copy(state, width, dst, src);
    }
    operate(state, width, op, dst, src)
}

/// Changes the abstract state to the one after arithmetic that works on the word of the destination register. The error is the
/// obligation that is left unproven.
fn operate(
    state: &mut AbstractState,
    width: Width,
    op: Operation,
    dst: u8,
    src: Source,
) -> Result<(), Obligation>
    requires other { op ≢ Operation.Mov }
    requires below { dst < 10 }
    ensures transfers { OnOk result (TransfersEverywhere (Alu width op dst src) state.old state.new) }
    ensures obligations { IfErr result (λ obligation. MayBeUnproven obligation (Alu width op dst src)) }
    ensures accepts { CertaintyHoldsAt Scalar state.old dst → IsScalarOperand state.old src → IsOk result × IsGiven state.old state.new dst }
    ensures moves { (m : IsMoveOfPointer state.old width op dst src) → IsOk result × IsMade (Pointer ValueKind.Stack m.at) state.old state.new dst }
{
    let Some(right) = operand(state, src) else {
        return Err(Obligation::Unset);
    };
    let Some(left) = known(state, dst) else {
        return Err(Obligation::Unset);
    };
    let Some(word) = combine(width, op, left, right) else {
        return Err(Obligation::PointerUse);
    };
    let class = class_at(state, dst);
    set_register(state, dst, word);
    if let Some(more) = constant_added(width, op, left, right) {
        relate_sum(&mut state.classes, &mut state.related, dst, class, more);
    }
    Ok(())
}

/// The class of a register, or 0 if it has none.
fn class_at(state: &AbstractState, register: u8) -> u8
    requires { register < REGISTERS }
    ensures { result ≡ slice_index state.now.classes register }
{
    state.classes[usize::from(register)]
}

/// The constant that the instruction adds to a word, modulo 2^64; `None` if it adds no constant.
fn constant_added(
    width: Width,
    op: Operation,
    left: AbstractValue,
    right: AbstractValue,
) -> Option<u64>
    ensures { IfSome result (AddsConstant width op left right) }
{
    if left.kind != ValueKind::Number || right.kind != ValueKind::Number {
        return None;
    }
    if op != Operation::Add || !right.offset.is_single() {
        return None;
    }
    match width {
        Width::W64 => Some(right.offset.lo),
        Width::W32 => small_constant(left.offset, right.offset),
    }
}

/// The constant, if no sum with it has more than 32 bits.
fn small_constant(left: Range, right: Range) -> Option<u64>
    requires { right.lo ≡ right.hi }
    ensures { IfSome result (λ more. (x y : ℕ) → Within left x → Within right y → alu_result Width.W32 Operation.Add x y ≡ (x + more) % 2 ^ 64) }
{
    if right.hi > 0xffff_ffff || left.hi > 0xffff_ffff - right.hi {
        return None;
    }
    Some(right.lo)
}

/// Learns that the register is now its old word plus a constant, so it is related to the other places of its old class.
fn relate_sum(
    classes: &mut [u8],
    related: &mut [Option<Related>],
    register: u8,
    class: u8,
    more: u64,
)
    requires register { register < REGISTERS }
    requires room { length classes.old ≡ PLACES }
    requires few { length related.old ≡ RELATIONS }
    ensures { RelatesSum classes.old related.old classes.new related.new register class more }
{
    if class == 0 {
        return;
    }
    let left = class_of(classes, related, usize::from(register), class);
    let relation = Relation::Sum(more);
    relate(
        related,
        Related {
            left,
            right: class,
            relation,
        },
    );
}

/// The abstract state after a move.
fn copy(state: &mut AbstractState, width: Width, dst: u8, src: Source) -> Result<(), Obligation>
    requires { dst < 10 }
    ensures transfers { OnOk result (TransfersEverywhere (Alu width Operation.Mov dst src) state.old state.new) }
    ensures obligations { IfErr result (λ obligation. MayBeUnproven obligation (Alu width Operation.Mov dst src)) }
    ensures accepts { IsScalarOperand state.old src → IsOk result × IsGiven state.old state.new dst }
    ensures exact { OnOk result ((i : ℤ) → src ≡ Source.Imm i → width ≡ Width.W64 → IsMade (Exact (word_of i)) state.old state.new dst) }
    ensures copies { (m : IsCopyOfFrame state.old width Operation.Mov src) → IsOk result × IsMade (Pointer ValueKind.Stack m.base) state.old state.new dst }
{
    let Some(right) = operand(state, src) else {
        return Err(Obligation::Unset);
    };
    if src == Source::Reg(dst) && is_whole(width, right) {
        return Ok(());
    }
    let Some(word) = copied(width, right) else {
        return Err(Obligation::PointerUse);
    };
    set_register(state, dst, word);
    link_copy(
        &mut state.classes,
        &mut state.related,
        width,
        dst,
        src,
        right,
    );
    Ok(())
}

/// Makes the register a copy of another one, if it got the whole word.
fn link_copy(
    classes: &mut [u8],
    related: &mut [Option<Related>],
    width: Width,
    dst: u8,
    src: Source,
    word: AbstractValue,
)
    requires dst { dst < 10 }
    requires room { length classes.old ≡ PLACES }
    ensures { LinksCopy classes.old related.old classes.new related.new width dst src word }
{
    let Source::Reg(from) = src else {
        return;
    };
    if from == dst || from >= REGISTERS as u8 || !is_whole(width, word) {
        return;
    }
    link(classes, related, usize::from(dst), usize::from(from));
}

/// Whether a copy of this width has the whole word.
fn is_whole(width: Width, word: AbstractValue) -> bool
    ensures { IsTrue result → (shapes : List MapShape) (n : ℕ) → Describes shapes word n → alu_result width Operation.Mov 0 n ≡ n }
{
    match (width, word.kind) {
        (Width::W64, _) => true,
        (Width::W32, ValueKind::Number) => {
            if word.offset.hi > 0xffff_ffff {
                return false;
            }
            true
        }
        _ => false,
    }
}

/// What is known of a copy of this width.
fn copied(width: Width, word: AbstractValue) -> Option<AbstractValue>
    ensures describes { IfSome result (λ k. (shapes : List MapShape) (x y : ℕ) → Describes shapes word y → Describes shapes k (alu_result width Operation.Mov x y)) }
    ensures scalar { word.kind ≡ ValueKind.Number → CertaintyHolds Scalar result }
    ensures same { width ≡ Width.W64 → result ≡ Some word }
{
    match (width, word.kind) {
        (Width::W64, _) => Some(word),
        (Width::W32, ValueKind::Number) => Some(AbstractValue {
            kind: ValueKind::Number,
            offset: arithmetic::alu(width, Operation::Mov, word.offset, word.offset),
        }),
        _ => None,
    }
}
