//! What a branch shows about its operands is true of all places that hold the same words.

ghost use Rattle.std.specs.Prelude.{◌≡◌, ◌≢◌, ◌+◌, ◌^◌, ◌<◌, ◌≤◌, ℕ, List, Some, None, length, slice_index, slice_index_or};
ghost use Rattle.bq_bpf.specs.Memory.{Setting, State};
ghost use Rattle.bq_states.specs.Certainty.{Fact, Has, Certainty, CertaintyHolds};
ghost use Rattle.bq_states.specs.Learnt.{HasLearnt, HoldsRight, IsLasting, IsLastingWord, IsSharper, DescribesBranch, LearnsRelation, Sharpens, SharpensBy};
ghost use Rattle.bq_ranges.specs.Within.{Within};
ghost use Rattle.bq_bpf.specs.declared.shape.MapShape.{MapShape};
ghost use Rattle.bq_states.specs.AbstractStates.{Contains, Describes};

use crate::abstract_state::{AbstractState, AbstractValue, ValueKind};
use crate::copies::class_of;
use crate::relations::{RELATIONS, Related, Relation, relate};
use bq_insn::{REGISTERS, Source, Width};
use bq_ranges::Range;

/// Learns what a branch shows: what its two operands are, and how they are related. The right one may be a register.
pub fn learn_branch(
    state: &mut AbstractState,
    dst: u8,
    src: Source,
    left: AbstractValue,
    right: AbstractValue,
    relation: Relation,
)
    requires { dst < REGISTERS }
    ensures contains { (f : Setting) (s : State) → Contains f state.old s → DescribesBranch f s dst src left right relation → Contains f state.new s }
    ensures has { (x : Fact) → IsLasting x → HasLearnt x state.old dst left → Has x state.new }
{
    learn_relation(state, dst, src, relation);
    learn_right(state, src, right);
    sharpen(state, dst, left);
    state.registers[usize::from(dst)] = Some(left);
}

/// Learns how both operands are related, if the right one is a register.
fn learn_relation(state: &mut AbstractState, dst: u8, src: Source, relation: Relation)
    requires { dst < REGISTERS }
    ensures contains { LearnsRelation dst src relation state.old state.new }
    ensures has { (x : Fact) → Has x state.old → Has x state.new }
    ensures same { state.new.registers ≡ state.old.registers }
{
    let Source::Reg(register) = src else {
        return;
    };
    if register >= REGISTERS as u8 {
        return;
    }
    let left = class_of(&mut state.classes, &mut state.related, usize::from(dst), 0);
    let right = class_of(
        &mut state.classes,
        &mut state.related,
        usize::from(register),
        left,
    );
    relate(
        &mut state.related,
        Related {
            left,
            right,
            relation,
        },
    );
}

/// Learns what the right operand is, if it is a register.
fn learn_right(state: &mut AbstractState, src: Source, learnt: AbstractValue)
    ensures contains { (f : Setting) (s : State) → Contains f state.old s → HoldsRight s src (Describes f.shapes learnt) → Contains f state.new s }
    ensures has { (x : Fact) → IsLasting x → Has x state.old → Has x state.new }
{
    match src {
        Source::Imm(_) => {}
        Source::Reg(register) => {
            if register < REGISTERS as u8 {
                sharpen(state, register, learnt);
            }
        }
    }
}

/// Learns what the word of a register is, for the register and all its copies; words that are related to it become
/// sharper.
fn sharpen(state: &mut AbstractState, register: u8, learnt: AbstractValue)
    requires { register < REGISTERS }
    ensures contains { (f : Setting) (s : State) (n : ℕ) → Contains f state.old s → s.register register ≡ Some n → Describes f.shapes learnt n → Contains f state.new s }
    ensures has { (x : Fact) → IsLasting x → Has x state.old → Has x state.new }
{
    let register = usize::from(register);
    let class = state.classes[register];
    if class == 0 {
        state.registers[register] = sharper(state.registers[register], learnt);
        return;
    }
    sharpen_class(state, class, learnt);
    sharpen_related(state, class, learnt);
}

/// Learns what the word of a class is, for all places of the class.
fn sharpen_class(state: &mut AbstractState, class: u8, learnt: AbstractValue)
    ensures contains { Sharpens learnt class state.old state.new }
    ensures has { (x : Fact) → IsLasting x → Has x state.old → Has x state.new }
{
    if class == 0 {
        return;
    }
    sharpen_all(&mut state.registers, &state.classes, 0, class, learnt);
    sharpen_all(&mut state.kept, &state.classes, REGISTERS, class, learnt);
}

/// Learns what the word of a class shows about the words that are related to it.
fn sharpen_related(state: &mut AbstractState, class: u8, learnt: AbstractValue)
    ensures contains { Sharpens learnt class state.old state.new }
    ensures has { (x : Fact) → IsLasting x → Has x state.old → Has x state.new }
{
    if learnt.kind != ValueKind::Number {
        return;
    }
    for i in 0..RELATIONS {
        if let Some(known) = state.related[i] {
            sharpen_left(state, known, class, learnt.offset);
            sharpen_right(state, known, class, learnt.offset);
        }
    }
}

/// If the right word of a relation is the word of the class, learns what it shows about the left word.
fn sharpen_left(state: &mut AbstractState, known: Related, class: u8, learnt: Range)
    ensures contains { SharpensBy known learnt class state.old state.new }
    ensures has { (x : Fact) → IsLasting x → Has x state.old → Has x state.new }
{
    if known.right != class {
        return;
    }
    let before = word_of_class(state, known.left);
    if let Some(offset) = known.relation.left(before, learnt) {
        sharpen_class(state, known.left, number(offset));
    }
}

/// If the left word of a relation is the word of the class, learns what it shows about the right word.
fn sharpen_right(state: &mut AbstractState, known: Related, class: u8, learnt: Range)
    ensures contains { SharpensBy known learnt class state.old state.new }
    ensures has { (x : Fact) → IsLasting x → Has x state.old → Has x state.new }
{
    if known.left != class {
        return;
    }
    let before = word_of_class(state, known.right);
    let offset = known.relation.right(learnt, before);
    sharpen_class(state, known.right, number(offset));
}

/// A number of this range.
fn number(offset: Range) -> AbstractValue
    ensures kind { result.kind ≡ ValueKind.Number }
    ensures offset { result.offset ≡ offset }
{
    AbstractValue {
        kind: ValueKind::Number,
        offset,
    }
}

/// A range of the numbers that the word of a class may be.
fn word_of_class(state: &AbstractState, class: u8) -> Range
    ensures { (f : Setting) (s : State) (is : Contains f state.now s) → is.copies.0 class < 2 ^ 64 → Within result (is.copies.0 class) }
{
    if class == 0 {
        return Range::full(Width::W64);
    }
    for register in 0..REGISTERS {
        if state.classes[register] == class {
            return numbers_of(state.registers[register]);
        }
    }
    Range::full(Width::W64)
}

/// A range of the numbers that a word may be.
fn numbers_of(word: Option<AbstractValue>) -> Range
    ensures any { (n : ℕ) → n < 2 ^ 64 → word ≡ None → Within result n }
    ensures known { (shapes : List MapShape) (k : AbstractValue) (n : ℕ) → word ≡ Some k → Describes shapes k n → Within result n }
{
    let Some(word) = word else {
        return Range::full(Width::W64);
    };
    if word.kind != ValueKind::Number {
        return Range::full(Width::W64);
    }
    word.offset
}

/// Learns what the words at all places of the class are; `first` is the place of the first word in the list.
fn sharpen_all(
    words: &mut [Option<AbstractValue>],
    classes: &[u8],
    first: usize,
    class: u8,
    learnt: AbstractValue,
)
    requires { first + length words.old ≤ length classes.now }
    ensures sharper { (k : ℕ) → IsSharper learnt (slice_index_or words.old k None) (slice_index_or words.new k None) }
    ensures others { (k : ℕ) → slice_index classes.now (first + k) ≢ class → slice_index_or words.new k None ≡ slice_index_or words.old k None }
    ensures stands { (s : Certainty) (k : ℕ) → IsLastingWord s → CertaintyHolds s (slice_index_or words.old k None) → CertaintyHolds s (slice_index_or words.new k None) }
{
    for i in 0..words.len() {
        words[i] = sharper_in(class, classes[first + i], words[i], learnt);
    }
}

/// What is known of a word, sharpened by `learnt` if the place of the word is of the class.
fn sharper_in(
    class: u8,
    own: u8,
    known: Option<AbstractValue>,
    learnt: AbstractValue,
) -> Option<AbstractValue>
    ensures sharper { IsSharper learnt known result }
    ensures other { own ≢ class → result ≡ known }
    ensures stands { (s : Certainty) → IsLastingWord s → CertaintyHolds s known → CertaintyHolds s result }
{
    if own != class {
        return known;
    }
    sharper(known, learnt)
}

/// What is known of a word, sharpened by `learnt`; nothing if nothing was known.
fn sharper(known: Option<AbstractValue>, learnt: AbstractValue) -> Option<AbstractValue>
    ensures sharper { IsSharper learnt known result }
    ensures stands { (s : Certainty) → IsLastingWord s → CertaintyHolds s known → CertaintyHolds s result }
{
    let Some(word) = known else {
        return None;
    };
    match (word.kind, learnt.kind) {
        (ValueKind::Number, ValueKind::Number) => Some(AbstractValue {
            kind: ValueKind::Number,
            offset: word.offset.meet(learnt.offset),
        }),
        (ValueKind::EntryOrNull(_), ValueKind::Entry(_)) => Some(learnt),
        (ValueKind::EntryOrNull(_), ValueKind::Number) => Some(learnt),
        _ => Some(word),
    }
}
