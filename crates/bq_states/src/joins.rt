//! Where two ways meet: the join of what each knows.

ghost use Rattle.std.specs.Prelude.{◌≡◌, ◌≢◌, ℕ, true, IsTrue, None, Some, length, slice_index_or, false};
ghost use Rattle.bq_bpf.specs.Memory.{Setting, State};
ghost use Rattle.bq_states.specs.Certainty.{Fact, Has, Certainty, CertaintyHolds, KeepsCommonCertainties};
ghost use Rattle.bq_states.specs.AbstractStates.{Allows, AreAlike, Contains, IsBase};

use crate::abstract_state::{AbstractState, AbstractValue, ValueKind};
use crate::copies::keep_same;
use crate::parts::join_parts;
use crate::places::shape_of;
use crate::relations::keep_related;
use bq_bpf::MapShape;

/// The join: a value that describes each word which `a` or `b` describes, in a program with maps of these shapes; `None` if
/// nothing is known.
pub fn join(
    shapes: &[MapShape],
    a: Option<AbstractValue>,
    b: Option<AbstractValue>,
) -> Option<AbstractValue>
    ensures left { Allows shapes.now a result }
    ensures right { Allows shapes.now b result }
    ensures stands { (s : Certainty) → CertaintyHolds s a → CertaintyHolds s b → CertaintyHolds s result }
{
    let (Some(a), Some(b)) = (a, b) else {
        return None;
    };
    if a.kind != b.kind && !is_alike(shapes, a.kind, b.kind) {
        return join_answers(shapes, a, b);
    }
    Some(AbstractValue {
        kind: a.kind,
        offset: a.offset.hull(b.offset),
    })
}

/// Whether two kinds that differ only in their maps are alike: both are entries, both are untested answers, or both are
/// references, of maps with one shape.
fn is_alike(shapes: &[MapShape], a: ValueKind, b: ValueKind) -> bool
    ensures left { IsTrue result → (base : ℕ) → IsBase shapes.now b base → IsBase shapes.now a base }
{
    match (a, b) {
        (ValueKind::Entry(map), ValueKind::Entry(other)) => are_alike(shapes, map, other),
        (ValueKind::EntryOrNull(map), ValueKind::EntryOrNull(other)) => {
            are_alike(shapes, map, other)
        }
        (ValueKind::Map(map), ValueKind::Map(other)) => are_alike(shapes, map, other),
        _ => false,
    }
}

/// Whether two maps have the same shape.
fn are_alike(shapes: &[MapShape], map: u8, other: u8) -> bool
    ensures { IsTrue result → AreAlike shapes.now map other }
{
    let (Some(one), Some(other)) = (shape_of(shapes, map), shape_of(shapes, other)) else {
        return false;
    };
    is_same(&one, &other)
}

/// Whether both shapes are the same.
fn is_same(one: &MapShape, other: &MapShape) -> bool
    ensures { IsTrue result → one.now ≡ other.now }
{
    one == other
}

/// Joins two values of different kinds into an untested answer of a look-up. Each of the two may be an entry, an
/// untested answer in a map of the same shape, or 0, which is the answer if nothing is found.
fn join_answers(shapes: &[MapShape], a: AbstractValue, b: AbstractValue) -> Option<AbstractValue>
    requires { a.kind ≢ b.kind }
    ensures left { Allows shapes.now (Some a) result }
    ensures right { Allows shapes.now (Some b) result }
    ensures stands { (s : Certainty) → CertaintyHolds s (Some a) → CertaintyHolds s (Some b) → CertaintyHolds s result }
{
    let map = match (a.kind, b.kind) {
        (ValueKind::Entry(map), ValueKind::EntryOrNull(other))
            if map == other || are_alike(shapes, map, other) => map,
        (ValueKind::EntryOrNull(map), ValueKind::Entry(other))
            if map == other || are_alike(shapes, map, other) => map,
        (ValueKind::Entry(map) | ValueKind::EntryOrNull(map), ValueKind::Number)
            if b.offset.hi == 0 => map,
        (ValueKind::Number, ValueKind::Entry(map) | ValueKind::EntryOrNull(map))
            if a.offset.hi == 0 => map,
        _ => return None,
    };
    Some(AbstractValue {
        kind: ValueKind::EntryOrNull(map),
        offset: b.offset.hull(a.offset),
    })
}

/// Joins each value with the one at the same place of the other list.
fn join_all(
    shapes: &[MapShape],
    into: &mut [Option<AbstractValue>],
    other: &[Option<AbstractValue>],
)
    requires { length into.old ≡ length other.now }
    ensures left { (k : ℕ) → Allows shapes.now (slice_index_or into.old k None) (slice_index_or into.new k None) }
    ensures right { (k : ℕ) → Allows shapes.now (slice_index_or other.now k None) (slice_index_or into.new k None) }
    ensures stands { KeepsCommonCertainties into.old other.now into.new }
{
    for i in 0..into.len() {
        into[i] = join(shapes, into[i], other[i]);
    }
}

/// Keeps what is true in both lists.
fn keep_common(into: &mut [bool], other: &[bool])
    requires { length into.old ≡ length other.now }
    ensures left { (k : ℕ) → slice_index_or into.new k false ≡ true → slice_index_or into.old k false ≡ true }
    ensures right { (k : ℕ) → slice_index_or into.new k false ≡ true → slice_index_or other.now k false ≡ true }
    ensures both { (k : ℕ) → slice_index_or into.old k false ≡ true → slice_index_or other.now k false ≡ true → slice_index_or into.new k false ≡ true }
{
    for i in 0..into.len() {
        into[i] = into[i] & other[i];
    }
}

/// Joins an abstract state with another. The result describes every machine state that one of both described.
pub fn join_states(shapes: &[MapShape], into: &mut AbstractState, other: &AbstractState)
    ensures left { (f : Setting) (s : State) → f.shapes ≡ shapes.now → Contains f into.old s → Contains f into.new s }
    ensures right { (f : Setting) (s : State) → f.shapes ≡ shapes.now → Contains f other.now s → Contains f into.new s }
    ensures stands { (x : Fact) → Has x into.old → Has x other.now → Has x into.new }
{
    join_all(shapes, &mut into.registers, &other.registers);
    keep_common(&mut into.set, &other.set);
    join_all(shapes, &mut into.kept, &other.kept);
    join_parts(&mut into.parts, &other.parts);
    keep_same(&mut into.classes, &other.classes);
    keep_related(&mut into.related, &other.related);
}
