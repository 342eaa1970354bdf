//! What is known of one word, as text.
ghost use Rattle.std.specs.Prelude.{◌≡◌, ◌-◌, ◌^◌, ◌<◌, ◌++◌, ℕ, IfOk, count_by};
ghost use Rattle.std.specs.String.{string_bytes};
ghost use Rattle.bq_states.specs.AbstractStates.{Describes};
ghost use Rattle.bq_needs.specs.DescribedWords.{DescribesWord};
ghost use Rattle.bq_needs.specs.Texts.{below_text, between, is_shared, kind_text, known_text, map_name, minus_text, number_text, offset_text, range_text, same_shape, stack_pointer_text};

use bq_bpf::MapShape;
use bq_bpf::addresses::STACK_SIZE;
use bq_ranges::Range;
use bq_states::abstract_state::{AbstractValue, ValueKind};
use bq_states::places::shape_of;
use std::alloc::{AllocError, Global};

/// Words from here on are printed as numbers below zero.
const NEGATIVE: u64 = 1 << 63;

/// Writes one number, or both ends if they differ.
fn between(alloc: Global, first: u64, last: u64) -> Result<String, AllocError>
    ensures { IfOk result (λ text. string_bytes text ≡ between first last) }
{
    if first == last {
        return format!(in alloc; "{first}");
    }
    format!(in alloc; "{first}..{last}")
}

/// Writes the words of a range: its one word, or both ends.
pub fn range_text(alloc: Global, range: Range) -> Result<String, AllocError>
    ensures { IfOk result (λ text. string_bytes text ≡ range_text range) }
{
    between(alloc, range.lo, range.hi)
}

/// Says what is known of a word in a program of such maps: a number, or a pointer, by what it counts from and how far above or
/// below that it is. By contract, each word of which that is known is as the text says.
#[tactic(auto, using(crate::proofs::DescribedWordLemmas::describes_known))]
pub fn known_text(
    alloc: Global,
    shapes: &[MapShape],
    known: &AbstractValue,
) -> Result<String, AllocError>
    ensures text { IfOk result (λ text. string_bytes text ≡ known_text shapes.now known.now) }
    ensures describes { IfOk result (λ text. (word : ℕ) → Describes shapes.now known.now word → DescribesWord shapes.now (string_bytes text) word) }
{
    let text = kind_text(alloc, shapes, known.kind, known.offset)?;
    Ok(text)
}

/// Says what a word of the kind is, by the range of its offset.
pub(crate) fn kind_text(
    alloc: Global,
    shapes: &[MapShape],
    kind: ValueKind,
    range: Range,
) -> Result<String, AllocError>
    ensures { IfOk result (λ text. string_bytes text ≡ kind_text shapes.now kind range) }
{
    match kind {
        ValueKind::Number => number_text(alloc, range),
        ValueKind::Context => pointer_text(alloc, "context", range),
        ValueKind::Stack => stack_text(alloc, range),
        ValueKind::Entry(map) => {
            let name = map_name(alloc, shapes, map)?;
            let offset = offset_text(alloc, range)?;
            format!(in alloc; "entry of {name}{offset}")
        }
        ValueKind::EntryOrNull(map) => {
            let name = map_name(alloc, shapes, map)?;
            let offset = offset_text(alloc, range)?;
            format!(in alloc; "entry of {name} or null{offset}, not tested")
        }
        ValueKind::Map(map) => {
            let name = map_name(alloc, shapes, map)?;
            let offset = offset_text(alloc, range)?;
            format!(in alloc; "{name}{offset}")
        }
    }
}

/// Names a map by its number; if another map has its shape, says that it may be that one.
pub(crate) fn map_name(alloc: Global, shapes: &[MapShape], map: u8) -> Result<String, AllocError>
    ensures { IfOk result (λ text. string_bytes text ≡ map_name shapes.now map) }
{
    if is_shared(shapes, shape_of(shapes, map)) {
        format!(in alloc; "map {map} or a map like it")
    } else {
        format!(in alloc; "map {map}")
    }
}

/// Whether more than one of the maps has that shape.
fn is_shared(shapes: &[MapShape], shape: Option<MapShape>) -> bool
    ensures { result ≡ is_shared shapes.now shape }
{
    match shape {
        Some(shape) => count_of(shapes, shape) > 1,
        None => false,
    }
}

/// Counts the maps that have that shape.
fn count_of(shapes: &[MapShape], shape: MapShape) -> usize
    ensures { result ≡ count_by (same_shape shape) shapes.now }
{
    let mut count: usize = 0;
    for other in shapes {
        if is_same(shape, *other) {
            count += 1;
        }
    }
    count
}

fn is_same(shape: MapShape, other: MapShape) -> bool
    ensures { result ≡ same_shape shape other }
{
    shape.value_size == other.value_size && shape.entries == other.entries
}

/// Writes the range of a number; if nothing else is known of it, says so. A word of the upper half is below zero.
fn number_text(alloc: Global, range: Range) -> Result<String, AllocError>
    ensures { IfOk result (λ text. string_bytes text ≡ number_text range) }
{
    if range.lo == 0 && range.hi == u64::MAX {
        return String::from_str(alloc, "any number");
    }
    if range.lo < NEGATIVE {
        return range_text(alloc, range);
    }
    minus_text(alloc, below(range.lo), below(range.hi))
}

/// Writes numbers below zero by their distances from it, the furthest first; a distance of 0 is printed as 0.
fn minus_text(alloc: Global, far: u64, near: u64) -> Result<String, AllocError>
    ensures { IfOk result (λ text. string_bytes text ≡ minus_text far near) }
{
    if far == near {
        return format!(in alloc; "-{far}");
    }
    if near == 0 {
        return format!(in alloc; "-{far}..0");
    }
    format!(in alloc; "-{far}..-{near}")
}

/// Says how far a pointer is below what it counts from.
fn below_text(alloc: Global, far: u64, near: u64) -> Result<String, AllocError>
    ensures { IfOk result (λ text. string_bytes text ≡ below_text far near) }
{
    if far == near {
        return format!(in alloc; " - {far}");
    }
    let numbers = minus_text(alloc, far, near)?;
    format!(in alloc; " {numbers}")
}

/// Writes a pointer by its base and how far above the base it is; offsets beyond 2^63 are distances below the base.
fn pointer_text(alloc: Global, base: &str, range: Range) -> Result<String, AllocError>
    ensures { IfOk result (λ text. string_bytes text ≡ base.now ++ offset_text range) }
{
    let offset = offset_text(alloc, range)?;
    format!(in alloc; "{base}{offset}")
}

/// Says how far a pointer is above what it counts from, or below it.
fn offset_text(alloc: Global, range: Range) -> Result<String, AllocError>
    ensures { IfOk result (λ text. string_bytes text ≡ offset_text range) }
{
    if range.hi == 0 {
        return Ok(String::new(alloc));
    }
    if range.lo < NEGATIVE {
        let offset = range_text(alloc, range)?;
        return format!(in alloc; " + {offset}");
    }
    below_text(alloc, below(range.lo), below(range.hi))
}

/// Returns how far below its base a word is that is `offset` above the base by a sum that wraps.
fn below(offset: u64) -> u64
    requires { 0 < offset }
    ensures { result ≡ 2 ^ 64 - offset }
{
    u64::MAX - offset + 1
}

/// Writes a pointer into the stack by its distance from the end, at which r10 points.
fn stack_text(alloc: Global, range: Range) -> Result<String, AllocError>
    ensures { IfOk result (λ text. string_bytes text ≡ stack_pointer_text range) }
{
    if range.hi > STACK_SIZE {
        return pointer_text(alloc, "stack begin", range);
    }
    if range.lo == STACK_SIZE {
        return String::from_str(alloc, "stack end");
    }
    let distance = below_text(alloc, STACK_SIZE - range.lo, STACK_SIZE - range.hi)?;
    format!(in alloc; "stack end{distance}")
}
