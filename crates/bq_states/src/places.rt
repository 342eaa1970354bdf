//! How far a pointer reaches, and what may be read there.

ghost use Rattle.std.specs.Prelude.{Some, ◌↔◌, ◌≡◌, ◌+◌, ◌^◌, ◌<◌, ◌≤◌, ℕ, IsTrue, length, IfSome, false, true, slice_get, slice_index_or, None};
ghost use Rattle.bq_insn.specs.Slots.{byte_count};
ghost use Rattle.bq_ranges.specs.Within.{Within};
ghost use Rattle.bq_states.specs.AbstractStates.{bound_of, AcceptsSetBytes, AreSet, Bounds, FindsBytes};
ghost use Rattle.bq_states.specs.declared.abstract_state.ValueKind.TheVariants.{Stack};

use crate::abstract_state::{AbstractState, ValueKind};
use crate::registers::known;
use bq_bpf::MapShape;
use bq_bpf::addresses::STACK_SIZE;
use bq_insn::Size;
use bq_ranges::Range;

/// How many bytes the region has into which a pointer of this kind points; `None` if it may not be followed.
pub fn bound(kind: ValueKind, shapes: &[MapShape], context: usize) -> Option<usize>
    ensures bounds { IfSome result (Bounds shapes.now context kind) }
    ensures is { result ≡ bound_of shapes.now context kind }
    ensures small { context < 2 ^ 16 → IfSome result (λ bytes. bytes ≤ 65536) }
{
    match kind {
        ValueKind::Context => Some(context),
        ValueKind::Stack => Some(STACK_SIZE as usize),
        ValueKind::Entry(map) => {
            let Some(shape) = shape_of(shapes, map) else {
                return None;
            };
            Some(usize::from(shape.value_size))
        }
        _ => None,
    }
}

/// The shape of the map with this number; `None` if there is no such map.
pub fn shape_of(shapes: &[MapShape], map: u8) -> Option<MapShape>
    ensures { result ≡ slice_get shapes.now map }
{
    let map = usize::from(map);
    if map < shapes.len() {
        Some(shapes[map])
    } else {
        None
    }
}

/// Whether an access at each offset of the range stays below the bound.
pub fn stays(at: Range, size: Size, bound: usize) -> bool
    requires { bound < 2 ^ 32 }
    ensures { IsTrue result ↔ (at.hi + byte_count size ≤ bound) }
{
    let count = size.bytes();
    if bound < count {
        return false;
    }
    at.hi <= (bound - count) as u64
}

/// Whether an access at each offset of the range may read its bytes: on the stack all of them must be set.
pub fn is_readable(state: &AbstractState, kind: ValueKind, at: Range, size: Size) -> bool
    ensures stack { IsTrue result → kind ≡ Stack → (o i : ℕ) → Within at o → i < byte_count size → slice_index_or state.now.set (o + i) false ≡ true }
    ensures found { (kind ≡ Stack → at.hi + byte_count size ≤ STACK_SIZE) → (kind ≡ Stack → AreSet state.now.set at.lo (at.hi + byte_count size)) → IsTrue result }
{
    match kind {
        ValueKind::Stack => {
            if !stays(at, size, STACK_SIZE as usize) {
                return false;
            }
            is_set(state, at, size)
        }
        _ => true,
    }
}

/// Whether all stack bytes of an access at each offset of the range are set.
fn is_set(state: &AbstractState, at: Range, size: Size) -> bool
    requires { at.hi + byte_count size ≤ STACK_SIZE }
    ensures all { IsTrue result → (o i : ℕ) → Within at o → i < byte_count size → slice_index_or state.now.set (o + i) false ≡ true }
    ensures found { AreSet state.now.set at.lo (at.hi + byte_count size) → IsTrue result }
{
    all_set(&state.set, at.lo as usize, at.hi as usize + size.bytes())
}

/// Whether all of these bytes are set.
fn all_set(set: &[bool], from: usize, to: usize) -> bool
    requires { to ≤ length set.now }
    ensures all { IsTrue result → AreSet set.now from to }
    ensures found { AreSet set.now from to → IsTrue result }
{
    for k in from..to {
        if !set[k] {
            return false;
        }
    }
    true
}

/// Whether a register points to `size.bytes()` bytes that may be read.
pub fn reads(
    state: &AbstractState,
    shapes: &[MapShape],
    context: usize,
    register: u8,
    size: Size,
) -> bool
    requires { context < 2 ^ 16 }
    ensures finds { IsTrue result → FindsBytes shapes.now context state.now register (byte_count size) }
    ensures accepts { AcceptsSetBytes state.now register (byte_count size) result }
{
    let Some(base) = known(state, register) else {
        return false;
    };
    let Some(bound) = bound(base.kind, shapes, context) else {
        return false;
    };
    if bound > 0x1_0000 {
        return false;
    }
    if !stays(base.offset, size, bound) {
        return false;
    }
    is_readable(state, base.kind, base.offset, size)
}

/// Whether a register points to `count` bytes that may be read. `count` is at most 256.
pub fn reads_value(
    state: &AbstractState,
    shapes: &[MapShape],
    context: usize,
    register: u8,
    count: usize,
) -> bool
    requires context { context < 2 ^ 16 }
    requires count { count ≤ 256 }
    ensures finds { IsTrue result → FindsBytes shapes.now context state.now register count }
    ensures accepts { AcceptsSetBytes state.now register count result }
{
    let Some(base) = known(state, register) else {
        return false;
    };
    let Some(bound) = bound(base.kind, shapes, context) else {
        return false;
    };
    if bound > 0x1_0000 || bound < count || base.offset.hi > (bound - count) as u64 {
        return false;
    }
    match base.kind {
        ValueKind::Stack => stack_is_set(state, base.offset, count),
        _ => true,
    }
}

/// Whether this many stack bytes from each offset of the range on are set.
fn stack_is_set(state: &AbstractState, at: Range, count: usize) -> bool
    requires { count ≤ 256 }
    ensures all { IsTrue result → (o i : ℕ) → Within at o → i < count → slice_index_or state.now.set (o + i) false ≡ true }
    ensures found { at.hi + count ≤ STACK_SIZE → AreSet state.now.set at.lo (at.hi + count) → IsTrue result }
{
    if at.hi > STACK_SIZE - count as u64 {
        return false;
    }
    all_set(&state.set, at.lo as usize, at.hi as usize + count)
}
