//! Decides whether what is known of its pointer shows an access to be good, and says in words why not.
ghost use Rattle.std.specs.Prelude.{◌≡◌, ◌↔◌, ◌<◌, ◌≤◌, ◌+◌, IfOk, IfNone, IsTrue, MatchBool, MatchOption, Some, false, true, string_bytes};
ghost use Rattle.bq_needs.specs.Accesses.{AreBytesSet, BeginsIn, MayBeFollowed, GoesBeyond, IsMoved, IsAccessShown, Lacks, ReachesLast, StaysBelow, DescribesBegin, TouchesUnset, Wraps, across_text, access_begin, lack_text, may_be_null, pointed_place_text, pointer_register_text};

use crate::known::{kind_text, known_text, map_name};
use crate::memory_access::MemoryAccess;
use bq_bpf::addresses::STACK_SIZE;
use bq_bpf::words::address;
use bq_bpf::{MapShape, with_stack_size};
use bq_policy_file::PolicySource;
use bq_ranges::Range;
use bq_states::abstract_state::{AbstractState, AbstractValue, ValueKind};
use bq_states::places::shape_of;
use std::alloc::{AllocError, Global};

/// Why what is known of its pointer does not show an access to be good.
#[derive(Clone, Copy)]
pub enum Lack {
    /// The pointer is a number.
    Number,
    /// It is the answer of a look-up, which may be 0.
    Answer,
    /// It is the answer of a look-up, which may be 0, and on some way a number was added to it.
    MovedAnswer,
    /// It is the reference of a map.
    Reference,
    /// The access writes the context.
    WritesContext,
    /// It goes beyond the context.
    BeyondContext,
    /// It goes beyond the stack.
    BeyondStack,
    /// It reads bytes of the stack that may be unset.
    ReadsUnset,
    /// It goes beyond a value of that map, which has this many bytes.
    BeyondValue(u8, u16),
    /// It goes into a map that does not exist.
    InNoMap,
}

/// Finds why what is known of its pointer does not show the access to be good; `None` if it does.
pub(crate) fn lack_of(
    policy: &PolicySource,
    state: &AbstractState,
    access: MemoryAccess,
    pointer: AbstractValue,
) -> Option<Lack>
    requires { access.bytes ≤ 256 }
    ensures { MatchOption result (IsAccessShown policy.now state.now access pointer) (Lacks policy.now state.now access pointer) }
{
    match pointer.kind {
        ValueKind::Number => Some(Lack::Number),
        ValueKind::EntryOrNull(_) if pointer.offset.hi > 0 => Some(Lack::MovedAnswer),
        ValueKind::EntryOrNull(_) => Some(Lack::Answer),
        ValueKind::Map(_) => Some(Lack::Reference),
        ValueKind::Context => context_lack(policy, state, access, pointer),
        ValueKind::Stack => stack_lack(policy, state, access, pointer),
        ValueKind::Entry(map) => value_lack(policy, state, access, pointer, map),
    }
}

/// Finds why a pointer into the context, which is only read, does not show the access to be good; `None` if it does.
#[tactic(auto, using(crate::proofs::AccessLemmas::shown_in_context))]
fn context_lack(
    policy: &PolicySource,
    state: &AbstractState,
    access: MemoryAccess,
    pointer: AbstractValue,
) -> Option<Lack>
    requires few { access.bytes ≤ 256 }
    requires kind { pointer.kind ≡ ValueKind.Context }
    ensures { MatchOption result (IsAccessShown policy.now state.now access pointer) (Lacks policy.now state.now access pointer) }
{
    if access.writes {
        return Some(Lack::WritesContext);
    }
    let length = policy.form.context_length();
    if stays(access, pointer.offset, length) {
        None
    } else {
        Some(Lack::BeyondContext)
    }
}

/// Finds why a pointer into the stack, of which only set bytes are read, does not show the access to be good; `None` if it does.
#[tactic(auto, using(crate::proofs::AccessLemmas::written_on_stack, crate::proofs::AccessLemmas::read_from_stack))]
fn stack_lack(
    policy: &PolicySource,
    state: &AbstractState,
    access: MemoryAccess,
    pointer: AbstractValue,
) -> Option<Lack>
    requires few { access.bytes ≤ 256 }
    requires kind { pointer.kind ≡ ValueKind.Stack }
    ensures { MatchOption result (IsAccessShown policy.now state.now access pointer) (Lacks policy.now state.now access pointer) }
{
    if !stays(access, pointer.offset, STACK_SIZE as usize) {
        return Some(Lack::BeyondStack);
    }
    if access.writes {
        return None;
    }
    if touches_set(state, access, pointer.offset) {
        None
    } else {
        Some(Lack::ReadsUnset)
    }
}

/// Finds why a pointer into a value of that map does not show the access to be good; `None` if it does.
#[tactic(auto, using(crate::proofs::AccessLemmas::shown_in_value))]
fn value_lack(
    policy: &PolicySource,
    state: &AbstractState,
    access: MemoryAccess,
    pointer: AbstractValue,
    map: u8,
) -> Option<Lack>
    requires few { access.bytes ≤ 256 }
    requires kind { pointer.kind ≡ ValueKind.Entry map }
    ensures { MatchOption result (IsAccessShown policy.now state.now access pointer) (Lacks policy.now state.now access pointer) }
{
    let Some(shape) = shape_of(policy.form.shapes.as_slice(), map) else {
        return Some(Lack::InNoMap);
    };
    if stays(access, pointer.offset, usize::from(shape.value_size)) {
        None
    } else {
        Some(Lack::BeyondValue(map, shape.value_size))
    }
}

/// Whether all bytes of the access lie below the bound, with each offset that its pointer may have.
#[tactic(auto, using(crate::proofs::AccessLemmas::all_below, crate::proofs::AccessLemmas::last_beyond, crate::proofs::AccessLemmas::greatest_beyond))]
fn stays(access: MemoryAccess, offsets: Range, bound: usize) -> bool
    requires few { access.bytes ≤ 256 }
    requires small { bound < 65536 }
    ensures { MatchBool result (StaysBelow access offsets bound) (GoesBeyond access offsets bound) }
{
    let Some(at) = moved(offsets, access.off) else {
        return false;
    };
    if bound < access.bytes {
        return false;
    }
    at.hi <= (bound - access.bytes) as u64
}

/// Whether all bytes of the stack that the access may touch are known to be set.
fn touches_set(state: &AbstractState, access: MemoryAccess, offsets: Range) -> bool
    requires few { access.bytes ≤ 256 }
    requires inside { StaysBelow access offsets STACK_SIZE }
    ensures { MatchBool result (AreBytesSet state.now.set (access_begin access offsets.lo) (access_begin access offsets.hi + access.bytes)) (TouchesUnset state.now access offsets) }
{
    let first = address(offsets.lo, access.off) as usize;
    let past = address(offsets.hi, access.off) as usize + access.bytes;
    for byte in first..past {
        if !state.set[byte] {
            return false;
        }
    }
    true
}

/// Moves the range by this distance; None if one of its words would then be beyond the greatest word.
fn moved(offsets: Range, off: i16) -> Option<Range>
    ensures range { MatchOption result (ReachesLast off offsets) (IsMoved off offsets) }
    ensures wraps { IfNone result (Wraps off offsets) }
{
    let lo = address(offsets.lo, off);
    let hi = address(offsets.hi, off);
    if lo <= hi {
        Some(Range { lo, hi })
    } else {
        None
    }
}

/// Says where the access begins, by what is known of its pointer.
#[tactic(auto, using(crate::proofs::AccessLemmas::describes_counted, crate::proofs::AccessLemmas::describes_register, crate::proofs::AccessLemmas::describes_across))]
pub(crate) fn begin_text(
    alloc: Global,
    shapes: &[MapShape],
    access: MemoryAccess,
    pointer: AbstractValue,
) -> Result<String, AllocError>
    ensures { IfOk result (λ text. DescribesBegin shapes.now access pointer (string_bytes text)) }
{
    if !is_followed(pointer.kind) {
        return register_text(alloc, shapes, access.register, pointer);
    }
    match begin_range(access, pointer) {
        Some(at) => kind_text(alloc, shapes, pointer.kind, at),
        None => across_text(alloc, shapes, access, pointer),
    }
}

/// Says where an access begins that may begin below or above what its pointer counts from: `context -7..0`.
fn across_text(
    alloc: Global,
    shapes: &[MapShape],
    access: MemoryAccess,
    pointer: AbstractValue,
) -> Result<String, AllocError>
    ensures { IfOk result (λ text. string_bytes text ≡ across_text shapes.now access pointer) }
{
    let place = place_text(alloc, shapes, pointer.kind)?;
    let below = address(pointer.offset.lo, access.off).wrapping_neg();
    let above = address(pointer.offset.hi, access.off);
    format!(in alloc; "{place} -{below}..{above}")
}

/// Names what a pointer that may be followed counts from.
fn place_text(alloc: Global, shapes: &[MapShape], kind: ValueKind) -> Result<String, AllocError>
    ensures { IfOk result (λ text. string_bytes text ≡ pointed_place_text shapes.now kind) }
{
    match kind {
        ValueKind::Entry(map) => {
            let name = map_name(alloc, shapes, map)?;
            format!(in alloc; "entry of {name}")
        }
        ValueKind::Stack => String::from_str(alloc, "stack begin"),
        _ => String::from_str(alloc, "context"),
    }
}

/// Finds at what offsets the access begins; None if its pointer may not be followed or no range has them.
fn begin_range(access: MemoryAccess, pointer: AbstractValue) -> Option<Range>
    ensures { BeginsIn access pointer result }
{
    if is_followed(pointer.kind) {
        moved(pointer.offset, access.off)
    } else {
        None
    }
}

/// Says the register and what is known of it; if it is the answer of a look-up, that it may be null.
pub(crate) fn register_text(
    alloc: Global,
    shapes: &[MapShape],
    register: u8,
    known: AbstractValue,
) -> Result<String, AllocError>
    ensures { IfOk result (λ text. string_bytes text ≡ pointer_register_text shapes.now register known) }
{
    if may_be_null(known.kind) {
        return format!(in alloc; "r{register}, which may be null");
    }
    let described = known_text(alloc, shapes, &known)?;
    format!(in alloc; "r{register}, which is {described}")
}

/// Whether the word is the answer of a look-up, before its test.
pub(crate) fn may_be_null(kind: ValueKind) -> bool
    ensures { result ≡ may_be_null kind }
{
    match kind {
        ValueKind::EntryOrNull(_) => true,
        _ => false,
    }
}

/// Whether a pointer of the kind may be followed.
fn is_followed(kind: ValueKind) -> bool
    ensures { IsTrue result ↔ MayBeFollowed kind }
{
    matches!(
        kind,
        ValueKind::Context | ValueKind::Stack | ValueKind::Entry(_)
    )
}

/// Says why an access is not good.
pub(crate) fn lack_text(
    alloc: Global,
    policy: &PolicySource,
    lack: Lack,
) -> Result<String, AllocError>
    ensures { IfOk result (λ text. string_bytes text ≡ lack_text policy.now lack) }
{
    match lack {
        Lack::Number => String::from_str(alloc, "a number is no address"),
        Lack::Answer => String::from_str(alloc, "test it first"),
        Lack::MovedAnswer => String::from_str(
            alloc,
            "an answer to which a number was added can't be tested",
        ),
        Lack::Reference => String::from_str(
            alloc,
            "the reference of a map is no address of its values",
        ),
        Lack::WritesContext => String::from_str(alloc, "the context is only read"),
        Lack::BeyondContext => context_text(alloc, policy),
        Lack::BeyondStack => String::from_str(
            alloc,
            with_stack_size!("the stack has the ", " bytes below r10"),
        ),
        Lack::ReadsUnset => String::from_str(
            alloc,
            "on some path that leads here not all of these bytes are known to be written",
        ),
        Lack::BeyondValue(map, size) => {
            format!(in alloc; "a value of map {map} has {size} bytes, and an access stays in one")
        }
        Lack::InNoMap => String::from_str(alloc, "an access stays in one value"),
    }
}

/// Says how long the policy's context is.
fn context_text(alloc: Global, policy: &PolicySource) -> Result<String, AllocError>
    ensures { IfOk result (λ text. string_bytes text ≡ lack_text policy.now Lack.BeyondContext) }
{
    let hook = policy.form.hook.word();
    let version = policy.form.version.number();
    let length = policy.form.context_length();
    format!(in alloc; "the context of {hook}, version {version}, has {length} bytes")
}
