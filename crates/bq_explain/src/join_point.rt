//! Join points: the places where ways meet on which a register holds different words.
ghost use Rattle.std.specs.Prelude.{◌<◌, ◌≤◌, length};
ghost use Rattle.bq_verify.specs.Passes.{IsGraphSound};
ghost use Rattle.bq_explain.specs.Makers.{CanBeWalked};

use crate::after::known_after;
use crate::program_point::{ProgramPoint, place_at};
use crate::ways::{Walk, find_reaching, is_marked, spares};
use bq_bpf::MapShape;
use bq_insn::{Insn, SLOTS};
use bq_states::abstract_state::{AbstractValue, ValueKind};
use bq_states::places::shape_of;
use bq_states::registers::known;
use bq_verify::KnownStates;
use bq_verify::graph_numbers::find_targets;
use bq_verify::targets::instruction;
use std::alloc::{AllocError, Global};

/// The most slots at which the ways that meet are compared.
const TRIED: usize = 4;

/// A join of two ways on which a register holds different words.
#[derive(Clone, Copy)]
pub struct JoinPoint {
    pub register: u8,
    /// The slot where the two ways meet.
    pub slot: usize,
    /// What is known of the register at that slot.
    pub known: Option<AbstractValue>,
    /// The first of the two ways.
    pub first: IncomingWay,
    /// The second of the two ways.
    pub second: IncomingWay,
}

/// A way into a slot: the instruction that it comes from, and what a register is known to be after that instruction.
#[derive(Clone, Copy)]
pub struct IncomingWay {
    pub place: ProgramPoint,
    pub known: AbstractValue,
}

/// Finds the last slot up to `slot` where two ways meet on which the register holds different words. Between there and `slot` no
/// instruction writes the register.
pub(crate) fn find_join_point(
    alloc: Global,
    walk: &Walk<'_>,
    register: u8,
    slot: usize,
) -> Result<Option<JoinPoint>, AllocError>
    requires walkable { CanBeWalked walk.now.slots.now }
    requires inside { slot < length walk.now.slots.now }
{
    let reaching = find_reaching(alloc, walk, register, slot)?;
    let mut tried: usize = 0;
    for back in 0..slot {
        let here = slot - back;
        let is_on_way = here == slot
            || (is_marked(reaching.as_slice(), here) && spares(walk.slots, register, here));
        if tried < TRIED && is_on_way {
            let from = find_predecessors(alloc, walk.slots, here)?;
            if from.len() > 1 {
                tried = tried.saturating_add(1);
                let incoming_ways = find_incoming_ways(
                    alloc,
                    walk,
                    from.as_slice(),
                    here,
                    register,
                )?;
                if let Some(pair) = find_differing(
                    walk.policy.form.shapes.as_slice(),
                    incoming_ways.as_slice(),
                ) {
                    let known = known_at(walk.states, here, register);
                    return Ok(Some(pair.join_at(register, here, known)));
                }
            }
        }
    }
    Ok(None)
}

/// Lists the slots from which control may go to the slot `to`.
fn find_predecessors(
    alloc: Global,
    slots: &[Option<Insn>],
    to: usize,
) -> Result<Vec<usize>, AllocError>
    requires short { length slots.now ≤ SLOTS }
    requires sound { IsGraphSound slots.now }
{
    let mut from = Vec::new(alloc);
    for slot in 0..slots.len() {
        if is_edge(slots, slot, to) {
            from.push(slot)?;
        }
    }
    Ok(from)
}

/// Whether control may go from the first slot to the second.
fn is_edge(slots: &[Option<Insn>], from: usize, to: usize) -> bool
    requires inside { from < length slots.now }
    requires short { length slots.now ≤ SLOTS }
    requires sound { IsGraphSound slots.now }
{
    let Some(insn) = instruction(slots, from) else {
        return false;
    };
    let targets = find_targets(slots, from, insn);
    is_to(targets.next, to) || is_to(targets.jump, to)
}

/// Whether the target is the slot `to`.
fn is_to(target: Option<usize>, to: usize) -> bool {
    match target {
        Some(slot) => slot == to,
        None => false,
    }
}

/// Lists the ways from these slots into the slot `to` on which something is known of the register.
fn find_incoming_ways(
    alloc: Global,
    walk: &Walk<'_>,
    from: &[usize],
    to: usize,
    register: u8,
) -> Result<Vec<IncomingWay>, AllocError> {
    let mut incoming_ways = Vec::new(alloc);
    for slot in from {
        let known = known_behind(walk, *slot, to, register);
        if let (Some(place), Some(known)) = (place_at(walk.policy, walk.slots, *slot), known) {
            incoming_ways.push(IncomingWay { place, known })?;
        }
    }
    Ok(incoming_ways)
}

/// Finds what is known of the register on the step from the one slot to the other.
pub(crate) fn known_behind(
    walk: &Walk<'_>,
    from: usize,
    to: usize,
    register: u8,
) -> Option<AbstractValue> {
    let state = known_after(&walk.policy.form, walk.slots, walk.states, from, to)?;
    known(&state, register)
}

/// Finds what is known of the register at the slot.
pub(crate) fn known_at(states: &KnownStates, slot: usize, register: u8) -> Option<AbstractValue> {
    known(states.at(slot)?, register)
}

/// Pairs the first way with the next one on which the register holds a different word; None if it holds the same word on all.
fn find_differing(shapes: &[MapShape], incoming_ways: &[IncomingWay]) -> Option<WayPair> {
    let [first, rest @ ..] = incoming_ways else {
        return None;
    };
    for second in rest {
        if differ(shapes, first.known, second.known) {
            return Some(WayPair {
                first: *first,
                second: *second,
            });
        }
    }
    None
}

/// Two ways on which a register holds different words.
#[derive(Clone, Copy)]
struct WayPair {
    first: IncomingWay,
    second: IncomingWay,
}

impl WayPair {
    /// Makes the join point of the two ways at the slot, where `known` is known of the register.
    fn join_at(self, register: u8, slot: usize, known: Option<AbstractValue>) -> JoinPoint {
        JoinPoint {
            register,
            slot,
            known,
            first: self.first,
            second: self.second,
        }
    }
}

/// Whether different things are known of two words; maps of one shape make no difference.
fn differ(shapes: &[MapShape], one: AbstractValue, other: AbstractValue) -> bool {
    !is_of_one_kind(shapes, one.kind, other.kind)
        || one.offset.lo != other.offset.lo
        || one.offset.hi != other.offset.hi
}

/// Whether both words count from one thing, or from like things of two maps of one shape.
fn is_of_one_kind(shapes: &[MapShape], one: ValueKind, other: ValueKind) -> bool {
    match (one, other) {
        (ValueKind::Entry(map), ValueKind::Entry(like))
        | (ValueKind::EntryOrNull(map), ValueKind::EntryOrNull(like))
        | (ValueKind::Map(map), ValueKind::Map(like)) => {
            shape_of(shapes, map) == shape_of(shapes, like)
        }
        _ => one == other,
    }
}
