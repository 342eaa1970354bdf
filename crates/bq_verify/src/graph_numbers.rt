//! One pass forwards counts the calls on the way to each slot, and one pass backwards measures the heights.
ghost use Rattle.std.specs.Prelude.{◌≡◌, ◌<◌, ◌≤◌, ◌+◌, ◌⊎◌, ℕ, ℤ, length, IfSome, IfNone, Some, None, slice_index_or, if◌then◌else◌};
ghost use Rattle.bq_insn.specs.Slots.{slots_of};
ghost use Rattle.bq_bpf.specs.Steps.{LeadsTo, instruction_at};
ghost use Rattle.bq_bpf.specs.Instructions.{distance_of, goes_on};
ghost use Rattle.bq_verify.specs.Edges.{IsStart};
ghost use Rattle.bq_verify.specs.Paths.{IsMostCalls, IsGreatest, PathOut, counter_calls_of};
ghost use Rattle.bq_verify.specs.Passes.{IsGraphSound, LeadsOut, Raises, CountsFollowed, Measured, height_to};

use crate::targets::{Targets, instruction, landing};
use bq_bpf::instruction::{distance, is_counter_call, may_go_on};
use bq_insn::{Insn, SLOTS};

/// The slot of the next instruction, if control may go on to it.
pub fn next_slot(slot: usize, insn: Insn) -> Option<usize>
    requires { slot < SLOTS }
    ensures { result ≡ (if goes_on insn then Some (slot + slots_of insn) else None) }
{
    if may_go_on(insn) {
        Some(slot + insn.slots())
    } else {
        None
    }
}

/// The slot to which a jump leads.
pub fn target(slots: &[Option<Insn>], slot: usize, insn: Insn, distance: i64) -> usize
    requires here { instruction_at slots.now slot ≡ Some insn }
    requires inside { slot < length slots.now }
    requires short { length slots.now ≤ SLOTS }
    requires sound { IsGraphSound slots.now }
    requires jumps { distance_of insn ≡ Some distance }
    ensures to { LeadsTo slot distance result }
    ensures within { result < length slots.now }
{
    let Some(to) = landing(slots, slot, distance) else {
        unreachable!()
    };
    to
}

/// The slot to which the instruction jumps, if it is a jump.
fn jump_slot(slots: &[Option<Insn>], slot: usize, insn: Insn) -> Option<usize>
    requires here { instruction_at slots.now slot ≡ Some insn }
    requires inside { slot < length slots.now }
    requires short { length slots.now ≤ SLOTS }
    requires sound { IsGraphSound slots.now }
    ensures some { IfSome result (λ to. (distance : ℤ) × (distance_of insn ≡ Some distance) × LeadsTo slot distance to) }
    ensures none { IfNone result (distance_of insn ≡ None) }
{
    let Some(distance) = distance(insn) else {
        return None;
    };
    Some(target(slots, slot, insn, distance))
}

/// The slots to which control may go from a slot.
pub fn find_targets(slots: &[Option<Insn>], slot: usize, insn: Insn) -> Targets
    requires here { instruction_at slots.now slot ≡ Some insn }
    requires inside { slot < length slots.now }
    requires short { length slots.now ≤ SLOTS }
    requires sound { IsGraphSound slots.now }
    ensures { LeadsOut slots.now slot result }
{
    Targets {
        next: next_slot(slot, insn),
        jump: jump_slot(slots, slot, insn),
    }
}

/// The number of counter calls that an instruction is: 1 or 0.
fn calls(insn: Insn) -> u32
    ensures { result ≡ counter_calls_of (Some insn) }
{
    if is_counter_call(insn) { 1 } else { 0 }
}

/// The number that the list has at a slot.
pub fn count_at(most: &[Option<u32>], slot: usize) -> Option<u32>
    requires { slot < length most.now }
    ensures { result ≡ slice_index_or most.now slot None }
{
    most[slot]
}

/// The greater of both numbers; `count` if there is no other.
fn greater(old: Option<u32>, count: u32) -> u32
    ensures count { count ≤ result }
    ensures old { IfSome old (λ n. n ≤ result) }
    ensures one { (result ≡ count) ⊎ (old ≡ Some result) }
{
    match old {
        Some(old) => old.max(count),
        None => count,
    }
}

/// Raises the number at slot `to` to `count`, if it is less or is not there.
fn raise(most: &mut [Option<u32>], to: Option<usize>, count: u32)
    requires { (k : ℕ) → to ≡ Some k → k < length most.old }
    ensures { Raises most.old to count most.new }
{
    let Some(to) = to else {
        return;
    };
    let old = count_at(most, to);
    most[to] = Some(greater(old, count));
}

/// Follows the edges from one slot.
fn pass_on(slots: &[Option<Insn>], slot: usize, most: &mut [Option<u32>])
    requires inside { slot < length slots.now }
    requires short { length slots.now ≤ SLOTS }
    requires sound { IsGraphSound slots.now }
    requires room { length most.old ≡ length slots.now }
    requires counted { CountsFollowed slots.now slot most.old }
    ensures { CountsFollowed slots.now (slot + 1) most.new }
{
    let Some(before) = count_at(most, slot) else {
        return;
    };
    let Some(insn) = instruction(slots, slot) else {
        return;
    };
    let count = before + calls(insn);
    let targets = find_targets(slots, slot, insn);
    raise(most, targets.next, count);
    raise(most, targets.jump, count);
}

/// Finds the greatest number of counter calls before each slot on a path from slot 0; `None` if no path leads there.
pub fn count_calls(slots: &[Option<Insn>], most: &mut [Option<u32>])
    requires some { 0 < length slots.now }
    requires short { length slots.now ≤ SLOTS }
    requires sound { IsGraphSound slots.now }
    requires room { length most.old ≡ length slots.now }
    requires blank { (k : ℕ) → slice_index_or most.old k None ≡ None }
    ensures { (k : ℕ) → IsMostCalls slots.now k (slice_index_or most.new k None) }
{
    most[0] = Some(0);
    for slot in 0..slots.len() {
        pass_on(slots, slot, most);
    }
}

/// The height of slot `to`; 0 if control goes nowhere.
fn height_at(heights: &[u32], to: Option<usize>) -> u32
    requires { (k : ℕ) → to ≡ Some k → k < length heights.now }
    ensures { result ≡ height_to heights.now to }
{
    match to {
        Some(to) => heights[to],
        None => 0,
    }
}

/// The number of instructions on the longest path from the slot to an EXIT, by the heights of later slots.
fn height(slots: &[Option<Insn>], slot: usize, heights: &[u32]) -> u32
    requires inside { slot < length slots.now }
    requires short { length slots.now ≤ SLOTS }
    requires sound { IsGraphSound slots.now }
    requires room { length heights.now ≡ length slots.now }
    requires measured { Measured slots.now (slot + 1) heights.now }
    ensures { IsStart slots.now slot → IsGreatest (PathOut slots.now slot) result }
{
    let Some(insn) = instruction(slots, slot) else {
        return 0;
    };
    let targets = find_targets(slots, slot, insn);
    let next = height_at(heights, targets.next);
    let jump = height_at(heights, targets.jump);
    1 + next.max(jump)
}

/// Finds the number of instructions on the longest path from each slot to an EXIT, both ends included. A wide
/// instruction counts once.
///
/// The number at slot 0 is the budget of the program.
pub fn measure(slots: &[Option<Insn>], heights: &mut [u32])
    requires short { length slots.now ≤ SLOTS }
    requires sound { IsGraphSound slots.now }
    requires room { length heights.old ≡ length slots.now }
    ensures { Measured slots.now 0 heights.new }
{
    for done in 0..slots.len() {
        let slot = slots.len() - 1 - done;
        heights[slot] = height(slots, slot, heights);
    }
}
