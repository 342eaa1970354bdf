//! Writes to the stack: which bytes are set after them, and what is forgotten.

ghost use Rattle.std.specs.Prelude.{◌≡◌, ◌+◌, ◌*◌, ◌<◌, ◌≤◌, ℕ, true, false, None, Some, length, slice_index_or};
ghost use Rattle.bq_insn.specs.Slots.{byte_count};
ghost use Rattle.bq_bpf.specs.Memory.{stack_size};
ghost use Rattle.bq_states.specs.Certainty.{IsStoredAt};
ghost use Rattle.bq_states.specs.AbstractStates.{AreSet, Forgets, Marks, Overwrites, keeping};

use crate::abstract_state::{AbstractState, AbstractValue, STACK_SLOTS};
use crate::copies::forget_slot_classes;
use crate::parts::forget_parts;
use bq_insn::Size;
use bq_ranges::Range;

/// Writes bytes at an unknown offset of the range. What was kept where they may lie is forgotten. If there is only one
/// offset, the bytes are set.
pub fn overwrite(state: &mut AbstractState, at: Range, size: Size)
    requires { at.hi + byte_count size ≤ stack_size }
    ensures long { length state.new.kept ≡ STACK_SLOTS }
    ensures stored { at.lo ≡ at.hi → IsStoredAt state.old state.new at.lo (at.hi + byte_count size) }
    ensures contains { Overwrites state.old state.new at (byte_count size) }
{
    let from = at.lo as usize;
    let to = at.hi as usize + size.bytes();
    forget(&mut state.kept, from, to);
    forget_parts(&mut state.parts, from, to);
    forget_slot_classes(&mut state.classes, from, to);
    if !at.is_single() {
        return;
    }
    mark(&mut state.set, from, to);
}

/// Keeps what is known of the word in a slot of eight bytes.
pub fn keep(state: &mut AbstractState, slot: usize, word: AbstractValue)
    requires { slot < STACK_SLOTS }
    ensures { state.new ≡ keeping state.old slot word }
{
    state.kept[slot] = Some(word);
}

/// Marks these bytes as set.
fn mark(set: &mut [bool], from: usize, to: usize)
    requires { to ≤ length set.old }
    ensures only { Marks set.old set.new from to }
    ensures marked { AreSet set.new from to }
    ensures kept { (i : ℕ) → slice_index_or set.old i false ≡ true → slice_index_or set.new i false ≡ true }
{
    for k in from..to {
        set[k] = true;
    }
}

/// Forgets the words in slots that have one of these bytes.
fn forget(kept: &mut [Option<AbstractValue>], from: usize, to: usize)
    requires { length kept.old ≤ STACK_SLOTS }
    ensures { Forgets kept.old kept.new from to }
{
    for j in 0..kept.len() {
        if j * 8 < to && from < j * 8 + 8 {
            kept[j] = None;
        }
    }
}
