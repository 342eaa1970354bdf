//! Abstract states that wait, each in a box, at the slots to which ways lead.

ghost use Rattle.std.specs.Prelude.{◌≡◌, ◌<◌, ℕ, true, None, length, slice_index_or, IfOk, OnOk};
ghost use Rattle.bq_bpf.specs.Memory.{Setting, State};
ghost use Rattle.bq_states.specs.Certainty.{Fact, Has};
ghost use Rattle.bq_verify.specs.Ways.{HasIn, HasWaiting, IsSureOf, KeepsFacts};
ghost use Rattle.bq_states.specs.AbstractStates.{Contains};
ghost use Rattle.bq_verify.specs.Control.{AddsWaiting, IsDescribed, IsKnown, KeepsWaiting};

use bq_bpf::MapShape;
use bq_states::abstract_state::AbstractState;
use bq_states::joins::join_states;
use std::alloc::{AllocError, Global};

/// A list with a place for each slot, where no abstract state waits yet.
pub fn nothing_waits(
    alloc: Global,
    count: usize,
) -> Result<Vec<Option<Box<AbstractState>>>, AllocError>
    ensures room { IfOk result (λ v. length v.items ≡ count) }
    ensures blank { IfOk result (λ v. (k : ℕ) → slice_index_or v.items k None ≡ None) }
{
    let mut pending = Vec::with_capacity(alloc, count)?;
    for _ in 0..count {
        pending.push(None)?;
    }
    Ok(pending)
}

/// Joins the abstract state that waits at the slot into the one that is transferred to the slot. The result says whether
/// anything is known there.
pub fn arrive(
    shapes: &[MapShape],
    state: &mut AbstractState,
    live: bool,
    pending: &mut [Option<Box<AbstractState>>],
    slot: usize,
) -> bool
    requires here { slot < length pending.old }
    ensures long { length pending.new ≡ length pending.old }
    ensures empty { slice_index_or pending.new slot None ≡ None }
    ensures known { (f : Setting) (s : State) → f.shapes ≡ shapes.now → IsKnown pending.old state.old live slot f s → IsKnown pending.new state.new result slot f s }
    ensures waits { (x : Fact) (k : ℕ) → HasWaiting x pending.old k → HasWaiting x pending.new k }
    ensures has { (x : Fact) → IsSureOf x pending.old state.old live slot slot → result ≡ true → Has x state.new }
{
    take_over(shapes, state, live, &mut pending[slot])
}

/// Joins the state that waits, if one does, into `state`; replaces `state` by it if nothing is known so far (`live` is false).
/// The result says whether anything is known then.
fn take_over(
    shapes: &[MapShape],
    state: &mut AbstractState,
    live: bool,
    waiting: &mut Option<Box<AbstractState>>,
) -> bool
    ensures empty { waiting.new ≡ None }
    ensures transferred { (f : Setting) (s : State) → f.shapes ≡ shapes.now → live ≡ true → Contains f state.old s → (result ≡ true) × Contains f state.new s }
    ensures waited { (f : Setting) (s : State) → f.shapes ≡ shapes.now → IsDescribed f waiting.old s → (result ≡ true) × Contains f state.new s }
    ensures has { (x : Fact) → (live ≡ true → Has x state.old) → HasIn x waiting.old → result ≡ true → Has x state.new }
{
    let Some(boxed) = waiting.take() else {
        return live;
    };
    if live {
        join_states(shapes, state, &boxed);
        return true;
    }
    *state = *boxed;
    true
}

/// Lets one more abstract state wait at a slot, joined with the one that waits there already, if one does.
pub fn wait(
    alloc: Global,
    shapes: &[MapShape],
    pending: &mut [Option<Box<AbstractState>>],
    slot: usize,
    state: &AbstractState,
) -> Result<(), AllocError>
    requires here { slot < length pending.old }
    ensures long { length pending.new ≡ length pending.old }
    ensures kept { OnOk result (KeepsWaiting shapes.now pending.old pending.new) }
    ensures added { OnOk result (AddsWaiting shapes.now slot (λ f. Contains f state.now) pending.new) }
    ensures has { OnOk result (KeepsFacts (λ x. Has x state.now) slot pending.old pending.new) }
{
    join(alloc, shapes, &mut pending[slot], state)
}

/// Joins one more abstract state into the one that waits, or makes it the one that waits.
fn join(
    alloc: Global,
    shapes: &[MapShape],
    waiting: &mut Option<Box<AbstractState>>,
    state: &AbstractState,
) -> Result<(), AllocError>
    ensures kept { OnOk result ((f : Setting) (s : State) → f.shapes ≡ shapes.now → IsDescribed f waiting.old s → IsDescribed f waiting.new s) }
    ensures added { OnOk result ((f : Setting) (s : State) → f.shapes ≡ shapes.now → Contains f state.now s → IsDescribed f waiting.new s) }
    ensures has { OnOk result ((x : Fact) → HasIn x waiting.old → Has x state.now → HasIn x waiting.new) }
{
    if let Some(boxed) = waiting {
        join_states(shapes, boxed, state);
        return Ok(());
    }
    *waiting = Some(Box::new(alloc, *state)?);
    Ok(())
}
