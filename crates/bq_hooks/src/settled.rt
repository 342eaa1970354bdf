//! Settled choices: a policy's answer if it is permitted, else the discipline's own.
ghost use Rattle.std.specs.Prelude.{◌≡◌, ◌<◌, ◌≤◌, ◌^◌, true};
ghost use Rattle.bq_disc.specs.Movable.{is_movable_to};
ghost use Rattle.bq_hooks.specs.Contexts.{as_number, or_nobody};
ghost use Rattle.bq_hooks.specs.Permitted.{may_place, may_preempt, may_pull, task_numbered};
ghost use Rattle.bq_hooks.specs.Settled.{settled};

use crate::fields;
use bq_disc::limits::PROCESSORS;
use bq_disc::{Entity, RunQueue};

/// A pull policy's answer that no task is to be taken.
const NOBODY: u64 = fields::NOBODY as u64;

/// Who made a choice.
#[derive(Clone, Copy, Debug, PartialEq, Eq)]
pub enum By {
    /// The policy of the hook, by an answer that is permitted.
    Policy,
    /// The discipline: no policy was asked, or its answer is not permitted.
    Discipline,
}

/// A choice, and who made it.
#[derive(Clone, Copy, Debug, PartialEq, Eq)]
pub struct Choice<T> {
    /// What was chosen.
    pub value: T,
    /// Who chose it.
    pub by: By,
}

impl<T> Choice<T> {
    /// What a policy chose.
    fn of_policy(value: T) -> Choice<T>
        ensures { result ≡ record { value = value; by = By.Policy } }
    {
        Choice {
            value,
            by: By::Policy,
        }
    }

    /// What the discipline chose.
    fn of_discipline(value: T) -> Choice<T>
        ensures { result ≡ record { value = value; by = By.Discipline } }
    {
        Choice {
            value,
            by: By::Discipline,
        }
    }
}

/// The processor to which a woken task goes. It is the one that the policy named, `r0`, if that is one of the first
/// `processors` and in the task's mask; else the discipline's own choice.
pub fn settle_place(r0: Option<u64>, processors: usize, task: &Entity, own: u8) -> Choice<u8>
    requires few { processors ≤ PROCESSORS }
    ensures value { result.value ≡ (settled (may_place processors task.now) r0 own).choice }
    ensures by { result.by ≡ (settled (may_place processors task.now) r0 own).by }
{
    match r0 {
        Some(place) if place < processors as u64 && task.can_use(place as u8) => {
            Choice::of_policy(place as u8)
        }
        _ => Choice::of_discipline(own),
    }
}

/// The choice whether the current task gives way: the answer `r0` of the policy, if that is 0 or 1; otherwise the discipline's
/// own.
pub fn settle_preempt(r0: Option<u64>, own: bool) -> Choice<bool>
    ensures value { as_number result.value ≡ (settled may_preempt r0 (as_number own)).choice }
    ensures by { result.by ≡ (settled may_preempt r0 (as_number own)).by }
{
    match r0 {
        Some(0) => Choice::of_policy(false),
        Some(1) => Choice::of_policy(true),
        _ => Choice::of_discipline(own),
    }
}

/// The task that is taken from the queue, if any. If the policy named a task that may go to the puller, `r0`, it is that
/// one. If the policy named nobody, 4294967295, no task is taken. Else it is the discipline's own choice.
pub fn settle_pull<Q: RunQueue>(
    r0: Option<u64>,
    queue: &Q,
    puller: u8,
    own: Option<u16>,
) -> Choice<Option<u16>>
    requires { puller < PROCESSORS }
    ensures value { result.value ≡ task_numbered (settled (may_pull puller (Q.members queue.now)) r0 (or_nobody own)).choice }
    ensures by { result.by ≡ (settled (may_pull puller (Q.members queue.now)) r0 (or_nobody own)).by }
{
    match r0 {
        Some(NOBODY) => Choice::of_policy(None),
        Some(id) if may_go(id, queue, puller) => Choice::of_policy(Some(id as u16)),
        _ => Choice::of_discipline(own),
    }
}

/// Whether this is the id of a task of the queue that may go to the puller.
#[tactic(auto, using(crate::proofs::IdLemmas::not_movable_beyond_ids))]
fn may_go<Q: RunQueue>(id: u64, queue: &Q, puller: u8) -> bool
    requires { puller < PROCESSORS }
    ensures value { result ≡ is_movable_to puller id (Q.members queue.now) }
    ensures fits { result ≡ true → id < 2 ^ 16 }
{
    let low = (id % (1 << 16)) as u16;
    queue.is_movable(low, puller) && u64::from(low) == id
}
