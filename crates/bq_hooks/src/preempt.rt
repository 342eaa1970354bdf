//! What a preempt policy is shown.
ghost use Rattle.std.specs.Prelude.{◌≡◌, ◌<◌, ◌^◌, length};
ghost use Rattle.std.specs.Option.{option_map};
ghost use Rattle.bq_disc.specs.Chains.{task_of};
ghost use Rattle.bq_disc.specs.Queues.{HasDistinctIds};
ghost use Rattle.bq_hooks.specs.Contexts.{as_number, preempt_bytes};

use crate::fields::{NOBODY, put_four, put_task, put_u32, put_u64};
use bq_disc::{Entity, Node, RunQueue};
use std::marker::Model;

/// The length of a preempt context, in bytes.
pub const PREEMPT_LENGTH: usize = 56;

/// A processor's queue, its current task, and whether that task gives way by the discipline's own choice.
#[derive(Drop)]
pub struct Preempt<'a, Q: RunQueue> {
    pub processor: u8,
    pub queue: &'a Q,
    pub current: &'a Entity,
    pub own: bool,
}

impl<'a, Q: RunQueue> Model for Preempt<'a, Q> {
    ghost use Rattle.bq_hooks.specs.Contexts.{PreemptFacts};

    ghost Value = { PreemptFacts };

    ghost view = { λ p. record { processor = p.processor; queue = Q.members p.queue.now; current = p.current.now; choice = Q.R.discipline.choice (Q.members p.queue.now); own = p.own } };
}

/// Fills the context of a preempt policy. It takes no memory.
pub fn preempt_ctx<Q: RunQueue>(facts: &Preempt<Q>, context: &mut [u8; PREEMPT_LENGTH])
    requires distinct { HasDistinctIds facts.now.queue }
    requires few { length facts.now.queue < 2 ^ 32 }
    ensures bytes { context.new ≡ preempt_bytes facts.now }
{
    let current = facts.current;
    put_four(
        context,
        0,
        u32::from(facts.processor),
        facts.queue.len() as u32,
        u32::from(current.id()),
        current.weight(),
    );
    put_u64(context, 16, current.v());
    put_u64(context, 24, current.deadline());
    put_task(context, 32, NOBODY, choice(facts.queue));
    put_u32(context, 48, as_number(facts.own));
    put_u32(context, 52, 0);
}

/// The task that the queue would choose if no task ran.
fn choice<Q: RunQueue>(queue: &Q) -> Option<&Node>
    requires distinct { HasDistinctIds (Q.members queue.now) }
    ensures { option_map (λ n. task_of n.now) result ≡ Q.R.discipline.choice (Q.members queue.now) }
{
    queue.get(queue.choice(None)?)
}

/// An answer as a policy gives it: 1 if the task gives way, else 0.
fn as_number(own: bool) -> u32
    ensures { result ≡ as_number own }
{
    u32::from(own)
}
