//! What a pull policy is shown.
ghost use Rattle.std.specs.Prelude.{◌≡◌, ◌<◌, ◌+◌, ◌*◌, slice_get, Option, option_and_then};
ghost use Rattle.std.specs.Option.{option_map};
ghost use Rattle.bq_disc.specs.Chains.{task_of};
ghost use Rattle.bq_disc.specs.Tasks.{find_task};
ghost use Rattle.bq_disc.specs.Queues.{HasDistinctIds};
ghost use Rattle.bq_disc.specs.Movable.{movable_to};
ghost use Rattle.bq_hooks.specs.Contexts.{pull_bytes, or_nobody};

use crate::fields::{NOBODY, put_four, put_task};
use bq_disc::limits::PROCESSORS;
use bq_disc::{Node, RunQueue};

/// The length of a pull context, in bytes.
pub const PULL_LENGTH: usize = 160;

/// The most movable tasks that a pull context shows.
pub const SHOWN: usize = 8;

/// The position of the number of movable tasks in a pull context.
pub const MOVABLE_AT: usize = 16;

/// The position of the number of tasks that the context shows.
pub const SHOWN_AT: usize = MOVABLE_AT + 4;

/// The position of the first task that the context shows.
pub const TASKS_AT: usize = 32;

/// The length of each task that the context shows, in bytes.
pub const TASK_LENGTH: usize = 16;

/// A processor that may take a task, the processor from whose queue it would be taken, how many tasks run or wait at each,
/// and the discipline's own choice.
#[derive(Drop)]
pub struct Pull<'a, Q: RunQueue> {
    pub puller: u8,
    pub source: u8,
    pub puller_size: u32,
    pub source_size: u32,
    pub queue: &'a Q,
    pub own: Option<u16>,
}

/// Fills the context of a pull policy. It takes no memory.
pub fn pull_ctx<Q: RunQueue>(facts: &Pull<Q>, context: &mut [u8; PULL_LENGTH])
    requires inside { facts.now.puller < PROCESSORS }
    requires distinct { HasDistinctIds (Q.members facts.now.queue.now) }
    ensures bytes { context.new ≡ pull_bytes (record {
      puller = facts.now.puller;
      source = facts.now.source;
      puller_size = facts.now.puller_size;
      source_size = facts.now.source_size;
      movable = movable_to facts.now.puller (Q.members facts.now.queue.now);
      own = facts.now.own;
    }) }
{
    let movable = facts.queue.movable(facts.puller);
    put_four(
        context,
        0,
        u32::from(facts.puller),
        u32::from(facts.source),
        facts.puller_size,
        facts.source_size,
    );
    put_four(
        context,
        MOVABLE_AT,
        movable.count,
        movable.first.len() as u32,
        or_nobody(facts.own),
        0,
    );
    for at in 0..SHOWN {
        let task = shown(facts.queue, movable.first.as_slice(), at);
        put_task(context, TASKS_AT + TASK_LENGTH * at, 0, task);
    }
}

/// The task that a context shows at this place, if there is one.
fn shown<'a, Q: RunQueue>(queue: &'a Q, first: &[u16], at: usize) -> Option<&'a Node>
    ensures { option_map (λ n. task_of n.now) result ≡ option_and_then (λ id. find_task id (Q.members queue.now)) (slice_get first.now at) }
{
    queue.get(*first.get(at)?)
}

/// A task's id, or `NOBODY` if there is no task.
fn or_nobody(task: Option<u16>) -> u32
    ensures { result ≡ or_nobody task }
{
    match task {
        None => NOBODY,
        Some(id) => u32::from(id),
    }
}
