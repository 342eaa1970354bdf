//! What a pull sees, and which part of the rule decides the pull.
ghost use Rattle.std.specs.Prelude.{◌≡◌, ◌<◌, ◌≤◌, length, take, IfOk};
ghost use Rattle.bq_disc.specs.declared.limits.TheConstants.{TASKS};
ghost use Rattle.bq_disc.specs.Movable.{movable_to, ids};
ghost use Rattle.bq_why.specs.Pulls.{Sees, own_pull_of};
ghost use Rattle.bq_disc.specs.declared.movable.TheConstants.{MOST_NAMED};

use crate::presence::{list_present, list_waiting};
use bq_disc::discipline::WORTH_A_PULL;
use bq_disc::limits::PROCESSORS;
use bq_disc::{Entity, Movable, RunQueue};
use bq_parts::Cpu;
use bq_trace::{AnyCore, AnyCpu};
use std::alloc::{AllocError, Global};

/// What a pull sees before the pull happens.
#[derive(Drop)]
pub struct PullFacts {
    pub puller: u8,
    pub other: u8,
    /// How many tasks run or wait at the puller.
    pub size: usize,
    /// How many tasks run or wait at the other processor.
    pub other_size: usize,
    /// The tasks of the other processor's queue that may go to the puller.
    pub movable: Movable,
}

/// Why the discipline takes the task that it takes, or none.
#[derive(Clone, Copy)]
pub enum OwnPull {
    /// The discipline takes none: the other processor's size is not greater by at least two.
    TooFew,
    /// The discipline takes none: no task of the other processor's queue may go.
    NoneMayGo,
    /// The discipline takes the task of greatest (v, id) among those that may go.
    Greatest,
}

impl PullFacts {
    /// Finds why the discipline takes the task that it takes, or none.
    pub fn own(&self) -> OwnPull
        ensures { result ≡ own_pull_of self.now.size self.now.other_size self.now.movable.count }
    {
        if self.other_size.saturating_sub(self.size) < WORTH_A_PULL {
            OwnPull::TooFew
        } else if self.movable.count == 0 {
            OwnPull::NoneMayGo
        } else {
            OwnPull::Greatest
        }
    }
}

/// Finds what a pull of one processor of a machine from another one sees. `None` if the machine lacks one of the two.
pub(crate) fn pull_facts_in(
    alloc: Global,
    machine: &AnyCore,
    puller: u8,
    other: u8,
) -> Result<Option<PullFacts>, AllocError> {
    if puller >= PROCESSORS {
        return Ok(None);
    }
    let facts = match (machine.cpu(puller), machine.cpu(other)) {
        (Some(AnyCpu::Cfs(here)), Some(AnyCpu::Cfs(there))) => {
            pull_facts_between(alloc, puller, other, here, there)?
        }
        (Some(AnyCpu::Eevdf(here)), Some(AnyCpu::Eevdf(there))) => {
            pull_facts_between(alloc, puller, other, here, there)?
        }
        (Some(AnyCpu::Cfs(_)), Some(AnyCpu::Eevdf(_)))
        | (Some(AnyCpu::Eevdf(_)), Some(AnyCpu::Cfs(_)))
        | (None, _)
        | (_, None) => return Ok(None),
    };
    Ok(Some(facts))
}

/// Finds what a pull sees that takes a task from the processor `there` to the processor `here`.
pub fn pull_facts_between<Q: RunQueue>(
    alloc: Global,
    puller: u8,
    other: u8,
    here: &Cpu<Q>,
    there: &Cpu<Q>,
) -> Result<PullFacts, AllocError>
    requires { puller < PROCESSORS }
    ensures { IfOk result (λ facts. Sees puller here.now.running there.now.running facts) }
{
    let size = list_present(alloc, here)?.len();
    let other_size = list_present(alloc, there)?.len();
    let queue = list_waiting(alloc, there)?;
    Ok(PullFacts {
        puller,
        other,
        size,
        other_size,
        movable: movable(queue.as_slice(), puller),
    })
}

/// Finds the tasks of a queue that may go to a processor.
fn movable(queue: &[Entity], processor: u8) -> Movable
    requires inside { processor < PROCESSORS }
    requires few { length queue.now ≤ TASKS }
    ensures count { result.count ≡ length (movable_to processor queue.now) }
    ensures first { result.first.items ≡ take MOST_NAMED (ids (movable_to processor queue.now)) }
{
    let mut found = Movable::new();
    let mut at = queue.len();
    while at > 0 {
        at -= 1;
        found.add(&queue[at], processor);
    }
    found
}
