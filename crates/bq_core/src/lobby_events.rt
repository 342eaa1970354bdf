//! The events of the lobby: a task is admitted, or leaves for good.
ghost use Rattle.std.specs.Prelude.{◌≡◌, ◌<◌, [], None};
ghost use Rattle.bq_parts.specs.World.{count_in};
ghost use Rattle.bq_parts.specs.Refusals.{argument_refusal};
ghost use Rattle.bq_parts.specs.Choices.{by_programs};
ghost use Rattle.bq_parts.specs.Steps.{WorldStep};

use crate::world_parts::WorldParts;
use bq_disc::RunQueue;
use bq_disc::limits::TASKS;
use bq_parts::{Event, Refusal, Reply, new_task};
use std::alloc::Global;

impl<Q: RunQueue> WorldParts<Q> {
    /// Puts a new task into the lobby. It takes memory for the task.
    #[inline(never)]
    pub(crate) fn admit(
        &mut self,
        alloc: Global,
        task: u16,
        nice: i8,
        mask: u64,
        slice: u64,
    ) -> Result<Reply, Refusal>
        requires fits { argument_refusal (count_in self.old) (Event.Admit task nice mask slice) ≡ None }
        ensures step { WorldStep (by_programs Q.R.discipline) self.old (Event.Admit task nice mask slice) [] result self.new }
    {
        let Ok(new) = new_task(alloc, self.cpus.len(), task, nice, mask, slice) else {
            return Err(Refusal::OutOfMemory);
        };
        self.lobby.admit(task, new)
    }

    /// Removes a task from the lobby for good.
    #[inline(never)]
    pub(crate) fn retire(&mut self, task: u16) -> Result<Reply, Refusal>
        requires below { task < TASKS }
        ensures step { WorldStep (by_programs Q.R.discipline) self.old (Event.Retire task) [] result self.new }
    {
        self.lobby.retire(task)
    }
}
