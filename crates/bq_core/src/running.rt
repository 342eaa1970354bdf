//! The events of one processor: its clock ticks, placed tasks enter, and the running task goes to sleep.
ghost use Rattle.std.specs.Prelude.{◌≡◌, ◌<◌, []};
ghost use Rattle.bq_parts.specs.World.{count_in};
ghost use Rattle.bq_bpf.specs.Counters.{Through};
ghost use Rattle.bq_parts.specs.Choices.{by_programs};
ghost use Rattle.bq_parts.specs.Steps.{WorldStep};
ghost use Rattle.bq_parts.specs.Orderly.{IsOrderly};

use crate::world_parts::WorldParts;
use bq_bpf::Board;
use bq_disc::RunQueue;
use bq_installed::Scratch;
use bq_parts::{Event, Refusal, Reply};

impl<Q: RunQueue> WorldParts<Q> {
    /// Lets the clock of a processor tick: charges the running task, and decides who runs.
    pub(crate) fn tick<B: Board>(
        &mut self,
        processor: u8,
        now: u64,
        scratch: &mut Scratch,
        board: &mut B,
    ) -> Result<Reply, Refusal>
        requires orderly { IsOrderly self.old }
        requires inside { processor < count_in self.old }
        requires no_calls { scratch.old ≡ [] }
        ensures step { WorldStep (by_programs Q.R.discipline) self.old (Event.Tick processor now) scratch.new result self.new }
        ensures board { Through B.leads board.old scratch.new board.new }
    {
        let cpu = &mut self.cpus[usize::from(processor)];
        Ok(cpu.tick(processor, now, scratch, board))
    }

    /// Lets all tasks that were placed on a processor enter its queue, and decides who runs.
    pub(crate) fn drain<B: Board>(
        &mut self,
        processor: u8,
        now: u64,
        scratch: &mut Scratch,
        board: &mut B,
    ) -> Result<Reply, Refusal>
        requires orderly { IsOrderly self.old }
        requires inside { processor < count_in self.old }
        requires no_calls { scratch.old ≡ [] }
        ensures step { WorldStep (by_programs Q.R.discipline) self.old (Event.Drain processor now) scratch.new result self.new }
        ensures board { Through B.leads board.old scratch.new board.new }
    {
        let inbox = &mut self.inboxes[usize::from(processor)];
        let cpu = &mut self.cpus[usize::from(processor)];
        Ok(cpu.drain(inbox, processor, now, scratch, board))
    }

    /// Puts the running task of a processor into the lobby, and starts the queue's choice.
    pub(crate) fn block(&mut self, processor: u8, now: u64) -> Result<Reply, Refusal>
        requires orderly { IsOrderly self.old }
        requires inside { processor < count_in self.old }
        ensures step { WorldStep (by_programs Q.R.discipline) self.old (Event.Block processor now) [] result self.new }
    {
        let cpu = &mut self.cpus[usize::from(processor)];
        cpu.block(&mut self.lobby, processor, now)
    }
}
