//! The event by which work spreads: a processor takes a task from the queue of another.
ghost use Rattle.std.specs.Prelude.{◌≡◌, ◌≢◌, ◌≤◌, ◌<◌, [], length};
ghost use Rattle.bq_bpf.specs.Counters.{Through};
ghost use Rattle.bq_parts.specs.Processors.{present_at_both, HasEachOnce, HasIdsBelowTasks};
ghost use Rattle.bq_parts.specs.World.{count_in};
ghost use Rattle.bq_parts.specs.Choices.{by_programs};
ghost use Rattle.bq_parts.specs.Shares.{PullsBetween};
ghost use Rattle.bq_parts.specs.Steps.{WorldStep};
ghost use Rattle.bq_parts.specs.Orderly.{IsOrderly};

use crate::world_parts::WorldParts;
use bq_bpf::Board;
use bq_disc::RunQueue;
use bq_disc::limits::PROCESSORS;
use bq_installed::Scratch;
use bq_parts::{Cpu, Event, Refusal, Reply};

impl<Q: RunQueue> WorldParts<Q> {
    /// Moves a task to a processor from the queue of another: the one that its policy names, or that of the discipline, which
    /// takes one only if the other has at least two more.
    #[inline(never)]
    pub(crate) fn pull<B: Board>(
        &mut self,
        processor: u8,
        from: u8,
        now: u64,
        scratch: &mut Scratch,
        board: &mut B,
    ) -> Result<Reply, Refusal>
        requires orderly { IsOrderly self.old }
        requires inside { processor < count_in self.old }
        requires inside_from { from < count_in self.old }
        requires apart { processor ≢ from }
        requires no_calls { scratch.old ≡ [] }
        ensures step { WorldStep (by_programs Q.R.discipline) self.old (Event.Pull processor from now) scratch.new result self.new }
        ensures board { Through B.leads board.old scratch.new board.new }
    {
        let cpus = self.cpus.as_mut_slice();
        Ok(pull_between(cpus, processor, from, now, scratch, board))
    }
}

/// Moves a task to one of these processors from the queue of another.
fn pull_between<Q: RunQueue, B: Board>(
    cpus: &mut [Cpu<Q>],
    processor: u8,
    from: u8,
    now: u64,
    scratch: &mut Scratch,
    board: &mut B,
) -> Reply
    requires few { length cpus.old ≤ PROCESSORS }
    requires inside { processor < length cpus.old }
    requires inside_from { from < length cpus.old }
    requires apart { processor ≢ from }
    requires once { HasEachOnce (present_at_both cpus.old processor from) }
    requires ids { HasIdsBelowTasks (present_at_both cpus.old processor from) }
    requires no_calls { scratch.old ≡ [] }
    ensures share { PullsBetween (by_programs Q.R.discipline) processor from now cpus.old scratch.new result cpus.new }
    ensures board { Through B.leads board.old scratch.new board.new }
{
    if processor < from {
        let (low, high) = cpus.split_at_mut(usize::from(from));
        let puller = &mut low[usize::from(processor)];
        puller.pull(&mut high[0], processor, from, now, scratch, board)
    } else {
        let (low, high) = cpus.split_at_mut(usize::from(processor));
        let source = &mut low[usize::from(from)];
        high[0].pull(source, processor, from, now, scratch, board)
    }
}
