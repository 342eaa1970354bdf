//! The two halves of a wake: a sleeping task comes into a processor's hand, and is placed.
ghost use Rattle.std.specs.Prelude.{◌≡◌, ◌<◌, ◌≤◌, ◌^◌, ℕ, [], length, slice_index_or};
ghost use Rattle.bq_parts.specs.Processors.{new_processor, load_of};
ghost use Rattle.bq_parts.specs.World.{count_in, loads_of};
ghost use Rattle.bq_bpf.specs.Counters.{Through};
ghost use Rattle.bq_parts.specs.Choices.{by_programs};
ghost use Rattle.bq_parts.specs.Steps.{WorldStep};
ghost use Rattle.bq_parts.specs.Orderly.{IsOrderly};

use crate::world_parts::WorldParts;
use bq_bpf::Board;
use bq_disc::RunQueue;
use bq_disc::limits::{PROCESSORS, TASKS};
use bq_hooks::Loads;
use bq_installed::Scratch;
use bq_parts::{Cpu, Event, Inbox, Placement, Refusal, Reply};

impl<Q: RunQueue> WorldParts<Q> {
    /// Takes a sleeping task into the hand of a processor, with the loads of that moment.
    #[inline(never)]
    pub(crate) fn begin_wake(&mut self, processor: u8, task: u16) -> Result<Reply, Refusal>
        requires orderly { IsOrderly self.old }
        requires inside { processor < count_in self.old }
        requires below { task < TASKS }
        ensures step { WorldStep (by_programs Q.R.discipline) self.old (Event.BeginWake processor task) [] result self.new }
    {
        let loads = loads_of(self.cpus.as_slice(), self.inboxes.as_slice());
        let cpu = &mut self.cpus[usize::from(processor)];
        cpu.begin_wake_with_loads(&mut self.lobby, task, loads)
    }

    /// Places the task in a processor's hand: the task goes to the end of the chosen processor's inbox.
    #[inline(never)]
    pub(crate) fn end_wake<B: Board>(
        &mut self,
        processor: u8,
        now: u64,
        scratch: &mut Scratch,
        board: &mut B,
    ) -> Result<Reply, Refusal>
        requires orderly { IsOrderly self.old }
        requires inside { processor < count_in self.old }
        requires no_calls { scratch.old ≡ [] }
        ensures step { WorldStep (by_programs Q.R.discipline) self.old (Event.EndWake processor now) scratch.new result self.new }
        ensures board { Through B.leads board.old scratch.new board.new }
    {
        let count = self.cpus.len();
        let cpu = &mut self.cpus[usize::from(processor)];
        let Some(placed) = cpu.end_wake(processor, count, now, scratch, board) else {
            return Err(Refusal::NothingInHand);
        };
        let Placement {
            task,
            to,
            by,
            steps,
        } = placed;
        let id = task.id();
        self.inboxes[usize::from(to)].push(task);
        Ok(Reply::Placed {
            task: id,
            to,
            by,
            steps,
        })
    }
}

/// Counts the load of each processor.
fn loads_of<Q: RunQueue>(cpus: &[Cpu<Q>], inboxes: &[Inbox]) -> Loads
    requires same { length cpus.now ≡ length inboxes.now }
    requires few { length cpus.now ≤ PROCESSORS }
    requires small { (i : ℕ) → load_of (slice_index_or cpus.now i new_processor) (slice_index_or inboxes.now i []) < 2 ^ 16 }
    ensures { result ≡ loads_of cpus.now inboxes.now }
{
    let mut loads = Loads::new();
    for at in 0..cpus.len() {
        loads.push(cpus[at].load(&inboxes[at]) as u16);
    }
    loads
}
