//! What a Pull does to the two processors: a task of one queue enters the other.
ghost use Rattle.std.specs.Prelude.{◌≡◌, ◌<◌, ◌++◌, [], None, IfSome};
ghost use Rattle.bq_disc.specs.Tasks.{id_of, find_task};
ghost use Rattle.bq_disc.specs.OneProcessor.{present_at};
ghost use Rattle.bq_bpf.specs.Counters.{Through};
ghost use Rattle.bq_parts.specs.Processors.{HasEachOnce, HasIdsBelowTasks};
ghost use Rattle.bq_parts.specs.Choices.{by_programs};
ghost use Rattle.bq_parts.specs.Moves.{after_pull, taken_from, without_task};
ghost use Rattle.bq_parts.specs.Shares.{Pulls};

use crate::{Cpu, Reply};
use bq_bpf::Board;
use bq_disc::RunQueue;
use bq_disc::limits::PROCESSORS;
use bq_installed::Scratch;

impl<Q: RunQueue> Cpu<Q> {
    /// Takes a task from the queue of another processor. It is the task that its policy names, if that is permitted;
    /// otherwise it is that of the discipline, which takes one only if the other has at least two more tasks. `processor` is
    /// the number of `self`, and `from` that of `source`.
    pub fn pull<B: Board>(
        &mut self,
        source: &mut Cpu<Q>,
        processor: u8,
        from: u8,
        now: u64,
        scratch: &mut Scratch,
        board: &mut B,
    ) -> Reply
        requires inside { processor < PROCESSORS }
        requires once { HasEachOnce (present_at self.old.running ++ present_at source.old.running) }
        requires ids { HasIdsBelowTasks (present_at self.old.running ++ present_at source.old.running) }
        requires no_calls { scratch.old ≡ [] }
        ensures share { Pulls (by_programs Q.R.discipline) processor from now self.old source.old scratch.new result self.new source.new }
        ensures board { Through B.leads board.old scratch.new board.new }
    {
        self.charge(now);
        source.update_mark();
        let pulled = self.choose_pull(processor, from, source, scratch, board);
        let run = self.take_task(source, pulled.choice);
        Reply::Pulled {
            task: pulled.choice,
            run,
            by: pulled.by,
            steps: pulled.steps,
        }
    }

    /// Takes the task with this id, if any, from the other's queue. If nothing runs here then, starts the queue's choice. Returns
    /// the id of the task that runs here.
    fn take_task(&mut self, source: &mut Cpu<Q>, task: Option<u16>) -> Option<u16>
        requires fresh { IfSome (taken_from source.old.running task) (λ t. find_task t.id self.old.running.queue ≡ None) }
        ensures run { result ≡ id_of self.new.running.current }
        ensures here { self.new ≡ record self.old { running = after_pull Q.R.discipline self.old.running source.old.running task } }
        ensures there { source.new ≡ record source.old { running = without_task source.old.running task } }
    {
        let given = source.give(task);
        self.accept(given);
        self.start_if_idle();
        self.running_id()
    }
}
