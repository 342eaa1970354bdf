//! What a tick, a drain and a block do to the parts that they touch: one processor, its inbox, the lobby.
ghost use Rattle.std.specs.Prelude.{◌≡◌, ◌++◌, []};
ghost use Rattle.bq_bpf.specs.Counters.{Through};
ghost use Rattle.bq_disc.specs.OneProcessor.{present_at};
ghost use Rattle.bq_parts.specs.Processors.{HasEachOnce, HasIdsBelowTasks};
ghost use Rattle.bq_parts.specs.Choices.{by_programs};
ghost use Rattle.bq_parts.specs.Shares.{Blocks, Drains, Ticks};

use crate::{Cpu, Inbox, Lobby, Refusal, Reply};
use bq_bpf::Board;
use bq_disc::RunQueue;
use bq_installed::Scratch;

impl<Q: RunQueue> Cpu<Q> {
    /// Does the share of a tick: charges the running task for the time up to `now`, and decides who runs.
    pub fn tick<B: Board>(
        &mut self,
        processor: u8,
        now: u64,
        scratch: &mut Scratch,
        board: &mut B,
    ) -> Reply
        requires once { HasEachOnce (present_at self.old.running) }
        requires ids { HasIdsBelowTasks (present_at self.old.running) }
        requires no_calls { scratch.old ≡ [] }
        ensures share { Ticks (by_programs Q.R.discipline) processor now self.old scratch.new result self.new }
        ensures board { Through B.leads board.old scratch.new board.new }
    {
        self.charge(now);
        let preempted = self.decide(processor, scratch, board);
        Reply::Ticked {
            run: self.running_id(),
            by: preempted.by,
            steps: preempted.steps,
        }
    }

    /// Does the share of a drain: lets all tasks of the inbox enter the queue, and decides who runs.
    pub fn drain<B: Board>(
        &mut self,
        inbox: &mut Inbox,
        processor: u8,
        now: u64,
        scratch: &mut Scratch,
        board: &mut B,
    ) -> Reply
        requires once { HasEachOnce (present_at self.old.running ++ inbox.old) }
        requires ids { HasIdsBelowTasks (present_at self.old.running ++ inbox.old) }
        requires no_calls { scratch.old ≡ [] }
        ensures share { Drains (by_programs Q.R.discipline) processor now self.old inbox.old scratch.new result self.new }
        ensures emptied { inbox.new ≡ [] }
        ensures board { Through B.leads board.old scratch.new board.new }
    {
        let count = inbox.len();
        let tasks = inbox.take_all();
        self.charge(now);
        self.enter_all(tasks);
        let preempted = self.decide(processor, scratch, board);
        Reply::Drained {
            count,
            run: self.running_id(),
            by: preempted.by,
            steps: preempted.steps,
        }
    }

    /// Does the share of a block: puts the running task into the lobby, and starts the queue's choice. Refuses if no task runs.
    pub fn block(&mut self, lobby: &mut Lobby, processor: u8, now: u64) -> Result<Reply, Refusal>
        requires { HasIdsBelowTasks (present_at self.old.running) }
        ensures share { Blocks Q.R.discipline processor now self.old lobby.old result self.new lobby.new }
    {
        if self.current().is_none() {
            return Err(Refusal::Idle);
        }
        self.charge(now);
        let Some(task) = self.leave(processor) else {
            return Err(Refusal::Idle);
        };
        self.start();
        let run = self.running_id();
        let id = task.id();
        lobby.enter(id, task);
        Ok(Reply::Blocked { task: id, run })
    }
}
