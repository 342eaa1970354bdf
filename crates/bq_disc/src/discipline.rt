//! What a discipline chooses, and how virtual time passes under it.
ghost use Rattle.std.specs.Prelude.{◌≡◌, ◌<◌, ◌≤◌};
ghost use Rattle.std.specs.Option.{option_map};
ghost use Rattle.bq_weights.specs.VirtualTime.{IsWeight};
ghost use Rattle.bq_disc.specs.Tasks.{present, id_of};
ghost use Rattle.bq_disc.specs.Discipline.{Discipline, IsLawful};
ghost use Rattle.bq_disc.specs.Chains.{task_of};
ghost use Rattle.bq_disc.specs.Pulls.{pull_of};
ghost use Rattle.bq_weights.specs.declared.TheConstants.{GREATEST_V};
ghost use Rattle.bq_disc.specs.declared.clock.TheConstants.{LATEST};

use crate::limits::PROCESSORS;
use crate::{Node, TaskOrder};

/// A processor pulls a task only if the other one has at least this many more.
pub const WORTH_A_PULL: usize = 2;

/// A discipline, with its choices among tasks in order.
pub trait Discipline {
    /// The discipline's definitions.
    ghost discipline: { Discipline };

    /// The id of the task that should run, of the waiting tasks and the current one.
    fn choice<T: TaskOrder>(current: Option<&Node>, queue: &T) -> Option<u16>
        ensures { result ≡ id_of (discipline.choice (present (option_map (λ n. task_of n.now) current.entry) (T.tasks queue.now))) };

    /// Whether a waiting task should take the place of the current one.
    fn wants_preempt<T: TaskOrder>(current: &Node, queue: &T) -> bool
        ensures { result ≡ discipline.wants_preempt (task_of current.now) (T.tasks queue.now) };

    /// The new mark, from the old one, the current task and the waiting tasks.
    fn mark<T: TaskOrder>(old: u64, current: Option<&Node>, queue: &T) -> u64
        requires { old ≤ GREATEST_V }
        ensures value { result ≡ discipline.mark old (present (option_map (λ n. task_of n.now) current.entry) (T.tasks queue.now)) }
        ensures high { result ≤ GREATEST_V };

    /// The task that an emptier processor takes from the queue of another. `puller_size` tasks run or wait at the puller,
    /// `source_size` at the other processor. If `source_size` is at least two more, this is the movable task of greatest
    /// (v, id); else no task is pulled.
    fn pull<T: TaskOrder>(
        processor: u8,
        puller_size: usize,
        source_size: usize,
        queue: &T,
    ) -> Option<u16>
        requires processor { processor < PROCESSORS }
        ensures { result ≡ id_of (pull_of processor puller_size source_size (T.tasks queue.now)) }
    {
        if source_size.saturating_sub(puller_size) < WORTH_A_PULL {
            return None;
        }
        let found = queue.movable(processor);
        found.first.first().copied()
    }

    /// The v at which a woken task enters, from the mark and the task's rel, slice and weight.
    fn wake(mark: u64, rel: i64, slice: u64, weight: u32) -> u64
        requires mark { mark ≤ GREATEST_V }
        requires slice { slice ≤ LATEST }
        requires weight { IsWeight weight }
        ensures value { result ≡ discipline.wake mark rel slice weight }
        ensures high { result ≤ GREATEST_V };

    /// The deadline of a task that enters at `v`.
    fn deadline(v: u64, slice: u64, weight: u32) -> u64
        requires slice { slice ≤ LATEST }
        requires weight { IsWeight weight }
        ensures value { result ≡ discipline.deadline v slice weight }
        ensures high { result ≤ GREATEST_V };

    /// The deadline of a task that has run and is at `v` now; `deadline` is the one before.
    fn renewed(v: u64, slice: u64, weight: u32, deadline: u64) -> u64
        requires slice { slice ≤ LATEST }
        requires weight { IsWeight weight }
        requires deadline { deadline ≤ GREATEST_V }
        ensures value { result ≡ discipline.renewed v slice weight deadline }
        ensures high { result ≤ GREATEST_V };

    ghost lawful: { IsLawful discipline };
}
