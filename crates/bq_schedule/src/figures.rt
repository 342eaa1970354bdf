//! What adds up over a schedule, for each task and each processor.

ghost use Rattle.std.specs.Prelude.{◌≡◌, ◌-◌};

use crate::change::Start;
use crate::slice::Slice;

/// The figures of a task. A count stops at its type's greatest number. If an id is admitted again, its figures go on.
#[derive(Clone, Copy)]
pub struct TaskFigures {
    /// Whether the id was ever admitted.
    pub is_admitted: bool,
    pub nice: i8,
    /// The weight of its nice value.
    pub weight: u32,

    /// The processor at which the task is runnable: the task was placed or pulled there, and has not gone to sleep since.
    pub processor: Option<u8>,
    /// When the task's last wait began: it was placed, preempted or pulled then.
    pub waiting_since: u64,
    /// When the task's last wake ended, if the task has not run since.
    pub woken_at: Option<u64>,
    /// How many drains the processor had made when the task was placed there, if the task has neither run nor been pulled since.
    pub drains_when_placed: Option<u64>,
    /// The processor where the task ran last.
    pub last_processor: Option<u8>,
    /// How much the processor had given to each unit of weight when the task came there.
    pub shared_at_arrival: u128,
    /// The task's fair time at all processors where it was runnable before this one, in parts of a nanosecond.
    pub earlier_fair_time: u128,

    /// How long the task ran, in nanoseconds: the sum of its slices.
    pub time: u64,
    /// How long the task waited, in nanoseconds.
    pub waited: u64,
    /// How often the task was woken.
    pub wakes: u64,
    /// After how many of these wakes the task has run.
    pub latency_count: u64,
    /// The sum of these latencies from wake to run, in nanoseconds.
    pub latency_sum: u64,
    /// The greatest of these latencies.
    pub greatest_latency: u64,
    /// How often the task started running.
    pub switches: u64,
    /// How often another task took its place.
    pub preemptions: u64,
    /// How often the task started running at another processor than before.
    pub migrations: u64,
}

impl TaskFigures {
    ghost use Rattle.bq_schedule.specs.Figures.{unknown};

    /// Returns the figures of an id that was never admitted.
    pub fn new() -> TaskFigures
        ensures { result ≡ unknown }
    {
        TaskFigures {
            is_admitted: false,
            nice: 0,
            weight: 0,
            processor: None,
            waiting_since: 0,
            woken_at: None,
            drains_when_placed: None,
            last_processor: None,
            shared_at_arrival: 0,
            earlier_fair_time: 0,
            time: 0,
            waited: 0,
            wakes: 0,
            latency_count: 0,
            latency_sum: 0,
            greatest_latency: 0,
            switches: 0,
            preemptions: 0,
            migrations: 0,
        }
    }
}

/// The figures of a processor. A count stops at its type's greatest number.
#[derive(Clone, Copy)]
pub struct ProcessorFigures {
    /// The first reading of its clock.
    pub first: Option<u64>,
    /// The last reading, 0 if there was none.
    pub last: u64,
    /// How the running task started, if one runs.
    pub running: Option<Start>,
    /// The last run, which may go on.
    pub run: Option<Slice>,

    /// How many tasks are runnable here: the running task, those of the queue and those of the inbox.
    pub runnable: u64,
    /// The sum of the weights of the runnable tasks.
    pub weight: u64,
    /// How much a unit of weight has been given if it was runnable here all the time, in parts of a nanosecond.
    pub shared: u128,
    /// The parts that could not be shared out evenly.
    pub unshared: u128,

    /// How long a task ran here, in nanoseconds: the sum of the processor's slices.
    pub busy: u64,
    /// How often a task started running here.
    pub switches: u64,
    /// How often the inbox was drained.
    pub drains: u64,
    pub place: HookFigures,
    pub preempt: HookFigures,
    pub pull: HookFigures,
}

impl ProcessorFigures {
    ghost use Rattle.bq_schedule.specs.Figures.{unread};
    ghost use Rattle.bq_schedule.specs.Observed.{idle_in};

    /// Returns the figures of a processor before anything happens there.
    pub fn new() -> ProcessorFigures
        ensures { result ≡ unread }
    {
        ProcessorFigures {
            first: None,
            last: 0,
            running: None,
            run: None,
            runnable: 0,
            weight: 0,
            shared: 0,
            unshared: 0,
            busy: 0,
            switches: 0,
            drains: 0,
            place: HookFigures::new(),
            preempt: HookFigures::new(),
            pull: HookFigures::new(),
        }
    }

    /// Returns for how much of the schedule's observed time nothing ran here. Both times are in nanoseconds.
    pub fn idle(&self, observed: u64) -> u64
        ensures { result ≡ idle_in observed self.now }
    {
        observed.saturating_sub(self.busy)
    }
}

/// The figures of a hook of a processor.
#[derive(Clone, Copy)]
pub struct HookFigures {
    /// How often a policy was asked.
    pub asked: u64,
    /// How often a policy was asked and its answer was not permitted.
    pub overruled: u64,
    /// The sum of the instructions that policies took.
    pub steps: u64,
}

impl HookFigures {
    ghost use Rattle.bq_schedule.specs.Figures.{unasked_hook};

    /// Returns the figures of a hook before anything is decided there.
    pub fn new() -> HookFigures
        ensures { result ≡ unasked_hook }
    {
        HookFigures {
            asked: 0,
            overruled: 0,
            steps: 0,
        }
    }
}
