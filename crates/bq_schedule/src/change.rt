//! What one answer changes in a schedule.

ghost use Rattle.std.specs.Prelude.{◌≡◌};

use crate::slice::Slice;
use bq_hooks::{By, Hook};

/// What one answer changes. An event changes nothing if it is refused, if its answer is not of its kind, or if it names a processor
/// that does not exist. Times are nanoseconds of the clock of the event's processor.
#[derive(Clone, Copy, PartialEq, Eq)]
pub struct Change {
    /// The reading of the processor's clock, if the event has one.
    pub reading: Option<ClockReading>,
    /// The slice that the processor's task was charged at that reading.
    pub slice: Option<Slice>,
    /// The run before that slice, if it ended because the slice does not continue it. The last run, which may go on, is in the
    /// figures of its processor.
    pub run: Option<Slice>,
    /// What a hook decided, by its policy or by the discipline.
    pub decision: Option<Decision>,
    /// A wake that ended: its task was placed.
    pub wake: Option<Wake>,
    /// A task that was pulled from another processor.
    pub pull: Option<PulledTask>,
    /// The task that stopped running at the processor.
    pub stop: Option<Stop>,
    /// The task that started running at the processor.
    pub start: Option<Start>,
}

impl Change {
    ghost use Rattle.bq_schedule.specs.Steps.{nothing};

    /// Returns the change by an event that changes nothing.
    pub fn nothing() -> Change
        ensures { result ≡ nothing }
    {
        Change {
            reading: None,
            slice: None,
            run: None,
            decision: None,
            wake: None,
            pull: None,
            stop: None,
            start: None,
        }
    }
}

/// A reading of a processor's clock.
#[derive(Clone, Copy, PartialEq, Eq)]
pub struct ClockReading {
    pub processor: u8,
    /// The reading before this one, 0 if this is the first.
    pub previous: u64,
    /// The reading as it counts: at most 2^48 - 1, and no less than the reading before.
    pub current: u64,
    /// Whether the clock went back. The reading before counts then.
    pub is_back: bool,
}

/// What a hook decided.
#[derive(Clone, Copy, PartialEq, Eq)]
pub struct Decision {
    pub hook: Hook,
    pub by: By,
    /// The instructions that the policy took, 0 if no policy was asked.
    pub steps: u32,
}

impl Decision {
    ghost use Rattle.bq_schedule.specs.Steps.{was_asked, was_overruled};

    /// Returns the decision of a hook: who made it, and how many steps a policy took.
    pub(crate) fn new(hook: Hook, by: By, steps: u32) -> Decision
        ensures { result ≡ record { hook = hook; by = by; steps = steps } }
    {
        Decision { hook, by, steps }
    }

    /// Tells whether a policy was asked: it took steps, or it decided.
    pub fn was_asked(&self) -> bool
        ensures { result ≡ was_asked self.now }
    {
        self.by == By::Policy || self.steps > 0
    }

    /// Tells whether a policy was asked and the discipline decided nonetheless: the policy's answer is not permitted.
    pub fn was_overruled(&self) -> bool
        ensures { result ≡ was_overruled self.now }
    {
        self.by == By::Discipline && self.steps > 0
    }
}

/// A woken task was placed, and is runnable from now on.
#[derive(Clone, Copy, PartialEq, Eq)]
pub struct Wake {
    pub task: u16,
    /// The processor that woke the task.
    pub from: u8,
    /// The processor on which the task was placed.
    pub to: u8,
    /// When the wake ended, by the clock of the processor that woke the task.
    pub at: u64,
}

/// A runnable task was pulled.
#[derive(Clone, Copy, PartialEq, Eq)]
pub struct PulledTask {
    pub task: u16,
    pub from: u8,
    pub to: u8,
    pub at: u64,
    /// How long the task had waited at the processor that it was taken from. 0 if clocks disagree so that it would be negative.
    pub waited: u64,
}

/// A task began to run.
#[derive(Clone, Copy, PartialEq, Eq)]
pub struct Start {
    pub processor: u8,
    pub task: u16,
    pub at: u64,
    /// How long the task had waited at this processor since it was placed, preempted or pulled. 0 if clocks disagree so that it
    /// would be negative.
    pub waited: u64,
    /// How long it is since the task's wake ended, if this is its first run since that wake. 0 if clocks disagree so that it would
    /// be negative.
    pub latency: Option<u64>,
    /// The processor where the task ran before. The task has migrated if that is another processor.
    pub before: Option<u8>,
}

impl Start {
    ghost use Rattle.bq_schedule.specs.Running.{has_migrated};

    /// Tells whether the task ran at another processor before.
    pub fn has_migrated(&self) -> bool
        ensures { result ≡ has_migrated self.now }
    {
        match self.before {
            Some(processor) => processor != self.processor,
            None => false,
        }
    }
}

/// A task stopped running.
#[derive(Clone, Copy, PartialEq, Eq)]
pub struct Stop {
    /// The start that this stop ends.
    pub start: Start,
    pub at: u64,
    pub reason: StopReason,
}

/// Why a task stopped running.
#[derive(Clone, Copy, PartialEq, Eq)]
pub enum StopReason {
    /// Another task runs instead, and this one waits.
    Preempted,
    /// The task went to sleep.
    Blocked,
}
