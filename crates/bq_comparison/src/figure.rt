//! The figures of a report by their names.

use bq_hooks::Hook;

/// A figure of a task. Times are nanoseconds.
#[derive(Clone, Copy)]
pub enum TaskFigure {
    /// The time that it ran.
    Ran,
    /// Its fair time.
    Fair,
    /// The time that it waited, with a wait that goes on at the end.
    Waited,
    /// How often it began to run.
    Switches,
    /// How often another task was put in its place.
    Preemptions,
    /// How often it began to run at another processor than before.
    Migrations,
    /// How often it was woken.
    Wakes,
}

/// A figure of a task's latencies from wake to run, by nearest rank. Times are nanoseconds.
#[derive(Clone, Copy)]
pub enum LatencyFigure {
    /// What half of them do not exceed.
    P50,
    /// What 95 percent of them do not exceed.
    P95,
    /// What 99 percent of them do not exceed.
    P99,
    /// The greatest of them.
    Greatest,
}

/// A figure of a processor. Times are nanoseconds.
#[derive(Clone, Copy)]
pub enum ProcessorFigure {
    /// The time in which a task ran.
    Busy,
    /// The time in which none ran.
    Idle,
    /// How often a task began to run.
    Switches,
}

/// A figure of a hook at a processor.
#[derive(Clone, Copy)]
pub enum HookFigure {
    /// How often a policy was asked.
    Asked,
    /// How often its answer was not permitted.
    Overruled,
    /// The instructions that it took together.
    Steps,
}

/// A figure of a report.
#[derive(Clone, Copy)]
pub enum Figure {
    /// A figure of a task.
    Task(u16, TaskFigure),
    /// A figure of a task's latencies.
    Latency(u16, LatencyFigure),
    /// How long a task waits that has not run since its last wake, in nanoseconds.
    StillWaiting(u16),
    /// A figure of a processor.
    Processor(u8, ProcessorFigure),
    /// A figure of a hook at a processor.
    Hook(u8, Hook, HookFigure),
}
