//! The running task of a processor, and the first of the tasks that wait.
ghost use Rattle.bq_weights.specs.VirtualTime.{IsWeight};

/// The task that runs at a processor, before its time is charged.
#[derive(Clone, Copy)]
pub struct RunningTask {
    /// The task's virtual runtime.
    pub v: u64,
    /// The task's weight.
    pub weight: u32,
    /// The least virtual runtime of the tasks that wait in the queue. `None` if none waits.
    pub least: Option<u64>,
    ghost weighs: { IsWeight weight },
}
