//! What a run is given beside its memory, and what it answers.

/// What a run may ask of the machine: the time and the processor.
#[derive(Clone, Copy)]
pub struct Env {
    /// The processor's last reading of its clock, in nanoseconds.
    pub now: u64,
    /// The number of the processor.
    pub processor: u32,
}

/// What a run answers, and how many instructions it executed (with the EXIT).
#[derive(Clone, Copy)]
pub struct RunResult {
    pub r0: u64,
    pub steps: u32,
}
