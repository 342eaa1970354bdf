//! Why an event is not done.
ghost use Rattle.std.specs.Prelude.{◌≡◌};
ghost use Rattle.bq_simulate.specs.declared.drive_fault.DriveFault.TheVariants.{OutOfMemory};

use bq_parts::Refusal;
use std::alloc::AllocError;
use thiserror::Error;

/// Why the driver stopped. No contract says what the sink has got by then; tests check that it is the beginning of a trace.
#[derive(Debug, Drop, Error)]
pub enum DriveFault {
    /// Memory ran out.
    #[error("out of memory")]
    OutOfMemory,
    /// The machine refused an event: its driver lost count of its tasks.
    #[error("an event was refused: {0}")]
    Refused(Refusal),
    /// The reading of a clock fell, or passed 2^48 - 1.
    #[error("a clock went back, or past its latest reading")]
    Reading,
}

impl From<AllocError> for DriveFault {
    ghost from_gives = { λ _ e. e ≡ OutOfMemory };

    fn from(_error: AllocError) -> DriveFault {
        DriveFault::OutOfMemory
    }
}
