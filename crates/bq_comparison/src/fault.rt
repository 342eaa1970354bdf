//! Why there is no summary.

use bq_experiment::RunFault;
use bq_simulate::SimulateFault;
use std::alloc::{AllocError, AllocFailed};
use thiserror::Error;

/// Why there is no summary.
#[derive(Debug, Drop, Error)]
pub enum SeedsFault {
    /// The simulation of a run did not come to its end.
    #[error("{0}")]
    Run(SimulateFault),
    /// The last seed would be 2^64 or more.
    #[error("--seeds: the last seed is not below 2^64")]
    Last,
    /// A run has more events than it may have.
    #[error("{run}", run = RunFault::TooManyEvents)]
    TooManyEvents,
    #[error("out of memory")]
    OutOfMemory,
}

impl From<SimulateFault> for SeedsFault {
    ghost use Rattle.std.specs.Prelude.{◌≡◌};
    ghost use Rattle.bq_comparison.specs.Faults.{fault_of_run};

    ghost from_gives = { λ f e. e ≡ fault_of_run f };

    fn from(fault: SimulateFault) -> SeedsFault {
        match fault {
            SimulateFault::OutOfMemory => SeedsFault::OutOfMemory,
            SimulateFault::Enough => SeedsFault::TooManyEvents,
            fault => SeedsFault::Run(fault),
        }
    }
}

impl From<AllocError> for SeedsFault {
    ghost use Rattle.std.specs.Prelude.{◌≡◌};
    ghost use Rattle.bq_comparison.specs.declared.fault.SeedsFault.TheVariants.{OutOfMemory};

    ghost from_gives = { λ _ e. e ≡ OutOfMemory };

    fn from(_e: AllocError) -> SeedsFault {
        SeedsFault::OutOfMemory
    }
}

impl<T: Drop> From<AllocFailed<T>> for SeedsFault {
    ghost use Rattle.std.specs.Prelude.{◌≡◌};
    ghost use Rattle.bq_comparison.specs.declared.fault.SeedsFault.TheVariants.{OutOfMemory};

    ghost from_gives = { λ _ e. e ≡ OutOfMemory };

    fn from(_e: AllocFailed<T>) -> SeedsFault {
        SeedsFault::OutOfMemory
    }
}
