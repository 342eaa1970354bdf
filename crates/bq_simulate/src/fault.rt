//! Why a simulation does not come to its end.
ghost use Rattle.std.specs.Prelude.{◌≡◌, ◌≢◌, None};
ghost use Rattle.bq_workload.specs.declared.workload.Workload.{Workload};
ghost use Rattle.bq_simulate.specs.Faults.{reported_flaw};
ghost use Rattle.bq_simulate.specs.GoingWell.{EndsEarly, IsCutOff};
ghost use Rattle.bq_simulate.specs.declared.drive_fault.DriveFault.TheVariants as drive;
ghost use Rattle.bq_simulate.specs.declared.fault.SimulateFault.TheVariants.{BrokenInvariant, TooManySteps, Enough, OutOfMemory};

use crate::DriveFault;
use bq_workload::{BrokenInvariant, Unsound};
use std::alloc::AllocError;
use thiserror::Error;

/// Why a simulation does not come to its end. What the sink got by then is the beginning of a trace; this is proved for `Enough`
/// and `TooManySteps`, and only tested for the other faults. It is proved that no simulation ends by `Drive` or `BrokenInvariant`,
/// and that none ends by `TooManySteps` if 64 bits count the bound of its steps.
#[derive(Debug, Drop, Error)]
pub enum SimulateFault {
    /// Memory ran out.
    #[error("out of memory")]
    OutOfMemory,
    /// The workload cannot be followed: the first of its flaws.
    #[error("{0}")]
    Unsound(Unsound),
    /// The machine did not take what the loop gave it. That would be a fault of this program.
    #[error("internal fault: {0}")]
    Drive(DriveFault),
    /// The loop lost count of its tasks. That would be a fault of this program.
    #[error("internal fault: the loop lost count of its tasks")]
    BrokenInvariant,
    /// 2^64 - 1 things came due: as many steps as 64 bits count. It is proved that this happens only if 64 bits do not count the bound
    /// of the workload's steps.
    #[error("the simulation had not ended after 2^64 - 1 steps, and 64 bits count no more")]
    TooManySteps,
    /// The sink has enough of it.
    #[error("more came than is wanted")]
    Enough,
}

impl SimulateFault {
    /// Returns the fault as one of the loop, in which the workload is known to be sound and the sink has not enough:
    /// `Unsound` and `Enough` cannot come from there, so they become `BrokenInvariant`. All others stay.
    pub(crate) fn of_loop(self) -> SimulateFault
        ensures sound { reported_flaw result ≡ None }
        ensures other { result ≢ Enough }
        ensures early { (w : Workload) → EndsEarly w self → IsCutOff w result }
        ensures too_many_steps { result ≡ TooManySteps → self ≡ TooManySteps }
    {
        match self {
            SimulateFault::Unsound(_) | SimulateFault::Enough => SimulateFault::BrokenInvariant,
            fault => fault,
        }
    }
}

impl From<AllocError> for SimulateFault {
    ghost from_gives = { λ _ e. e ≡ OutOfMemory };

    fn from(_error: AllocError) -> SimulateFault {
        SimulateFault::OutOfMemory
    }
}

impl From<DriveFault> for SimulateFault {
    ghost from_gives = { λ error fault. error ≡ drive.OutOfMemory → fault ≡ OutOfMemory };

    fn from(error: DriveFault) -> SimulateFault {
        match error {
            DriveFault::OutOfMemory => SimulateFault::OutOfMemory,
            other => SimulateFault::Drive(other),
        }
    }
}

impl From<BrokenInvariant> for SimulateFault {
    ghost from_gives = { λ _ e. e ≡ BrokenInvariant };

    fn from(_error: BrokenInvariant) -> SimulateFault {
        SimulateFault::BrokenInvariant
    }
}
