//! Why a run does not come to its end.

use bq_simulate::SimulateFault;
use bq_streams::StreamFault;
use thiserror::Error;

/// Why a run does not come to its end.
#[derive(Debug, Drop, Error)]
pub enum RunFault {
    /// The simulation ends early, for this reason.
    #[error("{0}")]
    Simulation(SimulateFault),
    /// A write failed.
    #[error("{write}", write = StreamFault::Write)]
    Write,
    /// The run has more events than it may have.
    #[error("the run was cut off: it has more events than --max-events allows")]
    TooManyEvents,
}
