//! Changes to a workload's machine, for which the words of a command ask.
ghost use Rattle.std.specs.Prelude.{◌≡◌};

use bq_words::{DisciplineName, ProcessorCount};
use bq_workload::Setup;

/// The values that the words of a command put in the place of a machine's own values.
#[derive(Clone, Copy)]
pub struct Changes {
    pub discipline: Option<DisciplineName>,
    pub size: Option<ProcessorCount>,
    pub duration: Option<u64>,
    pub seed: Option<u64>,
}

impl Changes {
    /// No changes.
    pub const NONE: Changes = Changes {
        discipline: None,
        size: None,
        duration: None,
        seed: None,
    };

    ghost use Rattle.bq_workload_file.specs.Workloads.{changed_by};

    /// The machine with these changes.
    pub(crate) fn made(self, machine: Setup) -> Setup
        ensures { result ≡ changed_by self machine }
    {
        Setup {
            discipline: self.discipline.unwrap_or(machine.discipline),
            size: self.size.unwrap_or(machine.size),
            duration: self.duration.unwrap_or(machine.duration),
            tick: machine.tick,
            balance: machine.balance,
            migration_cost: machine.migration_cost,
            seed: self.seed.unwrap_or(machine.seed),
        }
    }
}
