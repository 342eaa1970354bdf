//! The machine of a workload.
ghost use Rattle.std.specs.Prelude.{◌≡◌, ℕ, List, Some, IfOk, option_and_then};
ghost use Rattle.std.specs.Result.{result_err};
ghost use Rattle.toml.specs.Data.{no_members};
ghost use Rattle.toml.specs.View.{table_view};
ghost use Rattle.bq_workload_file.specs.Keys.{first_unknown, machine_keys, unknown_key};
ghost use Rattle.bq_workload_file.specs.Workloads.{IsSetup};

use crate::fields::{number_at, read_discipline, read_size, span_at};
use crate::tables::all_known;
use crate::workload_cause::{NumberRange, WorkloadCause};
use bq_words::{DisciplineName, ProcessorCount};
use bq_workload::Setup;
use bq_workload::limits::LONGEST;
use toml::Table;

/// The keys of a machine.
static MACHINE: [&str; 7] = [
    "discipline",
    "processors",
    "duration",
    "tick",
    "balance",
    "migration_cost",
    "seed",
];

/// The machine of a text that says nothing of a machine: one processor under CFS for 100 ms, with a tick each 4 ms.
const DEFAULT: Setup = Setup {
    discipline: DisciplineName::Cfs,
    size: ProcessorCount::One,
    duration: 100_000_000,
    tick: 4_000_000,
    balance: 16_000_000,
    migration_cost: 0,
    seed: 1,
};

/// Gives the machine of a document that says nothing of a machine.
pub(crate) fn absent() -> Setup
    ensures { IsSetup no_members result }
{
    DEFAULT
}

/// The machine that a table describes.
pub(crate) fn setup(table: &Table) -> Result<Setup, WorkloadCause<'_>>
    ensures read { IfOk result (IsSetup (table_view table.now)) }
    ensures unknown { (key : List ℕ) → first_unknown machine_keys (table_view table.now) ≡ Some key → option_and_then unknown_key (result_err result) ≡ Some key }
{
    all_known(table, &MACHINE)?;
    let time = NumberRange {
        least: 1,
        greatest: LONGEST,
    };
    let cost = NumberRange {
        least: 0,
        greatest: LONGEST,
    };
    let seeds = NumberRange {
        least: 0,
        greatest: i64::MAX as u64,
    };
    let discipline = read_discipline(table, DEFAULT.discipline)?;
    let size = read_size(table, DEFAULT.size)?;
    let duration = span_at(table, "duration", DEFAULT.duration, time)?;
    let tick = span_at(table, "tick", DEFAULT.tick, time)?;
    let balance = span_at(table, "balance", DEFAULT.balance, time)?;
    let migration_cost = span_at(table, "migration_cost", DEFAULT.migration_cost, cost)?;
    let seed = number_at(table, "seed", DEFAULT.seed, seeds)?;
    Ok(Setup {
        discipline,
        size,
        duration,
        tick,
        balance,
        migration_cost,
        seed,
    })
}
