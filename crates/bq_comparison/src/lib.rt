//! `simulate` with several seeds, or beside another choice of policies: the mean and the standard deviation of each figure of
//! the report, and of its difference seed by seed, as a table, as comma-separated values or as JSON.
//! Promises that both sides are summaries of as many runs as were asked for, that each line has the two rows of one figure and the
//! difference of the runs with the same seeds, and that lines are left out only as asked, or if a hook has only zeros.
//! Builds on bq_experiment for the command's words, and on bq_simulate for the runs.
#![tactic(auto)]

mod asked;
mod cells;
mod csv_text;
mod difference;
mod fault;
mod figure;
mod figure_row;
mod gathering;
mod json_text;
mod labels;
mod line;
pub mod means;
mod pairing;
mod pairs;
mod report_figures;
mod runs;
mod seeds;
mod sides;
mod table;
mod text;
mod values;

pub use asked::{Comparing, ComparingFault, TableForm, asked_comparison};
pub use difference::Difference;
pub use fault::SeedsFault;
pub use figure::{Figure, HookFigure, LatencyFigure, ProcessorFigure, TaskFigure};
pub use figure_row::{FigureRow, make_rows};
pub use gathering::Gatherer;
pub use line::{FigureLine, make_lines};
pub use means::{deviation, mean};
pub use pairing::paired_rows;
pub use pairs::{Pair, PairedRow, paired_deviation};
pub use report_figures::{MachineSize, all_figures};
pub use runs::{FigureValue, RunFigures, run_of};
pub use seeds::{Experiment, Rows, RunsShown, SeedsSummary, run_seeds};
pub use sides::{OtherSide, RunPlan, Sides, compare, size_of_machine};
pub use text::comparison_text;
pub use values::value_of;
