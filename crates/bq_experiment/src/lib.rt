//! The command `simulate`: a workload, read from a text, is run, and shown as a trace or as `timeline` shows one, as it comes.
//! Promises that each policy is that of the image at its hook, that a trace has the line of each event of a simulation of that
//! workload, that a replay gets the same answers, and that a run is cut off exactly if it has more events than it may have.
//! Builds on bq_workload_file for the text, on bq_simulate for the loop, and on bq_timeline for the forms other than a trace.
#![tactic(auto)]

pub mod asked;
mod fault;
pub mod laws;
mod limited;
pub mod names;
pub mod offset_viewer;
pub mod one_run;
mod passing;
pub mod policies;
mod run_progress;
mod texts;
pub mod words;

pub use asked::{AskedFault, ShownAs, asked_changes};
pub use fault::RunFault;
pub use limited::Limited;
pub use names::{shown_name, task_names, workload_names};
pub use one_run::{FinishedRun, RunStreams, run_as};
pub use policies::{AttachFault, Policies};
pub use words::{HookWords, MachineWords, StudyWords};
