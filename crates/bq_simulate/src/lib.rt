//! The loop behind the command `simulate`, which is in bq_experiment: tasks do what their workload says, the machine decides when,
//! and what was done can be written as a trace.
//! The loop does the events of a trace from the opening machine on: none is refused, and readings never fall. Each task does
//! what its kind says, and when the loop ends nothing due by the duration is undone. A workload with a flaw is refused first.
//! A trace that is written asks for exactly those events, and a replay of it gets their answers.
//! Builds on bq_trace for the machine, and on bq_workload for actions, lengths and the roster.
#![tactic(auto)]

pub mod acting;
pub mod agreement_laws;
pub mod calls;
pub mod counts;
pub mod drive_fault;
pub mod driver;
pub mod enough;
pub mod fault;
pub mod images;
pub mod kept_laws;
pub mod line_laws;
pub mod opening;
pub mod replay_laws;
pub mod simulation;
pub mod trace_writer;
pub mod whole_simulation;
pub mod writing;

pub use counts::Counts;
pub use drive_fault::DriveFault;
pub use driver::Driver;
pub use enough::Enough;
pub use fault::SimulateFault;
pub use images::Images;
pub use trace_writer::TraceWriter;
pub use whole_simulation::{simulate, simulate_seed};
pub use writing::{write_event, write_machine};
