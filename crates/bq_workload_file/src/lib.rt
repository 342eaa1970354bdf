//! Workloads as texts: what a TOML document says of a machine and its tasks, or what is wrong in it.
//! Promises that a workload which is read is the one that the text describes, and that the loop can follow this workload to its
//! end.
//! Builds on bq_workload for the value, and on bq_words for numbers, sets of processors and lengths of time.
#![tactic(auto)]

mod actions;
mod blame;
pub mod changes;
mod doing;
mod fault;
mod fields;
mod kinds;
mod lengths;
mod near;
mod setup;
mod tables;
mod workload_cause;
mod workloads;

pub use changes::Changes;
pub use fault::WorkloadFault;
pub use workloads::read;
