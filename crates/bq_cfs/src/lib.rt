//! The completely fair scheduler (CFS) as a discipline: the task of least virtual runtime runs.
#![tactic(auto)]

pub mod discipline;
pub mod laws;

pub use discipline::{Cfs, CfsQueue, GRANULARITY};
