//! Earliest eligible virtual deadline first (EEVDF) as a discipline: of the tasks that are owed time, the one due first runs.
#![tactic(auto)]

pub mod discipline;
pub mod laws;

pub use discipline::{Eevdf, EevdfQueue};
