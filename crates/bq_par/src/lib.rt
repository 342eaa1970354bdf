//! Processors that run in threads of their own, each with a seat of one locked machine, and what their one history is.
//! Promises that the history is one of this scheduler, that each answer given has a place in it, and that each processor
//! ticked as often as was asked for.
#![tactic(auto)]

mod metronome;
mod runs;
mod shift;
mod summary;

pub use metronome::Metronome;
pub use runs::run;
pub use summary::HistorySummary;
