//! A workload as a value: what its tasks do, how long that takes, and how far each task has come.
//! A workload is plain values. Calls find its first flaw, if it has one, and the most steps that it takes.
//! Each length is a function of the seed, the task's number, its place and what is asked for, drawn in whole numbers.
//! A roster keeps which task runs where, and says what is due first: by time, kind and number.
//! Builds on bq_words for disciplines and numbers of processors, and on bq_disc for masks and clocks.
#![tactic(auto)]

pub mod action;
pub mod bound;
pub mod broken_invariant;
pub mod clocks;
pub mod due;
pub mod event_queue;
pub mod exponential;
pub mod laws;
pub mod limits;
pub mod over;
pub mod periods;
pub mod phases;
pub mod processor_state;
pub mod progress;
pub mod roster;
pub mod setup;
pub mod sound;
pub mod stream;
pub mod switching;
pub mod workload;

pub use action::{Action, Length, take_time};
pub use bound::most_steps;
pub use broken_invariant::BrokenInvariant;
pub use due::Due;
pub use event_queue::EventQueue;
pub use periods::Periods;
pub use processor_state::ProcessorState;
pub use progress::{TaskProgress, TaskState};
pub use roster::Roster;
pub use setup::Setup;
pub use sound::{Unsound, first_of_mask, soundness};
pub use stream::Stream;
pub use workload::{TaskKind, Workload};
