//! Streams: readers and writers that count their calls and failures, or keep why they failed, and inputs that are read whole.
//!
//! A read or a write fails here with a [`StreamFault`], and by contract only for its cause: `Read` only if the reader's
//! failures rose, `Write` only if the writer's did.
#![tactic(auto)]

mod counted;
mod error_keeper;
pub mod fault;
mod whole;

pub use counted::Counted;
pub use error_keeper::ErrorKeeper;
pub use fault::StreamFault;
pub use whole::{PIECE, READS, read_whole};
