//! The start and the end of a machine that many callers share. It starts as parts under their locks, a history, counters and
//! seats. It ends as the history, the world that the history leads to, and the counters.
//! Promises that at the end each event of the history is a step of the world and has one receipt, at one of the seats, and
//! that each counter is the sum of its adds. Builds on bq_shared for the law, the cells, the seats and the counters.
#![tactic(auto)]

pub mod closed_machine;
pub mod closing_room;
pub mod ended;
pub mod locked_parts;
pub mod opening;
pub mod prepared;
pub mod queues;
pub mod recorder;

pub use closed_machine::Closed;
pub use closing_room::ClosingRoom;
pub use ended::{Locks, close};
pub use locked_parts::{PartLocks, part_locks};
pub use opening::Opening;
pub use prepared::{Prepared, prepare};
pub use queues::empty_queues;
pub use recorder::{CpuCell, MachineSeat, Recorder, WorkingSeat, hang_unless_own, lock};
