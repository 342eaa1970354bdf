//! What threads share: the processors, inboxes and sleeping tasks under their locks, 64 counters without a lock, and a seat
//! for each caller.
//! Promises that each event's share over the parts that it touches is a move of the history, that a packed answer is the
//! answer, and that at the end each counter is the sum of the adds in the history.
//! Builds on bq_parts for the shares, on bq_core for the laws of worlds, and on bq_history for what a move is.
#![tactic(auto)]

mod account;
pub mod calls;
pub mod cells;
pub mod copies;
mod counter_board;
mod counters;
mod end_of_tables;
pub mod event_equality;
pub mod journal_state;
pub mod packed_answer;
pub mod record;
pub mod scheduler_law;
mod seat;
mod seats_at_start;
mod working;
pub mod world_part;

pub use account::{Account, CounterAccount, Counting};
pub use calls::{CallRooms, Calls, hold_calls};
pub use cells::{NumberedCpu, NumberedInbox, OneLobby, UnderLock};
pub use copies::{copy_event, copy_policy};
pub use counter_board::CounterBoard;
pub use counters::{Counters, UnnamedCounters};
pub use end_of_tables::close;
pub use event_equality::is_same_event;
pub use journal_state::JournalState;
pub use packed_answer::PackedAnswer;
pub use record::{Record, call_rooms, loads_room, record_room};
pub use scheduler_law::{SchedulerLaw, Shared, WorldState};
pub use seat::{ReportsCalls, Seat};
pub use seats_at_start::seats;
pub use working::Working;
pub use world_part::{CpuState, WorldPart};
