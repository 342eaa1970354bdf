//! A scheduler that many threads call at once. Processors, inboxes and the lobby have locks of their own. All calls together
//! make one history, and each call gets a receipt for its place in the history.
//! Promises that each call records the event asked for, at a reading that the clock may give, and that the history is one of
//! the world of bq_parts. Builds on bq_recording for the start and the end, and on bq_shared for the contents of the locks.
#![tactic(auto)]

pub mod clock;
pub mod loading_calls;
pub mod lobby_calls;
pub mod machine;
mod machine_end;
mod machine_start;
mod needs;
mod prepared_install;
mod pulling_calls;
mod records;
mod rooms;
mod running_calls;
pub mod waking_calls;

pub use clock::Clock;
pub use loading_calls::{LoadReceipts, LoadRefused};
pub use lobby_calls::Admission;
pub use machine::Machine;
pub use waking_calls::WakeReceipts;
