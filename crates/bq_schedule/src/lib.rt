//! A schedule, from events and their answers: who ran where and when, who waited, and what each task's fair share was.
//! Promises that each answer changes exactly what it reports, and that the figures add up the slices (laws).
//! Uses bq_parts only for events and answers: it holds no world, and asks none.
#![tactic(auto)]

pub mod change;
mod decision_counts;
pub mod figures;
pub mod latencies;
pub mod laws;
mod passing;
pub mod percentiles;
mod performing;
mod runnable;
mod running;
pub mod schedule;
pub mod slice;

pub use change::{Change, ClockReading, Decision, PulledTask, Start, Stop, StopReason, Wake};
pub use figures::{HookFigures, ProcessorFigures, TaskFigures};
pub use latencies::Latencies;
pub use percentiles::{Percentiles, WakeLatencies};
pub use schedule::{PARTS_PER_NANOSECOND, Schedule};
pub use slice::Slice;
