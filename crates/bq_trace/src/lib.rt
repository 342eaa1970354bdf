//! A trace of events, read in pieces from any reader, and the lines that answer it, written to any writer.
//! Promises that what is written is the text of the replies that the core gives, line by line.
//! A sink gets the events of a trace, one by one; the text that answers a trace is a sink.
//! Builds on counted streams, on the lines of a trace, on the core's step and on the two disciplines.
#![tactic(auto)]

mod any_core;
pub mod laws;
mod loading;
mod obeying;
mod phase;
pub mod processor_line;
mod progress;
mod reporting;
mod session;
mod sink;
pub mod texts;
mod trace_event;
mod trace_position;
mod whole_trace;

pub use any_core::{AnyCore, AnyCpu};
pub use bq_streams::StreamFault as ReplayFault;
pub use session::Session;
pub use sink::Sink;
pub use trace_event::TraceEvent;
pub use trace_position::TracePosition;
pub use whole_trace::replay;
