//! Single runs of an accepted policy, and what `run` answers to a policy's file.
//!
//! Inputs have the names of their fields, and the outcome of a run is shown as text. Words come as they were given, the file as
//! bytes, and the answer goes back as text. So what the command does is a function of both, with a contract.
#![tactic(auto)]

mod changes;
mod counters;
mod entries;
mod explaining;
mod faults;
mod field_words;
mod fields;
mod inputs;
pub mod laws;
mod named_inputs;
mod one_run;
mod permitted;
mod repeats;
mod running;
mod timing;
mod traces;
mod word_text;

pub use changes::{copied, write_calls, write_changes};
pub use fields::{Field, FieldWidth};
pub use inputs::{Inputs, inputs_of};
pub use one_run::{run_often, run_once, trace_once};
pub use permitted::{PLACE_SHOWN, Permission, permission_of, place_shown};
pub use running::run;
