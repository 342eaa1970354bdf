//! The command `timeline`: a trace, read as `replay` reads it, and shown as a schedule in a form that people read.
//! Promises that the schedule shown is the schedule of the trace's events and answers, that no refused or bad line is
//! passed over, and that what is shown, and how, is what the words of the options ask for.
//! Builds on bq_trace's sinks, on bq_schedule and its forms, and on bq_why.
#![tactic(auto)]

pub mod any_form;
pub mod bounds_table;
mod foreign;
pub mod form_names;
pub mod map_width;
mod meant;
mod notes;
pub mod refused;
pub mod screen;
pub mod settings;
pub mod task_list;
pub mod tasks_by_name;
mod times;
pub mod viewer;
pub mod whole_timeline;

pub use refused::{RefusedWord, word_after};
pub use settings::{Settings, SettingsFault, ShownWords};
pub use whole_timeline::{Outcome, show};
