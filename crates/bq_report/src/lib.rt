//! The forms in which a schedule is shown as text: a report, a map, a list of runs, comma-separated values, JSON.
//! Promises that a form only adds to its text, and shows what is in its window, cut at the window's edges.
//! Builds on bq_schedule for what happened. It reads no trace and writes only to the text that it is given.
#![tactic(auto)]

pub mod admitted_tasks;
pub mod amounts;
pub mod csv_rows;
pub mod extent;
pub mod form;
mod grid;
pub mod json_report;
mod legend;
pub mod longest;
pub mod map;
mod map_row;
pub mod names;
pub mod percent;
pub mod report;
pub mod steps;
pub mod tables;
pub mod timehist;
pub mod waits;
pub mod window;

pub use admitted_tasks::AdmittedTasks;
pub use amounts::{Micros, Millis, MomentText, Unit};
pub use csv_rows::Csv;
pub use extent::Extent;
pub use form::ScheduleForm;
pub use json_report::Json;
pub use map::Map;
pub use names::Names;
pub use report::Report;
pub use steps::round_step;
pub use timehist::Timehist;
pub use waits::{still_waiting, waited_in_all};
pub use window::Window;
