//! The program's dealings with its caller: its words and what clap finds in them by a table of commands, the files and streams
//! that it reads and writes, and its exit statuses. Promises that clap takes each table as it is, that an option's value is what
//! clap found, and that a command ends with the exit status of its outcome. Texts on standard error are only safe.
#![tactic(auto)]

mod beside;
mod bounded;
mod ending;
pub mod fault;
pub mod found;
mod given;
mod joined;
mod printable;
mod progress;
mod reading;
mod reasons;
mod refused;
mod reporting;
pub mod status;
pub mod tables;
mod values;
pub mod words;
mod writing;

pub use beside::{ErasingWriter, ShowingReader};
pub use bounded::Bounded;
pub use ending::ended;
pub use fault::{WordsFault, words_fault};
pub use found::{all_words, is_set, value, word};
pub use given::{as_texts, given_words};
pub use joined::joined_words;
pub use printable::{Lines, NO_TEXT, Name, Quoted};
pub use progress::{EVENTS, ProgressLine, WorkDone};
pub use reading::{
    MOST_BYTES, file_named, name_of, opened, read_input, waiting_input, whole_input,
};
pub use reasons::reason;
pub use refused::refused_words;
pub use reporting::{
    report_file_unwritten, report_out_of_memory, report_refused, report_unread, report_unwritten,
};
pub use status::{OUT_OF_MEMORY, exit_status};
pub use tables::{CommandText, Given, OptionText, found_in, program, with_commands};
pub use values::{refused_value, value_words};
pub use writing::written;
