//! The commands of bqsim, one file each, from the words after the program's name to the exit status.
//! Promises that words ask for what clap finds in them by the one table of commands (`job`), and what is read and written for an
//! assembler text, a program's hex, threads of processors and a trace (`perform`). `do_command` does any command on its files.
//! Builds on the crates that answer: bq_policy_check, bq_policy_run, bq_import, bq_par, bq_trace, bq_timeline, bq_comparison.
#![tactic(auto)]

mod answer;
pub mod asm;
mod check;
pub mod command;
mod dis;
mod dispatch;
mod filter;
pub mod import;
pub mod par;
mod performing;
mod policy_words;
mod read_limits;
mod refusing;
pub mod replaying;
mod run;
pub mod simulate;
mod simulate_files;
pub mod tables;
pub mod timeline;

pub use answer::{exit_status_of, written_answer};
pub use bq_console::{WordsFault as JobFault, exit_status};
pub use bq_streams::Counted;
pub use bq_trace::{ReplayFault, Session, replay};
pub use command::{Command, job};
pub use dispatch::do_command;
pub use performing::perform;
