//! What `check` and `dis` answer to a policy's file, the words of these and of `run`, why a file is no policy, and what is wrong
//! with the options of `asm`, by themselves and beside the marks of its text.
//!
//! A command's words come as text, its file as bytes, and its answer goes back as text. So what a command does is a function of
//! both, with a contract: the verdict, the listing. Why a file is no policy is said in words that are only tested.
//! `PolicyWords` are the words of `import` and `asm` too; `RunWords` and `ReportWords` are those of bq_policy_run.
#![tactic(auto)]

mod accepting;
mod answered;
mod asm_head;
mod asm_notes;
mod asm_options;
mod checking;
mod file_fault;
mod given;
mod image_fault_text;
mod json_parts;
mod json_text;
mod limits;
mod listing;
mod maps_fault_text;
mod numbers;
mod source_lines;
mod words;

pub use accepting::accepted_image;
pub use answered::Answered;
pub use asm_head::{AsmRefusal, asm_refusal};
pub use asm_notes::asm_note;
pub use asm_options::options_complaint;
pub use checking::check;
pub use file_fault::{FileFault, HOOK_UNNAMED, fault_line, fault_reason};
pub use given::{FORMAT, HOOK, HOOK_WORDS, given_head};
pub use json_text::unanswered_json;
pub use limits::limits_of;
pub use listing::{list, refused_file};
pub use numbers::small_number;
pub use words::{CheckWords, DisWords, LimitWords, PolicyWords, ReportWords, RunWords};
