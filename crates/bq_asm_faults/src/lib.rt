//! What is wrong with a text that the assembler refuses, in words: the line at fault, the slip, and what to write instead.
//! There is a complaint of exactly the texts that do not assemble. A text that is written for another command is called so.
//! The line at fault is promised; the wording of a complaint is only tested.
#![tactic(auto)]

mod complaining;
mod forms;
mod line_reason;
mod number_reason;
mod text_kind;
mod vocabulary;

pub use complaining::{assembly_fault_text, complaint};
pub use line_reason::with_nul_shown;
pub use text_kind::{TextKind, kind_of_text};
