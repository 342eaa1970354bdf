//! Programs and policies as bytes, as hex and as text: what `asm`, `dis` and `check` answer, and a policy's file.
//! A policy's file is an image, its hex, or an assembler text that says in marks what it is. A mark is a line that begins
//! with `;@`, a comment to the assembler: `;@ hook place`, `;@ maps 8:1,16:4`, `;@ format 2`. `read_policy` tells the three
//! apart by their first bytes, and refuses a file that disagrees with what was asked for. `policy_text` writes such a text,
//! and what is read of it is that policy and no other (`laws`).
#![tactic(auto)]

mod answer;
mod assembling;
mod checking;
mod combined;
mod fault;
mod form;
mod head;
mod hex_text;
mod image_of;
mod kind;
pub mod laws;
mod listing;
mod mark;
mod options;
mod policy_listing;
mod policy_marks;
mod policy_source;
mod reading;
mod shapes_text;

pub use answer::Answer;
pub use assembling::assembled;
pub use checking::{accepted_line, checked, fault_text};
pub use fault::{HeadCause, HeadFault, PolicyFault};
pub use form::ProgramForm;
pub use head::Head;
pub use hex_text::{bytes_of, is_blank};
pub use kind::{FileKind, kind_of};
pub use listing::disassembled;
pub use mark::Key;
pub use options::{Options, OptionsFault, refused_options};
pub use policy_listing::{instruction_text, policy_text};
pub use policy_marks::{marks, marks_text, more_maps};
pub use policy_source::PolicySource;
pub use reading::{read_head, read_policy};
pub use shapes_text::{SHAPES_FORM, shapes_of};
