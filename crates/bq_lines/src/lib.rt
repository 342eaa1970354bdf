//! The lines of a trace: what a line asks, why a line is bad, and the line that has begun of a text in pieces.
//! Promises that each line is read as the format says, whatever its bytes.
//! Builds on the events of `bq_parts`, on the hooks of `bq_hooks`, on the number of counters of `bq_bpf`, and on `bq_words` for words,
//! numbers, disciplines and sizes.
#![tactic(auto)]

pub mod bytes;
pub mod command;
pub mod hex_word;
pub mod keyword;
pub mod line_fault;
pub mod line_operand;
pub mod lines;
pub mod partial_line;

pub use command::{LineCommand, LineReading};
pub use hex_word::HexWord;
pub use keyword::Keyword;
pub use lines::read_short_line;
pub use partial_line::{PartialLine, first_line};
