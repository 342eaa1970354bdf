//! The words of a line, the numbers that words write, and what words name: disciplines, sizes, processors, lengths of time.
//! Promises that a line is split into exactly the words between its blanks, that a word is read as a number only if it is one
//! that fits its type, that words and numbers name exactly the schedulers that can be asked for, and that a word suggested in
//! place of another is near it. Traces, workloads, marks, options and assembler text share these.
#![tactic(auto)]

pub mod blanks;
pub mod discipline_name;
pub mod durations;
pub mod near;
pub mod numbers;
pub mod processor_count;
pub mod processor_sets;
pub mod quantities;
pub mod units;
pub mod word_counts;
pub mod words;

pub use blanks::{Blank, Spaces};
pub use discipline_name::DisciplineName;
pub use durations::duration;
pub use near::{Near, nearest};
pub use numbers::{number, value};
pub use processor_count::ProcessorCount;
pub use units::nanoseconds;
pub use word_counts::{end_of_words, four_words, only_word, three_words, two_words};
pub use words::{next_word, next_word_by};
