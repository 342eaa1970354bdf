//! Says which need of an instruction is not met by what is known before it, as a value and in words; and what is known of a
//! word, in words.
//!
//! By contract a need that is named is one that the abstract state does not meet. Builds on the abstract states of the
//! verifier.
#![tactic(auto)]

mod accesses;
mod arguments;
mod known;
mod memory_access;
mod needs;
mod words;

pub use accesses::Lack;
pub use arguments::Argument;
pub use known::{known_text, range_text};
pub use memory_access::{MemoryAccess, Registers, read_registers, reads};
pub use needs::{Need, Pointer, need_of};
pub use words::{moves, need_text};
