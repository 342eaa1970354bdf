//! The object files that clang makes for BPF (ELF64, little-endian), as far as a policy needs them: the bytes of the function
//! `policy`, wherever it is, the lines of C that these come from, and the other functions, which are left out. Each read is
//! checked.
#![tactic(auto)]

pub mod fault;
pub mod header;
pub mod line_table;
pub mod numbers;
pub mod object;
pub mod relocation;
pub mod section;
mod sections;
pub mod symbol;

pub use fault::{Filled, ObjectFault, Piece};
pub use line_table::{SourceLine, source_lines};
pub use object::{is_object, others, policy_of};
