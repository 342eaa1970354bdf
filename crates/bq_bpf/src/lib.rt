//! The machine that runs a policy: its memory, its helpers, its counters, and its meaning.
//!
//! `specs/` defines what arithmetic, byte orders and tests give on words (RFC 9669, sections 4.1 to 4.3), what each
//! instruction does, what a run is, and when a program is safe; the intervals, the verifier and the interpreter rest on
//! that. The code computes on words, names helpers, compares shapes of maps, and asks counters.
#![tactic(auto)]

pub mod addresses;
pub mod board;
pub mod code;
pub mod helper;
pub mod instruction;
pub mod list;
pub mod pack;
pub mod runs;
pub mod shape;
pub mod slots;
pub mod words;

pub use board::{Board, CounterCall, Plain};
pub use code::{Code, IMMEDIATE, Packed};
pub use helper::Helper;
pub use list::pack_all;
pub use runs::{Env, RunResult};
pub use shape::{MapShape, same_shapes};
pub use words::{alu, extended, negated, reordered, test};
