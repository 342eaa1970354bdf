//! Intervals of words: one abstract domain, and what each instruction does to it.
//!
//! Every answer has all results that are possible for the possible values of the operands. This layer uses the meaning
//! of the instructions in `bq_bpf`, and the verifier uses this layer.
#![tactic(auto)]

pub mod arithmetic;
pub mod bits;
pub mod moves;
pub mod narrowing;
pub mod range;
pub mod signed;

pub use range::Range;
