//! What one instruction does to what is known of registers and stack: the verifier's transfer functions. `transfer` and
//! `ask` take an abstract state over an instruction, and `side` says what a branch leaves of an operand. Each new
//! abstract state describes every state that the machine may come to. A refusal names an obligation of the instruction.
//! This layer uses `bq_states`, which reads, writes and joins abstract states. The verifier, above it, says from which
//! slots abstract states come and to which they go.
#![tactic(auto)]

mod access;
mod alu;
mod calls;
pub mod counters;
mod loads;
mod moves;
pub mod obligation;
pub mod sides;
mod stores;
pub mod transfer;
