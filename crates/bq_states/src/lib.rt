//! What is known of registers and stack before an instruction: the verifier's abstract state.
//!
//! An `AbstractState` describes machine states (`specs/AbstractStates.antt`, `Contains`). This layer reads and writes
//! an abstract state, forgets parts of it, narrows it by a branch, and joins it with another. Each function says which
//! machine states the result contains. `bq_transfer`, above this layer, has what an instruction does to an abstract
//! state.
#![tactic(auto)]

pub mod abstract_state;
pub mod copies;
pub mod joins;
pub mod learnt;
pub mod parts;
pub mod places;
pub mod registers;
pub mod relations;
pub mod stack;
