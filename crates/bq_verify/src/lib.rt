//! The verifier: what it accepts is safe.
//!
//! `verify` first checks the control graph and finds its faults exactly, each at its least slot. Then it goes over the
//! slots once and keeps what is known of registers and stack. A `Verified` is safe within its budget, the longest path
//! of the graph. The interpreter relies on the safety and the flat form of a `Verified`.
#![tactic(auto)]

pub mod cause;
pub mod checks;
mod flow;
pub mod graph_cause;
pub mod graph_numbers;
mod known_at;
pub mod laws;
pub mod layout;
mod pass;
mod pass_stop;
pub mod policy_form;
pub mod program;
pub mod refused;
pub mod single;
mod subject;
pub mod targets;
pub mod verified;
mod waiting;

pub use cause::Cause;
pub use graph_cause::GraphCause;
pub use known_at::{KnownStates, known_states};
pub use policy_form::PolicyForm;
pub use program::{Program, verify};
pub use refused::Refused;
pub use verified::Verified;
