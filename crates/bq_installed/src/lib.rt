//! What is installed at the hooks of a processor, and what it answers.
//! Promises that a policy's answer, its steps, its calls of counters and the maps that it leaves are those of one run of the
//! accepted program. Uses the interpreter only by its contract.
#![tactic(auto)]

pub mod hooks;
pub mod installed;
pub mod laws;
pub mod policy;
mod same;
pub mod scratch;

pub use hooks::Hooks;
pub use installed::Installed;
pub use policy::Policy;
pub use scratch::Scratch;
