//! The hooks: what a policy is shown at each, which of its answers are permitted, and what is chosen if its answer is not.
//! Promises the exact bytes of each hook's context, and that each choice is the policy's if permitted, else the discipline's
//! own. Builds on the tasks and queues of bq_disc; the verifier and images take the names of hooks from here.
#![tactic(auto)]

mod fields;
pub mod hook;
pub mod laws;
pub mod loads;
pub mod own_choice;
pub mod place;
pub mod preempt;
pub mod pull;
pub mod settled;

pub use fields::NOBODY;
pub use hook::{Hook, Version, context_length};
pub use loads::Loads;
pub use own_choice::own_place;
pub use place::{PLACE_LENGTH, Place, WIDE_PLACE_LENGTH, place_ctx, wide_place_ctx};
pub use preempt::{PREEMPT_LENGTH, Preempt, preempt_ctx};
pub use pull::{PULL_LENGTH, Pull, SHOWN, pull_ctx};
pub use settled::{By, Choice, settle_place, settle_preempt, settle_pull};
