//! The world of processors, queues and sleeping tasks as one value, and the step that each event makes in it.
//! Promises that each step is the world's, with each choice the policy's if permitted and else the discipline's own, and
//! that every admitted task is in the world exactly once, on a processor of its mask if it runs or waits.
//! Builds on bq_parts, whose calls are what each event does to the parts that it touches.
#![tactic(auto)]

mod arguments;
mod dynamic_core;
mod generations;
pub mod laws;
mod lobby_events;
mod pulling;
mod running;
mod sized_core;
mod waking;
mod world_parts;

pub use arguments::argument_refusal;
pub use dynamic_core::DynamicCore;
pub use sized_core::Core;
