//! Fairness of the two disciplines: service in proportion to weight, bounded lag, bounded waiting.
//! The laws are about one processor's steps. Each event of the world is a few such steps at each processor, so they hold in
//! the world.
#![tactic(auto)]

pub mod processor_laws;
pub mod world_laws;
