//! Tests that need crates side by side. Run queues under drawn commands: the queue on the tree is given the same commands
//! as the plain list, and must answer alike; what policies are shown of such queues, which of their answers are taken, and what
//! they answer; runs of a core over worked events; the table of weights and worked rows of virtual time; streams that fail, and the words
//! for it; one verdict of the verifier and the locked machine on drawn programs; and the examples of the calls that a user of the library
//! starts with. All of it is for the tests; the library itself is empty.
#![tactic(auto)]

#[cfg(test)]
mod answer;
#[cfg(test)]
mod asserting;
#[cfg(test)]
mod command;
#[cfg(test)]
mod contexts;
#[cfg(test)]
mod core_runs;
#[cfg(test)]
mod examples;
#[cfg(test)]
mod failing;
#[cfg(test)]
mod limits;
#[cfg(test)]
mod one_verdict;
#[cfg(test)]
mod places;
#[cfg(test)]
mod policies;
#[cfg(test)]
mod queue_rows;
#[cfg(test)]
mod streams;
#[cfg(test)]
mod weights;
#[cfg(test)]
mod world_examples;
