//! A workload: a machine, and the kinds of its tasks.

use crate::action::Action;
use crate::setup::Setup;

/// Tasks that all do the same actions.
#[derive(Drop)]
pub struct TaskKind {
    /// At most 1,024 bytes.
    pub name: String,
    /// How many tasks there are of this kind, at least 1. All kinds have at most 1,024 together.
    pub count: u16,
    /// From -20 to 19.
    pub nice: i8,
    /// The processors that they may use, by bits, at least one of the machine's.
    pub mask: u64,
    /// What they ask for at once, from 100,000 to 100,000,000 nanoseconds.
    pub slice: u64,
    /// When their first wake is, at most 2^48 - 1.
    pub start: u64,
    /// How often they do all their actions, at least once; for ever if there is no number.
    pub loops: Option<u64>,
    /// What they do, in order and over again: at least one action that runs or sleeps.
    pub actions: Vec<Action>,
}

/// What is simulated. Tasks are numbered from 0 in the order of their kinds.
#[derive(Drop)]
pub struct Workload {
    pub machine: Setup,
    pub tasks: Vec<TaskKind>,
}
