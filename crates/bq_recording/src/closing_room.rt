//! Room for the contents of the locks, so that the end takes no memory.
ghost use Rattle.std.specs.Prelude.{◌≡◌, ◌≤◌, vec_len, vec_capacity};

use bq_disc::RunQueue;
use bq_parts::{Cpu, Inbox};
use bq_shared::{NumberedCpu, NumberedInbox};
use std::alloc::{AllocError, Global};

/// Room for the contents of the locks of `P` processors and their inboxes, with their numbers and without.
#[derive(Drop)]
pub struct ClosingRoom<Q: RunQueue + Drop, const P: usize> {
    pub(crate) numbered_cpus: Vec<NumberedCpu<Q>>,
    pub(crate) numbered_inboxes: Vec<NumberedInbox>,
    pub(crate) cpus: Vec<Cpu<Q>>,
    pub(crate) inboxes: Vec<Inbox>,
    ghost for_numbered_cpus: { (vec_len numbered_cpus ≡ 0) × (P ≤ vec_capacity numbered_cpus) },
    ghost for_numbered_inboxes: { (vec_len numbered_inboxes ≡ 0) × (P ≤ vec_capacity numbered_inboxes) },
    ghost for_cpus: { (vec_len cpus ≡ 0) × (P ≤ vec_capacity cpus) },
    ghost for_inboxes: { (vec_len inboxes ≡ 0) × (P ≤ vec_capacity inboxes) },
}

impl<Q: RunQueue + Drop, const P: usize> ClosingRoom<Q, P> {
    /// Takes all the memory that the end needs.
    pub fn new(alloc: Global) -> Result<ClosingRoom<Q, P>, AllocError> {
        Ok(ClosingRoom {
            numbered_cpus: Vec::with_capacity(alloc, P)?,
            numbered_inboxes: Vec::with_capacity(alloc, P)?,
            cpus: Vec::with_capacity(alloc, P)?,
            inboxes: Vec::with_capacity(alloc, P)?,
        })
    }
}
