//! A woken task on its way to a processor.

use crate::Unlinked;
use bq_hooks::Loads;

/// A woken task, with the loads from when its wake began.
#[derive(Drop)]
pub struct Carried {
    pub task: Unlinked,
    pub loads: Loads,
}
