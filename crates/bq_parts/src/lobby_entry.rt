//! What the lobby knows of a task.

use crate::Unlinked;

/// What the lobby knows of an id: no task has it, its task sleeps, or its task is with some processor.
#[derive(Drop)]
pub enum LobbyEntry {
    Absent,
    Sleeping(Unlinked),
    Away,
}
