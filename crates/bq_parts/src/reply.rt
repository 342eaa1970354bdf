//! The replies to events that are not refused.

use bq_hooks::{By, Loads};

/// The reply to an event. `run` is the task that runs afterwards. `steps` is the number of instructions that the policy
/// took, 0 if none was asked.
#[derive(PartialEq, Drop)]
pub enum Reply {
    /// The task is in the lobby.
    Admitted,
    /// The task left the lobby for good.
    Retired,
    /// A generation was drawn.
    Drawn {
        generation: u64,
    },
    /// The policy stands at its hook, or none does.
    Installed,
    /// The task is in the processor's hand. `loads` are those of all processors.
    Begun {
        task: u16,
        loads: Loads,
    },
    /// The task left the hand, for the inbox of the processor `to`.
    Placed {
        task: u16,
        to: u8,
        by: By,
        steps: u32,
    },
    /// `count` tasks went from the inbox into the queue.
    Drained {
        count: u32,
        run: Option<u16>,
        by: By,
        steps: u32,
    },
    /// The time was charged, and it was decided who runs.
    Ticked {
        run: Option<u16>,
        by: By,
        steps: u32,
    },
    /// The task that ran is in the lobby.
    Blocked {
        task: u16,
        run: Option<u16>,
    },
    /// The task came from the other processor, or none did.
    Pulled {
        task: Option<u16>,
        run: Option<u16>,
        by: By,
        steps: u32,
    },
}
