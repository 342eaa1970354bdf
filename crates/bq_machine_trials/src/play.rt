//! What threads do with their seats, as data: a play is a list of steps, and a script says which plays are made at once.

use crate::requests::Request;

/// One thing that a thread does.
#[derive(Clone, Copy)]
pub enum Step {
    /// Makes these calls one after another, and all of them this number of times.
    Calls(u32, &'static [Request]),
    /// Loads an image at the hook preempt.
    Load(&'static [u8]),
    /// Reads counters 0, 3 and 63.
    Read,
    /// Arms the gate: the next thread that comes to its point is held.
    Arm,
    /// Waits until a thread is held at the gate. If none comes, the play ends here.
    Await,
    /// The history has this number of events. The processor ticks until that number of events of others stand before its last tick. If
    /// they do not come, the play ends here.
    Watch {
        processor: u8,
        events: u64,
        others: u64,
    },
    /// Opens the gate. Only a play that awaited a held thread does this, so no gate is opened before it is entered.
    Open,
}

/// What one thread does.
pub type Play = &'static [Step];

/// What is played: a play by one seat, then some plays at once, each by a thread and a seat of its own, and then a play by one
/// seat again.
#[derive(Clone, Copy)]
pub struct Script<'a> {
    pub before: Play,
    pub at_once: &'a [Play],
    pub after: Play,
}

/// A task is admitted at nice 0 with this mask, and a slice of 3 ms.
#[macro_export]
macro_rules! admit {
    ($task:expr, $mask:expr) => {
        Request::Admit {
            admission: Admission {
                task: $task,
                nice: 0,
                mask: $mask,
                slice: 3_000_000,
            },
        }
    };
}

/// The task of the processor's number is admitted with this mask, woken and drained there, and then the processor ticks this number of times.
#[macro_export]
macro_rules! life {
    ($processor:expr, $mask:expr, $ticks:expr) => {
        &[
            Step::Calls(
                1,
                &[
                    admit!($processor, $mask),
                    Request::Wake {
                        processor: $processor,
                        task: $processor,
                    },
                    Request::Drain {
                        processor: $processor,
                    },
                ],
            ),
            Step::Calls(
                $ticks,
                &[Request::Tick {
                    processor: $processor,
                }],
            ),
        ]
    };
}
