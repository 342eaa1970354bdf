//! What a line of a trace leads to.

use crate::any_core::AnyCore;
use bq_load::LoadFault;
use bq_parts::{Event, Refusal, Reply};
use bq_words::{DisciplineName, ProcessorCount};

/// One event of a trace, as a [`Sink`](crate::Sink) gets it. An `Install` comes without its policy.
#[derive(Drop)]
pub enum TraceEvent<'a> {
    /// A machine is made.
    Opened {
        discipline: DisciplineName,
        size: ProcessorCount,
    },
    /// The line says nothing: it has no words, or is a comment. A line that is too long is `Bad`, even if it is a comment.
    Skipped {
        line: &'a [u8],
    },
    /// This event is about to be done in the machine.
    Comes {
        event: &'a Event,
        machine: &'a AnyCore,
    },
    /// The event of the last `Comes` was done or refused. `machine` is the machine after the event.
    Answered {
        event: &'a Event,
        answer: &'a Result<Reply, Refusal>,
        machine: &'a AnyCore,
    },
    /// The word of an image is not hex.
    NotHex,
    /// An image does not load.
    NotLoaded {
        fault: LoadFault,
    },
    /// A processor is asked for. The machine may not have it.
    ProcessorAsked {
        processor: u8,
        machine: &'a AnyCore,
    },
    /// A counter has this value.
    CounterRead {
        counter: u8,
        value: u64,
    },
    /// The line is bad. `line` is `None` if it is too long to keep.
    Bad {
        line: Option<&'a [u8]>,
    },
}
