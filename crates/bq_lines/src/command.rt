//! The commands of a trace's lines.

use crate::hex_word::HexWord;
use bq_hooks::Hook;
use bq_parts::Event;
use bq_words::{DisciplineName, ProcessorCount};

/// A command, which is what a line asks of the trace's machine. An image stays in the bytes of its line.
#[derive(Drop)]
pub enum LineCommand<'a> {
    /// A machine is made.
    Machine {
        discipline: DisciplineName,
        size: ProcessorCount,
    },
    /// An event happens in the machine.
    Does(Event),
    /// A wake begins, and ends at once.
    Wake {
        processor: u8,
        task: u16,
        now: u64,
    },
    /// An image is loaded, and its policy installed as an event.
    Load {
        processor: u8,
        hook: Hook,
        generation: u64,
        image: HexWord<'a>,
    },
    /// A processor is shown.
    Show {
        processor: u8,
    },
    /// A counter is shown.
    Counter {
        counter: u8,
    },
}

/// The reading of a line: a command, nothing, or a line that is not of the format.
#[derive(Drop)]
pub enum LineReading<'a> {
    /// The line has no words, or is a comment.
    Skipped,
    /// The line is not of the format.
    Bad,
    /// The line asks for this command.
    Asks(LineCommand<'a>),
}
