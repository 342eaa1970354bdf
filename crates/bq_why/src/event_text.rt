//! Events and refusals in words.

use bq_disc::limits::TASKS;
use bq_disc::with_slices;
use bq_lines::Keyword;
use bq_parts::{Event, Refusal};
use bq_weights::with_nice_values;
use std::fmt;

/// An event as the trace names it, without its time. The beginning of a wake, which `wake` and `begin` both ask for, is named as a
/// wake.
#[derive(Clone, Copy)]
pub struct EventText<'a>(pub &'a Event);

impl fmt::Display for EventText<'_> {
    fn fmt<W: fmt::Write>(&self, f: &mut fmt::Formatter<W>) -> fmt::Result {
        if let Event::BeginWake { processor, task } = self.0 {
            return write!(f, "wake of {task} at cpu {processor}");
        }
        f.write_str(Keyword::of_event(self.0).word())?;
        let (first, second) = numbers_of(self.0);
        if let Some(first) = first {
            write!(f, " {first}")?;
        }
        if let Some(second) = second {
            write!(f, " {second}")?;
        }
        match self.0 {
            Event::Install { hook, .. } => {
                f.write_str(" ")?;
                f.write_str(hook.word())
            }
            _ => Ok(()),
        }
    }
}

/// Returns the task and the processors that an event names, in the order of its line.
fn numbers_of(event: &Event) -> (Option<u16>, Option<u16>) {
    match event {
        Event::Admit { task, .. } | Event::Retire { task } => (Some(*task), None),
        Event::Draw => (None, None),
        Event::BeginWake { processor, task } => (Some(u16::from(*processor)), Some(*task)),
        Event::Install { processor, .. }
        | Event::EndWake { processor, .. }
        | Event::Drain { processor, .. }
        | Event::Tick { processor, .. }
        | Event::Block { processor, .. } => (Some(u16::from(*processor)), None),
        Event::Pull {
            processor,
            from,
            ..
        } => (Some(u16::from(*processor)), Some(u16::from(*from))),
    }
}

/// A refused event, and why it was refused, in words.
#[derive(Clone, Copy)]
pub struct RefusedEvent<'a> {
    pub event: &'a Event,
    pub refusal: Refusal,
}

impl fmt::Display for RefusedEvent<'_> {
    fn fmt<W: fmt::Write>(&self, f: &mut fmt::Formatter<W>) -> fmt::Result {
        let event = EventText(self.event);
        if matches!(self.refusal, Refusal::NoTask) && !is_task(self.event) {
            let greatest = TASKS - 1;
            return write!(f, "{event}: a task's number is at most {greatest}");
        }
        let because = RefusalText(self.refusal);
        write!(f, "{event}: {because}")
    }
}

/// Tells whether the task that an event names is one that there may be.
fn is_task(event: &Event) -> bool {
    match event {
        Event::Admit { task, .. } | Event::Retire { task } | Event::BeginWake { task, .. } => {
            *task < TASKS
        }
        _ => true,
    }
}

/// Why an event was refused, in words.
#[derive(Clone, Copy)]
pub struct RefusalText(pub Refusal);

impl fmt::Display for RefusalText {
    fn fmt<W: fmt::Write>(&self, f: &mut fmt::Formatter<W>) -> fmt::Result {
        match self.0 {
            Refusal::Older(newest) => write!(f, "generation {newest} stands there already"),
            other => f.write_str(reason(other)),
        }
    }
}

/// Says the reason of a refusal, in words without a number.
fn reason(refusal: Refusal) -> &'static str {
    match refusal {
        Refusal::NoProcessor => "the machine has no such processor",
        Refusal::NoTask => "no such task is admitted",
        Refusal::NotBlocked => "the task does not sleep",
        Refusal::TaskExists => "the task is admitted already",
        Refusal::EmptyMask => "the mask has no processor of the machine",
        Refusal::Nice => with_nice_values!("a nice value is from ", ""),
        Refusal::Slice => with_slices!("a slice is from ", " ns"),
        Refusal::Idle => "nothing runs there",
        Refusal::SameProcessor => "a processor does not pull from itself",
        Refusal::InHand => "a wake has begun there and has not ended",
        Refusal::NothingInHand => "no wake has begun there",
        Refusal::Older(_) => "a newer generation stands there already",
        Refusal::NotDrawn => "that generation was not drawn",
        Refusal::WrongHook => "the policy was verified for another hook",
        Refusal::OutOfMemory => "out of memory",
    }
}
