//! The form `why`: for each choice the tasks that were there, and why the running one was chosen.
ghost use Rattle.std.specs.Prelude.{◌≡◌};
ghost use Rattle.bq_why.specs.Words.{choice_place};

use crate::asked::Asked;
use crate::choice_text::{RunChoice, write_choice};
use crate::event_text::EventText;
use crate::move_text::{write_place, write_pull, write_pull_facts};
use crate::pull_facts::{PullFacts, pull_facts_in};
use crate::texts::TaskText;
use bq_hooks::{By, Hook};
use bq_parts::{Event, Reply};
use bq_report::{Millis, Names, Window};
use bq_schedule::Change;
use bq_trace::{AnyCore, AnyCpu};
use std::alloc::{AllocError, Global};

/// An event that was done.
#[derive(Clone, Copy)]
pub struct Occurrence<'a> {
    /// The number of the event's line.
    pub number: u64,
    pub event: &'a Event,
    pub reply: &'a Reply,
    /// What the event changed in the schedule.
    pub change: &'a Change,
}

/// The form `why`, for the choices in its window.
#[derive(Drop)]
pub struct WhyForm {
    alloc: Global,
    window: Window,
    /// The task that ran before the next event, at the processor of this event.
    ran_before: Option<u16>,
    /// The line on which the last wake began.
    begun_at_line: Option<u64>,
    /// What the next event sees, if the event is a pull.
    pull_facts: Option<PullFacts>,
}

/// Returns the processor at which an event may choose, and the event's time in nanoseconds. `None` if the event makes no choice.
pub fn processor_and_time(event: &Event) -> Option<(u8, u64)>
    ensures { result ≡ choice_place event.now }
{
    match event {
        Event::EndWake { processor, now }
        | Event::Drain { processor, now }
        | Event::Tick { processor, now }
        | Event::Block { processor, now }
        | Event::Pull {
            processor,
            from: _,
            now,
        } => Some((*processor, *now)),
        _ => None,
    }
}

/// Finds the running task of a processor, if one runs.
fn running(machine: &AnyCore, processor: u8) -> Option<u16> {
    match machine.cpu(processor) {
        Some(AnyCpu::Cfs(cpu)) => cpu.running_id(),
        Some(AnyCpu::Eevdf(cpu)) => cpu.running_id(),
        None => None,
    }
}

impl WhyForm {
    /// Returns a form for the choices in the window.
    pub fn new(alloc: Global, window: Window) -> WhyForm
        ensures { result.window ≡ window }
    {
        WhyForm {
            alloc,
            window,
            ran_before: None,
            begun_at_line: None,
            pull_facts: None,
        }
    }

    /// Notes the processor's state before the event of a line.
    pub fn before_event(
        &mut self,
        number: u64,
        event: &Event,
        machine: &AnyCore,
    ) -> Result<(), AllocError> {
        if let Event::BeginWake { .. } = event {
            self.begun_at_line = Some(number);
        }
        self.ran_before = match processor_and_time(event) {
            Some((processor, _)) => running(machine, processor),
            None => None,
        };
        self.pull_facts = match event {
            Event::Pull {
                processor,
                from,
                ..
            } => pull_facts_in(self.alloc, machine, *processor, *from)?,
            _ => None,
        };
        Ok(())
    }

    /// Adds the choices of an event that was done, if the window shows them.
    pub fn after_event(
        &self,
        done: &Occurrence<'_>,
        machine: &AnyCore,
        names: &Names,
        text: &mut String,
    ) -> Result<(), AllocError> {
        let Some((processor, now)) = processor_and_time(done.event) else {
            return Ok(());
        };
        let at = match &done.change.reading {
            Some(reading) => reading.current,
            None => now,
        };
        if !self.shows(processor, at, done.reply) {
            return Ok(());
        }
        self.write_heading(text, names, done, processor, at)?;
        self.write_reply(text, names, machine, processor, done)
    }

    /// Adds when an event was done, and the words of its line. A wake is named by its task, and so is a wake's end on a line of its
    /// own.
    fn write_heading(
        &self,
        text: &mut String,
        names: &Names,
        done: &Occurrence<'_>,
        processor: u8,
        at: u64,
    ) -> Result<(), AllocError> {
        let time = Millis(at);
        let number = done.number;
        match done.reply {
            Reply::Placed { task, .. } => {
                let who = TaskText { names, task: *task };
                let part = if self.begun_at_line == Some(number) {
                    ""
                } else {
                    "end of the "
                };
                write!(
                    text,
                    "{time} ms  line {number}: {part}wake of {who} at cpu {processor}\n"
                )
            }
            _ => {
                let event = EventText(done.event);
                write!(text, "{time} ms  line {number}: {event}\n")
            }
        }
    }

    /// Adds the choices that a reply reports.
    fn write_reply(
        &self,
        text: &mut String,
        names: &Names,
        machine: &AnyCore,
        processor: u8,
        done: &Occurrence<'_>,
    ) -> Result<(), AllocError> {
        match done.reply {
            Reply::Placed {
                task,
                to,
                by,
                steps,
            } => {
                let asked = Asked::at(machine, processor, Hook::Place, *steps);
                write_place(text, names, *task, *to, *by, &asked)
            }
            Reply::Drained { run, by, steps, .. } | Reply::Ticked { run, by, steps } => {
                let choice = RunChoice {
                    processor,
                    was: self.ran_before,
                    run: *run,
                    by: *by,
                    asked: Asked::at(machine, processor, Hook::Preempt, *steps),
                };
                write_choice(self.alloc, text, names, machine, &choice)
            }
            Reply::Blocked { task, run } => {
                let who = TaskText { names, task: *task };
                write!(text, "    {who} goes to sleep\n")?;
                self.write_start(text, names, machine, processor, *run)
            }
            Reply::Pulled {
                task,
                run,
                by,
                steps,
            } => {
                let asked = Asked::at(machine, processor, Hook::Pull, *steps);
                self.write_pulled(text, names, *task, *by, &asked)?;
                if self.ran_before.is_none() {
                    self.write_start(text, names, machine, processor, *run)
                } else {
                    Ok(())
                }
            }
            _ => Ok(()),
        }
    }

    /// Adds what a pull saw, which task is pulled, and why.
    fn write_pulled(
        &self,
        text: &mut String,
        names: &Names,
        task: Option<u16>,
        by: By,
        asked: &Asked,
    ) -> Result<(), AllocError> {
        match &self.pull_facts {
            Some(facts) => {
                write_pull_facts(text, names, facts)?;
                write_pull(text, names, facts, task, by, asked)
            }
            None => Ok(()),
        }
    }

    /// Tells whether the window shows the choices of a reply.
    fn shows(&self, processor: u8, at: u64, reply: &Reply) -> bool {
        let task = match reply {
            Reply::Placed { task, .. } | Reply::Blocked { task, .. } => Some(*task),
            Reply::Drained { run, .. } | Reply::Ticked { run, .. } => *run,
            Reply::Pulled { task, .. } => *task,
            _ => None,
        };
        self.window.from <= at
            && at <= self.window.to
            && self.window.shows_processor(processor)
            && (self.window.tasks.is_empty()
                || self.shows_if_any(task)
                || self.shows_if_any(self.ran_before))
    }

    /// Tells whether there is a task and the window shows it.
    fn shows_if_any(&self, task: Option<u16>) -> bool {
        match task {
            Some(task) => self.window.shows_task(task),
            None => false,
        }
    }

    /// Adds the discipline's choice at a processor after its task went to sleep, or after a pull while nothing ran.
    fn write_start(
        &self,
        text: &mut String,
        names: &Names,
        machine: &AnyCore,
        processor: u8,
        run: Option<u16>,
    ) -> Result<(), AllocError> {
        let choice = RunChoice {
            processor,
            was: self.ran_before,
            run,
            by: By::Discipline,
            asked: Asked::nobody(),
        };
        write_choice(self.alloc, text, names, machine, &choice)
    }
}
