//! How near each processor came to the bounds of its discipline: a table below the report.
ghost use Rattle.std.specs.Prelude.{◌≡◌, ◌++◌, ℕ, List, OnOk, string_bytes};
ghost use Rattle.bq_timeline.specs.ScreenTexts.{under_bounds_head};

use bq_bounds::{Bounds, Charge, Glance, RunningTask, how_it_stands};
use bq_disc::RunQueue;
use bq_disc::limits::PROCESSORS;
use bq_disc::mask::allows;
use bq_parts::{Cpu, Event, Reply};
use bq_report::percent::Percent;
use bq_report::tables::write_millis;
use bq_schedule::Change;
use bq_trace::{AnyCore, AnyCpu};
use bq_why::{list_present, processor_and_time};
use bq_words::DisciplineName;
use std::alloc::{AllocError, Global};

/// The head of the table, above the lines of the bounds. It begins with an empty line.
const HEAD: &str =
    "\n  cpu law                 charges left out  greatest ms   at most ms   of it\n";

/// The charges of all processors, measured against the bounds of the discipline, event by event.
#[derive(Drop)]
pub struct BoundsTable {
    alloc: Global,
    bounds: Bounds,
    /// The running task of the next event's processor, if one runs.
    running: Option<RunningTask>,
}

impl BoundsTable {
    /// Returns a table for this many processors, before the first event.
    pub fn new(
        alloc: Global,
        discipline: DisciplineName,
        processors: usize,
    ) -> Result<BoundsTable, AllocError> {
        Ok(BoundsTable {
            alloc,
            bounds: Bounds::new(alloc, discipline, processors)?,
            running: None,
        })
    }

    /// Notes the running task of an event's processor before the event.
    pub fn before_event(&mut self, event: &Event, machine: &AnyCore) {
        self.running = match processor_and_time(event) {
            Some((processor, _)) => match machine.cpu(processor) {
                Some(AnyCpu::Cfs(cpu)) => how_it_stands(cpu),
                Some(AnyCpu::Eevdf(cpu)) => how_it_stands(cpu),
                None => None,
            },
            None => None,
        };
    }

    /// Measures what an event charged, and what tasks are owed after it.
    pub fn after_event(
        &mut self,
        event: &Event,
        reply: &Reply,
        machine: &AnyCore,
        change: &Change,
    ) -> Result<(), AllocError> {
        let Some(reading) = change.reading else {
            return Ok(());
        };
        let processor = reading.processor;
        let rise = reading.current.saturating_sub(reading.previous);
        let running = self.running;
        match machine.cpu(processor) {
            Some(AnyCpu::Cfs(cpu)) => {
                self.bounds
                    .take(processor, event, reply, running, rise, cpu.mark());
            }
            Some(AnyCpu::Eevdf(cpu)) => {
                self.bounds
                    .take(processor, event, reply, running, rise, cpu.mark());
                let is_done = match glance_at(cpu) {
                    Some(glance) => self
                        .bounds
                        .owe_unseen(processor, event, reply, rise, glance),
                    None => false,
                };
                if !is_done {
                    let tasks = list_present(self.alloc, cpu)?;
                    self.bounds
                        .owe(processor, event, reply, rise, tasks.as_slice());
                }
            }
            None => {}
        }
        Ok(())
    }

    /// Adds the lines of each of these processors at which a law was measured. Adds nothing if none was.
    pub fn write(&self, processors: u64, text: &mut String) -> Result<(), AllocError>
        ensures { OnOk result ((lines : List ℕ) × (string_bytes text.new ≡ string_bytes text.old ++ under_bounds_head lines)) }
    {
        let mut lines = String::new(self.alloc);
        for number in 0..PROCESSORS {
            if allows(processors, number) {
                self.write_charges(number, &mut lines)?;
                self.write_lags(number, &mut lines)?;
            }
        }
        write_table(lines.as_str(), text)
    }

    /// Adds the line of what a processor charged.
    fn write_charges(&self, number: u8, text: &mut String) -> Result<(), AllocError> {
        let law = match self.bounds.discipline {
            DisciplineName::Cfs => "beyond the least",
            DisciplineName::Eevdf => "ahead of the mean",
        };
        match self.bounds.watch(number) {
            Some(watch) => write_line(
                number,
                law,
                watch.measured,
                watch.left_out,
                watch.greatest,
                text,
            ),
            None => Ok(()),
        }
    }

    /// Adds the line of what a processor's tasks were owed.
    fn write_lags(&self, number: u8, text: &mut String) -> Result<(), AllocError> {
        match self.bounds.lags(number) {
            Some(lags) => write_line(
                number,
                "owed to any task",
                lags.measured,
                lags.left_out,
                lags.greatest,
                text,
            ),
            None => Ok(()),
        }
    }
}

/// Adds the table of these lines. Adds nothing if there are none.
fn write_table(lines: &str, text: &mut String) -> Result<(), AllocError>
    ensures { OnOk result (string_bytes text.new ≡ string_bytes text.old ++ under_bounds_head lines.now) }
{
    if lines.is_empty() {
        return Ok(());
    }
    text.push_str(HEAD)?;
    text.push_str(lines)
}

/// Returns what is known of a processor's tasks right after a charge, by its mark and by the running and the first waiting task. `None` if no
/// task runs.
fn glance_at<Q: RunQueue>(cpu: &Cpu<Q>) -> Option<Glance> {
    let running = how_it_stands(cpu)?;
    let least = match running.least {
        Some(least) => least.min(running.v),
        None => running.v,
    };
    Some(Glance {
        least,
        mean: cpu.mark(),
    })
}

/// Adds a line of the table. Adds nothing if nothing was measured.
fn write_line(
    number: u8,
    law: &str,
    measured: u64,
    left_out: u64,
    greatest: Option<Charge>,
    text: &mut String,
) -> Result<(), AllocError> {
    let Some(greatest) = greatest else {
        return Ok(());
    };
    write!(text, "{number:>5} {law:<17} {measured:>9} {left_out:>8}")?;
    write_millis(text, greatest.difference)?;
    write_millis(text, greatest.bound)?;
    let part = Percent {
        part: greatest.difference,
        whole: greatest.bound,
    };
    write!(text, "  {part} %\n")
}
