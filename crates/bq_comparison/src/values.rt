//! The value of a figure.
ghost use Rattle.std.specs.Prelude.{◌≡◌};
ghost use Rattle.bq_schedule.specs.WakeLatencies.{latencies_of};
ghost use Rattle.bq_comparison.specs.Values.{AreReordered, IsPercentile, IsFigureValue, hook_value, percentile_value, processor_value, task_value};

use crate::figure::{Figure, HookFigure, LatencyFigure, ProcessorFigure, TaskFigure};
use bq_hooks::Hook;
use bq_report::tables::nanoseconds;
use bq_report::{still_waiting, waited_in_all};
use bq_schedule::{Percentiles, Schedule, WakeLatencies};

/// Returns the value of a figure in a schedule in which tasks had these latencies. None for a latency of a task that had none,
/// and for the wait of a task that has run since its last wake. If the figure is a latency of a task, the call sorts the task's
/// latencies.
pub fn value_of(schedule: &Schedule, latencies: &mut WakeLatencies, figure: Figure) -> Option<u64>
    ensures value { IsFigureValue schedule.now latencies.old figure result }
    ensures kept { AreReordered latencies.old latencies.new }
{
    match figure {
        Figure::Task(task, figure) => Some(task_value(schedule, task, figure)),
        Figure::Latency(task, figure) => latency_value(latencies, task, figure),
        Figure::StillWaiting(task) => still_waiting(schedule, task),
        Figure::Processor(processor, figure) => Some(processor_value(schedule, processor, figure)),
        Figure::Hook(processor, hook, figure) => {
            Some(hook_value(schedule, processor, hook, figure))
        }
    }
}

/// Returns the number of a figure of a task.
fn task_value(schedule: &Schedule, task: u16, figure: TaskFigure) -> u64
    ensures { result ≡ task_value schedule.now task figure }
{
    let figures = schedule.task(task);
    match figure {
        TaskFigure::Ran => figures.time,
        TaskFigure::Fair => nanoseconds(schedule.fair_time(task)),
        TaskFigure::Waited => waited_in_all(schedule, task),
        TaskFigure::Switches => figures.switches,
        TaskFigure::Preemptions => figures.preemptions,
        TaskFigure::Migrations => figures.migrations,
        TaskFigure::Wakes => figures.wakes,
    }
}

/// Returns the number of a figure of a processor.
fn processor_value(schedule: &Schedule, processor: u8, figure: ProcessorFigure) -> u64
    ensures { result ≡ processor_value schedule.now processor figure }
{
    let figures = schedule.processor(processor);
    match figure {
        ProcessorFigure::Busy => figures.busy,
        ProcessorFigure::Idle => figures.idle(schedule.observed_time()),
        ProcessorFigure::Switches => figures.switches,
    }
}

/// Returns the number of a figure of a hook at a processor.
fn hook_value(schedule: &Schedule, processor: u8, hook: Hook, figure: HookFigure) -> u64
    ensures { result ≡ hook_value schedule.now processor hook figure }
{
    let figures = schedule.processor(processor);
    let figures = match hook {
        Hook::Place => figures.place,
        Hook::Preempt => figures.preempt,
        Hook::Pull => figures.pull,
    };
    match figure {
        HookFigure::Asked => figures.asked,
        HookFigure::Overruled => figures.overruled,
        HookFigure::Steps => figures.steps,
    }
}

/// Returns a figure of a task's latencies.
fn latency_value(latencies: &mut WakeLatencies, task: u16, figure: LatencyFigure) -> Option<u64>
    ensures value { IsPercentile figure (latencies_of latencies.old task) result }
    ensures kept { AreReordered latencies.old latencies.new }
{
    percentile_value(latencies.percentiles(task), figure)
}

/// Returns the percentile that is named, of these.
fn percentile_value(percentiles: Percentiles, figure: LatencyFigure) -> Option<u64>
    ensures { result ≡ percentile_value percentiles figure }
{
    match figure {
        LatencyFigure::P50 => percentiles.p50,
        LatencyFigure::P95 => percentiles.p95,
        LatencyFigure::P99 => percentiles.p99,
        LatencyFigure::Greatest => percentiles.greatest,
    }
}
