//! The words for figures.
ghost use Rattle.std.specs.Prelude.{◌≡◌, IfOk, string_bytes};
ghost use Rattle.bq_comparison.specs.Labels.{is_time, name_of_figure, subject_text, unit_of_figure};

use crate::{Figure, HookFigure, LatencyFigure, ProcessorFigure, TaskFigure};
use std::alloc::{AllocError, Global};

/// Says what a figure is of: `task 3`, `cpu 0` or `cpu 0 place`.
pub(crate) fn subject_text(alloc: Global, figure: Figure) -> Result<String, AllocError>
    ensures { IfOk result (λ text. string_bytes text ≡ subject_text figure) }
{
    match figure {
        Figure::Task(task, _) | Figure::Latency(task, _) | Figure::StillWaiting(task) => {
            format!(in alloc; "task {task}")
        }
        Figure::Processor(processor, _) => format!(in alloc; "cpu {processor}"),
        Figure::Hook(processor, hook, _) => {
            let hook = hook.word();
            format!(in alloc; "cpu {processor} {hook}")
        }
    }
}

/// Returns the name of the task that a figure is of. Empty if it is of no task, or the task has no name.
pub(crate) fn name_of_figure<'a>(figure: Figure, names: &'a [String]) -> &'a str
    ensures { result.now ≡ name_of_figure figure names.now }
{
    let task = match figure {
        Figure::Task(task, _) | Figure::Latency(task, _) | Figure::StillWaiting(task) => task,
        _ => return "",
    };
    match names.get(usize::from(task)) {
        Some(name) => name.as_str(),
        None => "",
    }
}

/// Returns the word for a figure, as the report has it.
pub(crate) fn word_of_figure(figure: Figure) -> &'static str {
    match figure {
        Figure::Task(_, figure) => task_word(figure),
        Figure::Latency(_, figure) => latency_word(figure),
        Figure::StillWaiting(_) => "still_waiting",
        Figure::Processor(_, ProcessorFigure::Busy) => "busy",
        Figure::Processor(_, ProcessorFigure::Idle) => "idle",
        Figure::Processor(_, ProcessorFigure::Switches) => "switches",
        Figure::Hook(_, _, HookFigure::Asked) => "asked",
        Figure::Hook(_, _, HookFigure::Overruled) => "overruled",
        Figure::Hook(_, _, HookFigure::Steps) => "steps",
    }
}

/// Returns the word for a figure of a task.
fn task_word(figure: TaskFigure) -> &'static str {
    match figure {
        TaskFigure::Ran => "cpu",
        TaskFigure::Fair => "fair",
        TaskFigure::Waited => "waited",
        TaskFigure::Switches => "switches",
        TaskFigure::Preemptions => "preempted",
        TaskFigure::Migrations => "migrated",
        TaskFigure::Wakes => "wakes",
    }
}

/// Returns the word for a figure of the latency of a task.
fn latency_word(figure: LatencyFigure) -> &'static str {
    match figure {
        LatencyFigure::P50 => "p50",
        LatencyFigure::P95 => "p95",
        LatencyFigure::P99 => "p99",
        LatencyFigure::Greatest => "max",
    }
}

/// Tells whether a figure is a time; otherwise it is a count.
pub(crate) fn is_time(figure: Figure) -> bool
    ensures { result ≡ is_time figure }
{
    match figure {
        Figure::Task(_, figure) => matches!(
            figure,
            TaskFigure::Ran | TaskFigure::Fair | TaskFigure::Waited
        ),
        Figure::Latency(_, _) | Figure::StillWaiting(_) => true,
        Figure::Processor(_, figure) => {
            matches!(figure, ProcessorFigure::Busy | ProcessorFigure::Idle)
        }
        Figure::Hook(_, _, _) => false,
    }
}

/// Returns the unit of a figure: `ns`, or `1` of a count.
pub(crate) fn unit_of_figure(figure: Figure) -> &'static str
    ensures { result.now ≡ unit_of_figure figure }
{
    if is_time(figure) { "ns" } else { "1" }
}
