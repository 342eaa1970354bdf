//! All figures of a report.
ghost use Rattle.std.specs.Prelude.{◌≡◌, IfOk};
ghost use Rattle.bq_comparison.specs.Report.{figures_of_processor, figures_of_report, figures_of_task};

use crate::figure::{Figure, HookFigure, LatencyFigure, ProcessorFigure, TaskFigure};
use bq_hooks::Hook;
use std::alloc::{AllocError, Global};

/// The numbers of tasks and processors.
#[derive(Clone, Copy)]
pub struct MachineSize {
    pub tasks: u16,
    pub processors: u8,
}

/// Returns the figures of each task, then those of each processor and its hooks.
pub fn all_figures(alloc: Global, size: MachineSize) -> Result<Vec<Figure>, AllocError>
    ensures { IfOk result (λ v. v.items ≡ figures_of_report size) }
{
    let mut figures = Vec::new(alloc);
    'tasks: for task in 0..size.tasks {
        figures.extend_from_slice(&task_figures(task))?;
    }
    'processors: for processor in 0..size.processors {
        figures.extend_from_slice(&processor_figures(processor))?;
    }
    Ok(figures)
}

/// Returns the figures of a task, in the order of the report.
fn task_figures(task: u16) -> [Figure; 12]
    ensures { result ≡ figures_of_task task }
{
    [
        Figure::Task(task, TaskFigure::Ran),
        Figure::Task(task, TaskFigure::Fair),
        Figure::Task(task, TaskFigure::Waited),
        Figure::Task(task, TaskFigure::Switches),
        Figure::Task(task, TaskFigure::Preemptions),
        Figure::Task(task, TaskFigure::Migrations),
        Figure::Task(task, TaskFigure::Wakes),
        Figure::Latency(task, LatencyFigure::P50),
        Figure::Latency(task, LatencyFigure::P95),
        Figure::Latency(task, LatencyFigure::P99),
        Figure::Latency(task, LatencyFigure::Greatest),
        Figure::StillWaiting(task),
    ]
}

/// Returns the figures of a processor and of its hooks, in the order of the report.
fn processor_figures(processor: u8) -> [Figure; 12]
    ensures { result ≡ figures_of_processor processor }
{
    [
        Figure::Processor(processor, ProcessorFigure::Busy),
        Figure::Processor(processor, ProcessorFigure::Idle),
        Figure::Processor(processor, ProcessorFigure::Switches),
        Figure::Hook(processor, Hook::Place, HookFigure::Asked),
        Figure::Hook(processor, Hook::Place, HookFigure::Overruled),
        Figure::Hook(processor, Hook::Place, HookFigure::Steps),
        Figure::Hook(processor, Hook::Preempt, HookFigure::Asked),
        Figure::Hook(processor, Hook::Preempt, HookFigure::Overruled),
        Figure::Hook(processor, Hook::Preempt, HookFigure::Steps),
        Figure::Hook(processor, Hook::Pull, HookFigure::Asked),
        Figure::Hook(processor, Hook::Pull, HookFigure::Overruled),
        Figure::Hook(processor, Hook::Pull, HookFigure::Steps),
    ]
}
