//! Runs of tasks, each made from its start: up to its stop, or up to the last reading of the clock if it goes on.
ghost use Rattle.std.specs.Prelude.{◌≡◌};
ghost use Rattle.bq_drawing.specs.Runs.{run_ended_by, run_on, run_to};

use bq_schedule::{ProcessorFigures, Slice, Start, Stop};

/// Returns a run with this start that ends at a moment.
fn run_to(at: u64, start: &Start) -> Slice
    ensures { result ≡ run_to at start.now }
{
    Slice {
        processor: start.processor,
        task: start.task,
        from: start.at,
        to: at,
    }
}

/// Returns the run that a change ends, if it ends one.
pub fn ended_run(stop: Option<Stop>) -> Option<Slice>
    ensures { result ≡ run_ended_by stop }
{
    let stop = stop?;
    Some(run_to(stop.at, &stop.start))
}

/// Returns the run that goes on at a processor, up to the last reading of its clock.
pub fn run_on(figures: &ProcessorFigures) -> Option<Slice>
    ensures { result ≡ run_on figures.now }
{
    let start = figures.running?;
    Some(run_to(figures.last, &start))
}
