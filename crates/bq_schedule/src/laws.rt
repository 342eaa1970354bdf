//! The laws of schedules, each as the contract of a function that does nothing.
ghost use Rattle.bq_schedule.specs.Laws.{AddsUpFairTimes, AddsUpSlices, AddsUpWaits, EndsStarts, FillsObservedTime, IsCharged, LeavesLittle, SharesOut, ShowsClocks, SlicesStandApart, ReportsLatencies, ReportsRuns, ReportsSlices, ReportsStarts, ReportsStops, ReportsWaits};

/// Proves that a schedule shows each processor's last reading, and which task runs there.
pub fn shows_clocks()
    ensures { ShowsClocks }
{}

/// Proves that each answer reports the slice that it ends. Together these are the slices of the history, in their order.
pub fn reports_slices()
    ensures { ReportsSlices }
{}

/// Proves that the time of a task is the sum of its slices, and the time of a processor is the sum of the slices there.
pub fn adds_up_slices()
    ensures { AddsUpSlices }
{}

/// Proves that, in every history of a world, the slices are cut by the world's clocks and running tasks. So the time of a slice is
/// what the world charged its task.
pub fn is_charged()
    ensures { IsCharged }
{}

/// Proves that the slices of a processor do not overlap: each ends no later than the next begins. No slice is empty.
pub fn slices_stand_apart()
    ensures { SlicesStandApart }
{}

/// Proves that the slices of a processor take no more than the time from its first reading to its last. Together with its idle time
/// they fill the observed time.
pub fn fills_observed_time()
    ensures { FillsObservedTime }
{}

/// Proves that a start is reported when its task starts running. If the task has not run since its last wake, the start reports the
/// time from the end of that wake. So a wake has at most one latency: the time to its task's first run.
pub fn reports_latencies()
    ensures { ReportsLatencies }
{}

/// Proves that the fair time of a task changes only at a reading of its processor's clock. It rises by the task's share of the slice
/// that the reading charges: its weight over the sum of the weights that are runnable there, in whole parts.
pub fn shares_out()
    ensures { SharesOut }
{}

/// Proves that all fair times, and the parts that could not be shared out, add up to the time in which any task ran.
pub fn adds_up_fair_times()
    ensures { AddsUpFairTimes }
{}

/// Proves that, when a slice is shared out, fewer parts are left over than there are units of weight.
pub fn leaves_little()
    ensures { LeavesLittle }
{}

/// Proves that the reported runs of a processor, and its last run, which may go on, are what its slices make if each slice is joined
/// to the one that continues it.
pub fn reports_runs()
    ensures { ReportsRuns }
{}

/// Proves that a start is reported exactly when a task starts running, with the task, the processor and the reading of its clock.
pub fn reports_starts()
    ensures { ReportsStarts }
{}

/// Proves that a stop is reported exactly when a task stops running, with the reading of the processor's clock. At a block the task
/// went to sleep; at any other event another task runs instead.
pub fn reports_stops()
    ensures { ReportsStops }
{}

/// Proves that the reported starts of a processor are, in their order, those that its stops ended, and then the start of the running
/// task, if one runs. So each start ends with one stop, and starts and stops alternate.
pub fn ends_starts()
    ensures { EndsStarts }
{}

/// Proves that a start reports how long its task has waited: from when it was placed, preempted or pulled to the start. A pull reports
/// how long the task had waited until then. The wait is 0 if the clocks of two processors disagree so that it would be negative.
pub fn reports_waits()
    ensures { ReportsWaits }
{}

/// Proves that how long a task has waited in all is the sum of the waits in its pulls and starts. It stops at the greatest number.
pub fn adds_up_waits()
    ensures { AddsUpWaits }
{}
