//! Laws of fairness: each is the contract of a function that does nothing. docs/FAIRNESS.md explains them.
ghost use Rattle.bq_fairness.specs.CfsFairness.{CfsServesInProportion, CfsServesItsShare, CfsServesWithin, CfsWaiting};
ghost use Rattle.bq_fairness.specs.EevdfDeadlines.{EevdfOwedBySlices, EevdfServesBySlices, EevdfSharesBySlices, EevdfWaitsBySlices, NoneIsBeyondADeadline};
ghost use Rattle.bq_fairness.specs.EevdfFairness.{BeginsBalanced, DecideRunsEligible, EevdfServesInProportion, EevdfServesItsShare, EevdfWaiting, HistoryStaysBalanced, NoneIsOwedLong, NoneIsOwedMore, StaysBalanced, TickRunsEligible};
ghost use Rattle.bq_fairness.specs.Events.{EventsAreSteps};
ghost use Rattle.bq_fairness.specs.Steps.{CfsServesThroughout, EevdfServesThroughout};
ghost use Rattle.bq_fairness.specs.Work.{BooksTheTime, MovesTheSum};

/// What Ticks book is the sum over their charges of vdelta times the weight. Under each discipline, if a task runs at the
/// start, this is 1024 times the rise of the clock, less what rounding takes: less than one weight at each Tick, since
/// vdelta is rounded down.
pub fn books_the_time()
    ensures { BooksTheTime }
{}

/// Under each discipline, the sum of weight times v rises by exactly what Ticks book. The sum of the weights does not change.
pub fn moves_the_sum()
    ensures { MovesTheSum }
{}

/// CFS, proportional service. Take Ticks that only the discipline decides, at each of which the clock rises by at most r, and two
/// present tasks a and b. Then a comes to no more virtual time than the sum of three: the greater of where it began and
/// 1,000,000 beyond where b began; what b was served; and what r takes at a's own weight.
pub fn cfs_serves_in_proportion()
    ensures { CfsServesInProportion }
{}

/// CFS: what any two tasks are served, in virtual time, differs by at most the sum of three: their distance at the start,
/// 1,000,000, and one rise at the weight of the one that was served more. The bound does not grow with the history.
pub fn cfs_serves_within()
    ensures { CfsServesWithin }
{}

/// CFS, service by share: what a task is served, times the sum of all weights, is at least what is booked, except for a
/// bound that does not grow with the history.
pub fn cfs_serves_its_share()
    ensures { CfsServesItsShare }
{}

/// CFS, bounded waiting. Let all v lie from L to L + S at the start, and let W be the sum of the n tasks' weights. A task
/// that is served nothing waits for at most W (S + 1,000,000) / 1024 + n r, and less than 87 ns a Tick for rounding.
pub fn cfs_waiting_is_bounded()
    ensures { CfsWaiting }
{}

/// EEVDF: the task that runs after a decision is eligible. A Tick, a Block, a Drain and a pull to an idle processor end in a
/// decision, as `events_are_steps` says.
pub fn eevdf_decides_eligible()
    ensures { DecideRunsEligible }
{}

/// EEVDF: the task that runs after a Tick is eligible.
pub fn eevdf_runs_eligible()
    ensures { TickRunsEligible }
{}

/// EEVDF: if no task is ahead of the mean by more than E / W, the processor is balanced for E and any r. Balanced means two
/// things: the running task is ahead by no more than E / W, and each other task by no more than that and the part of one
/// rise at its own weight that does not move the mean.
pub fn eevdf_begins_balanced()
    ensures { BeginsBalanced }
{}

/// EEVDF: a Tick at which the clock rises by at most r keeps a processor balanced. It is presumed that ids differ, that
/// weights are in the table's range and that virtual times are at most 2^62. The Tick keeps these premises too.
pub fn eevdf_stays_balanced()
    ensures { StaysBalanced }
{}

/// EEVDF: any number of such Ticks keep a processor balanced. So no task is ever ahead of the mean by more than E / W and
/// one rise.
pub fn eevdf_history_stays_balanced()
    ensures { HistoryStaysBalanced }
{}

/// EEVDF: the lags of all present tasks add up to 0. So at a balanced processor no task is owed more than the others are
/// ahead by together.
pub fn eevdf_none_is_owed_more()
    ensures { NoneIsOwedMore }
{}

/// EEVDF, as a time: if n tasks are present, none is owed more than n - 2 rises, its own share of one, and E for the others.
pub fn eevdf_none_is_owed_long()
    ensures { NoneIsOwedLong }
{}

/// EEVDF, service by share: what a task is served, times its weight and W, is at least its weight times what is booked,
/// except for a bound that does not grow with the history.
pub fn eevdf_serves_its_share()
    ensures { EevdfServesItsShare }
{}

/// EEVDF, proportional service: of two tasks, the first comes to no more virtual time than the second, except for what the
/// first may be ahead of the mean and the second may be owed.
pub fn eevdf_serves_in_proportion()
    ensures { EevdfServesInProportion }
{}

/// EEVDF, bounded waiting: while a task is served nothing the clock rises by a bounded time.
pub fn eevdf_waiting_is_bounded()
    ensures { EevdfWaiting }
{}

/// EEVDF, by slices. If no v is beyond V at the start, no task ever comes beyond the greater of V and another task's
/// deadline by more than one rise at its own weight. And the deadline of each task is never more than one slice beyond its
/// v.
pub fn eevdf_none_is_beyond_a_deadline()
    ensures { NoneIsBeyondADeadline }
{}

/// EEVDF: if no v is beyond V at the start, the mean never exceeds the greater of V and any task's v plus its slice by more
/// than one rise of each task. So what a task is owed is bounded by its own slice.
pub fn eevdf_owed_by_slices()
    ensures { EevdfOwedBySlices }
{}

/// EEVDF, proportional service by slices. Of two tasks a and b, a comes to no more virtual time than the sum of three: the
/// greater of where it began and one slice of b's beyond where b began; what b was served; and one rise at a's own weight.
/// The number of tasks does not matter.
pub fn eevdf_serves_by_slices()
    ensures { EevdfServesBySlices }
{}

/// EEVDF, service by share, with a bound in terms of the task's own slice.
pub fn eevdf_shares_by_slices()
    ensures { EevdfSharesBySlices }
{}

/// EEVDF, bounded waiting by slices. Let all v lie from L to L + S at the start. A task that is served nothing waits for at
/// most W / 1024 times the sum of S and its slice's virtual time, and n r, and less than 87 ns a Tick for rounding.
pub fn eevdf_waits_by_slices()
    ensures { EevdfWaitsBySlices }
{}

/// CFS, while other tasks come and go. Of two tasks that are present throughout, the one comes no further beyond the other
/// than if nothing entered or left, at whatever virtual time the others enter. Here r is the most that the clock rises
/// between two decisions.
pub fn cfs_serves_throughout()
    ensures { CfsServesThroughout }
{}

/// EEVDF, while other tasks come and go: the bound of `eevdf_serves_by_slices` holds for two tasks that are present throughout.
pub fn eevdf_serves_throughout()
    ensures { EevdfServesThroughout }
{}

/// Each event of a processor is some of those steps, if only the discipline decides: a Tick, a Block, a Drain, the end of a wake,
/// and a pull at either end.
pub fn events_are_steps()
    ensures { EventsAreSteps }
{}
