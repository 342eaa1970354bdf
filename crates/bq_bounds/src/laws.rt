//! Laws of what is measured: each is the contract of a function that does nothing.
ghost use Rattle.bq_bounds.specs.Measures.{LagsWithin, MeasuresWithin, WatchesWithin};
ghost use Rattle.bq_bounds.specs.Nearness.{CfsStaysNear, EevdfStaysNear, KeepsTheGreatest};
ghost use Rattle.bq_bounds.specs.Owing.{EevdfOwesWithin};

/// CFS: count from a decision of the discipline, while no task comes or goes. Then the running task is beyond no other task by more than
/// 1,000,000 and the virtual time that the rise of the clock since then takes at its weight.
pub fn cfs_stays_near()
    ensures { CfsStaysNear }
{}

/// EEVDF: in that time the running task is ahead of the mean by no more than the virtual time of that rise at its weight.
pub fn eevdf_stays_near()
    ensures { EevdfStaysNear }
{}

/// The greatest of some charges is one of them, and none has a greater difference.
pub fn keeps_the_greatest()
    ensures { KeepsTheGreatest }
{}

/// EEVDF: count from a point in time at which the furthest task is ahead of the mean by some virtual time. While no task comes or goes and the clock
/// rises by at most r between two decisions, no task is owed more than n - 2 rises, its own share of one rise, and the time that this
/// virtual time takes at the weight of the other tasks.
pub fn eevdf_owes_within()
    ensures { EevdfOwesWithin }
{}

/// No measure passes its bound: count from a decision of the discipline, while no task comes or goes. Then the measure of each
/// charge of the running task is at most the bound that is reported with it.
pub fn measures_within()
    ensures { MeasuresWithin }
{}

/// What a watch keeps does not pass its bound, either. A watch counts from a decision of the discipline, and at each reading it counts
/// how far the clock has risen since then. The greatest charge that it keeps is at most its bound. No other event changes that charge.
pub fn watches_within()
    ensures { WatchesWithin }
{}

/// EEVDF: what any task is owed does not pass its bound. From the beginning of a stretch, while no task comes or goes, the greatest lag
/// that is kept is at most its bound.
pub fn lags_within()
    ensures { LagsWithin }
{}
