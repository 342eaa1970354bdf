//! Laws of CFS: each is the contract of a function that does nothing.
ghost use Rattle.bq_disc.specs.Discipline.{IsLawful};
ghost use Rattle.bq_cfs.specs.Cfs.{MarkNeverFalls, cfs};
ghost use Rattle.bq_cfs.specs.LeastChoice.{ChoiceIsLeast};
ghost use Rattle.bq_cfs.specs.Spread.{BeginsWithin, HistoryStaysWithin, StaysWithin};

/// CFS chooses a task exactly when there is one. The choice is one of the tasks, and equal sets give equal choices.
#[tactic(auto, using(crate::specs::Lawful::cfs_lawful))]
pub fn cfs_is_lawful()
    ensures { IsLawful cfs }
{}

/// The choice is one of the given tasks, and none of them comes before it by (v, id).
#[tactic(auto, using(crate::proofs::LeastLemmas::choice_is_least))]
pub fn choice_is_least()
    ensures { ChoiceIsLeast }
{}

/// The mark never falls.
#[tactic(auto, using(crate::proofs::CfsLawLemmas::mark_never_falls))]
pub fn mark_never_falls()
    ensures { MarkNeverFalls }
{}

/// If no virtual time present is beyond V, the processor is within V and d, for any d. The bound is the greater of V and
/// 1,000,000 ns beyond the least virtual time present. Within V and d means two things: the current task's virtual time is
/// at most the bound, and no virtual time present is beyond the bound by more than d ns take at weight 15.
#[tactic(auto, using(crate::proofs::SpreadBeginLemmas::begins_within))]
pub fn begins_within()
    ensures { BeginsWithin }
{}

/// A Tick or a Block keeps a processor within V and d if the clock rises by at most d ns and only the discipline decides whether
/// the current task gives way. It is presumed that ids differ, that each weight present is from 15 to 88761, and that no
/// virtual time present is beyond 2^62. The event keeps these premises too.
pub fn stays_within()
    ensures { StaysWithin }
{}

/// Any list of such events, one after another, keeps a processor within V and d.
pub fn history_stays_within()
    ensures { HistoryStaysWithin }
{}
