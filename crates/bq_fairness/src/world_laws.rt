//! Laws of the world's steps at one processor: each is the contract of a function that does nothing.
ghost use Rattle.bq_fairness.specs.Passing.{CfsPasses, DisciplinePasses};
ghost use Rattle.bq_fairness.specs.Seen.{EventIsSteps, HistoryIsSteps};
ghost use Rattle.bq_fairness.specs.WorldFairness.{CfsWorldServes, EevdfWorldServes};

/// A Tick whose answer is the discipline's own, and a Block, do at their processor what the definitions of one processor
/// say. After a Tick, its time has passed and the discipline has decided who runs. After a Block, its current task is gone
/// and the queue's choice runs. The shares of these events in any parts of a world do the same.
#[tactic(auto, using(crate::proofs::PassingLemmas::discipline_passes))]
pub fn discipline_passes()
    ensures { DisciplinePasses }
{}

/// Under CFS, the laws of the spread apply to what the world's Ticks and Blocks leave, refused Blocks included.
#[tactic(auto, using(crate::proofs::PassingLemmas::cfs_passes))]
pub fn cfs_passes()
    ensures { CfsPasses }
{}

/// What each event of the world, refused or not, does at a processor is a few steps there, by the definitions of one
/// processor: time passes, tasks enter and leave, the discipline decides. It is presumed that the discipline answered if the
/// event asks who runs at that processor. Elsewhere policies may answer as they like.
#[tactic(auto, using(crate::proofs::SeenLemmas::event_is_steps))]
pub fn event_is_steps()
    ensures { EventIsSteps }
{}

/// A history of the world is, at each of its processors, a history of that processor's steps. The laws of fairness apply to
/// those.
#[tactic(auto, using(crate::proofs::SeenLemmas::history_is_steps))]
pub fn history_is_steps()
    ensures { HistoryIsSteps }
{}

/// CFS, in the world: take two tasks that stay at a processor where only the discipline decides. They are served in
/// proportion to their weights from then on, except for their distance at the start, one granularity and one rise of the
/// clock. This holds whatever has happened since the opening, and whatever policies do elsewhere.
#[tactic(auto, using(crate::proofs::WorldLemmas::cfs_world_serves))]
pub fn cfs_world_serves()
    ensures { CfsWorldServes }
{}

/// EEVDF, in the world: such tasks are served in proportion too, with the other task's slice in place of the granularity.
#[tactic(auto, using(crate::proofs::WorldLemmas::eevdf_world_serves))]
pub fn eevdf_world_serves()
    ensures { EevdfWorldServes }
{}
