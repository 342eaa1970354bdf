//! Laws that hold under every discipline: each is the contract of a function that does nothing.
ghost use Rattle.bq_disc.specs.Pulls.{IsLawfulPull, pull_of};

/// A task is pulled exactly when the other processor has at least two more tasks and some task of its queue may use the
/// puller. The pulled task is such a task, and none of them has a greater (v, id). Equal sets of tasks give equal pulls.
#[tactic(auto, using(crate::proofs::PullLemmas::pull_is_lawful))]
pub fn pull_is_lawful()
    ensures { IsLawfulPull pull_of }
{}
