//! The laws of the world, each as the contract of a function that does nothing.
ghost use Rattle.bq_core.specs.Laws.{HistoryIsOrderly, OpeningIsOrderly, RunKeepsOrder, StepIsOne, StepKeepsOrder, StepKeepsOrderAnyhow};

/// A world in which nothing has happened is in order: it has no task and no policy.
pub fn opening_is_orderly()
    ensures { OpeningIsOrderly }
{}

/// Each event, refused or not, keeps a world in order, under every discipline.
pub fn step_keeps_order()
    ensures { StepKeepsOrder }
{}

/// Each event keeps a world in order, whatever the policies answer.
pub fn step_keeps_order_anyhow()
    ensures { StepKeepsOrderAnyhow }
{}

/// Events one after another keep a world in order, and each of them leaves one in order.
pub fn run_keeps_order()
    ensures { RunKeepsOrder }
{}

/// Every world that events reach from the opening one is in order.
pub fn history_is_orderly()
    ensures { HistoryIsOrderly }
{}

/// What an event does is decided by the world, the event and the counters' answers: there is one reply, one world
/// afterwards, and one list of calls. The exception is an event for which memory runs out.
pub fn step_is_one()
    ensures { StepIsOne }
{}
