//! The law of replays: a replay of a written trace answers what the simulation got.
ghost use Rattle.bq_simulate.specs.Replays.{TextsAreReplayed};

/// A replay of the text of a simulation answers what the simulation got.
pub fn texts_are_replayed()
    ensures { TextsAreReplayed }
{}
