//! The law of traces: a replay of what a simulation writes gets the same answers.
ghost use Rattle.bq_experiment.specs.Traces.{TracesAreReplayed};

/// A replay of the trace that a simulation writes gives the same answers that the simulation got.
pub fn traces_are_replayed()
    ensures { TracesAreReplayed }
{}
