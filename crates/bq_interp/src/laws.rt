//! Laws of runs.

ghost use Rattle.bq_interp.specs.Laws.{OneRun};

/// Two runs of one program on the same context, maps, clock and processor are the same run if their counters gave the
/// same answers, as far as both lists of calls go. They have the same calls, answer, maps and number of instructions.
pub fn one_run()
    ensures { OneRun }
{}
