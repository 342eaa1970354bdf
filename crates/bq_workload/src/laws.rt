//! Laws of the lengths that are drawn. Each is a theorem over its definitions, and its function does nothing.
ghost use Rattle.bq_workload.specs.Laws.{GivesLogarithm, FallsWithWords};

/// The digits that are computed of a logarithm are never more than it, and less than two units of the last digit below it.
pub fn gives_logarithm()
    ensures { GivesLogarithm }
{}

/// Greater words never give a longer length.
pub fn falls_with_words()
    ensures { FallsWithWords }
{}
