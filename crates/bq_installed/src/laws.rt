//! Laws of policies.
ghost use Rattle.bq_installed.specs.Laws.{AnswersOnce, AnswersWithin};

/// An accepted policy answers within its budget, and calls counters at most sixteen times.
pub fn answers_within()
    ensures { AnswersWithin }
{}

/// An accepted policy's answer depends only on its context, its maps, the clock reading, the processor and the answers of
/// its counters. If these are equal, then its answer, the maps that it leaves, its steps and its calls are equal too.
pub fn answers_once()
    ensures { AnswersOnce }
{}
