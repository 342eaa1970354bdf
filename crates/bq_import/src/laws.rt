//! Laws of copies. Each is a theorem over definitions, and its function does nothing.
ghost use Rattle.bq_import.specs.Laws.{GoesForward, SameBudget, SameRuns, SameSafety};

/// A copy has the runs of its original: equal answers, maps and calls of counters, in as many steps.
pub fn same_runs()
    ensures { SameRuns }
{}

/// A copy is safe within a budget exactly if its original is.
pub fn same_safety()
    ensures { SameSafety }
{}

/// The longest path of a copy has as many instructions as that of its original, so the verifier gives both one budget.
pub fn same_budget()
    ensures { SameBudget }
{}

/// Each jump of a copy goes to a later instruction, and none of its instructions goes on past the end: no check of the
/// control graph finds a jump or an end at fault.
pub fn goes_forward()
    ensures { GoesForward }
{}
