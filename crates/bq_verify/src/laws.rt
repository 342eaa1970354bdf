//! Laws of safe programs, and of the fault that is named for other programs. Each law is a theorem over definitions;
//! the function of a law does nothing.

ghost use Rattle.bq_verify.specs.Laws.{FaultlessHasNone, OneFirstFault, RunsOnLonger, SafeOnLonger};
ghost use Rattle.bq_verify.specs.Worked.{CallingIsStraight, WorkedIsStraight};

/// A program that is safe on a context is safe on a longer one, within the same budget. So a program that is safe on
/// the first version of a context is safe on the second version, which is longer.
pub fn safe_on_longer()
    ensures { SafeOnLonger }
{}

/// A run on the first bytes of a context is also a run on the whole context, with the same steps, calls, answer and
/// maps.
pub fn runs_on_longer()
    ensures { RunsOnLonger }
{}

/// The control graph of a program has at most one first fault: its cause and its slot.
pub fn one_first_fault()
    ensures { OneFirstFault }
{}

/// A program whose control graph is accepted has no first fault.
pub fn faultless_has_none()
    ensures { FaultlessHasNone }
{}

/// There are straight programs: one has a store, a look-up, the test of its answer and a load of the entry.
pub fn worked_is_straight()
    ensures { WorkedIsStraight }
{}

/// Another straight program updates an entry, adds to a counter and reads the counter.
pub fn calling_is_straight()
    ensures { CallingIsStraight }
{}
