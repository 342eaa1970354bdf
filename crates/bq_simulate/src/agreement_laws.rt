//! Laws of agreement between the accounts of a simulation and its machine.
ghost use Rattle.bq_simulate.specs.AgreementLaws.{AdmissionsAreTaken, AnswersFit, BlocksAreTaken, CallsFailForMemory, DrawsAreTaken, InstallsAreTaken, MeetingsAgree, MeetingsAreOnTime, NothingIsMissed, OnlyMemoryIsWanted, PullsAreTaken, SimulationsAgree, StaysOnTime, TasksRunAlone, TicksAreTaken, WakesAreTaken};

/// A tick is taken, and accounts that agreed with the world agree with the one that it leaves.
pub fn ticks_are_taken()
    ensures { TicksAreTaken }
{}

/// The block of a task that goes to sleep is taken, and accounts and world still agree.
pub fn blocks_are_taken()
    ensures { BlocksAreTaken }
{}

/// A pull of one processor from another is taken, and accounts and world still agree.
pub fn pulls_are_taken()
    ensures { PullsAreTaken }
{}

/// The draw of a number is taken, and accounts and world still agree.
pub fn draws_are_taken()
    ensures { DrawsAreTaken }
{}

/// An install as a newer generation that was drawn is taken, and accounts and world still agree.
pub fn installs_are_taken()
    ensures { InstallsAreTaken }
{}

/// The admission of the next task is taken, and accounts and world still agree.
pub fn admissions_are_taken()
    ensures { AdmissionsAreTaken }
{}

/// The wake of a task that sleeps is taken (its begin, its end, and what takes it in), and accounts and world still
/// agree.
pub fn wakes_are_taken()
    ensures { WakesAreTaken }
{}

/// World and accounts agree after each thing that is met.
pub fn meetings_agree()
    ensures { MeetingsAgree }
{}

/// World and accounts agree at the end of a simulation, and wherever one has been followed to.
pub fn simulations_agree()
    ensures { SimulationsAgree }
{}

/// An event that can be read, and is taken, fails only if memory runs out.
pub fn only_memory_is_wanted()
    ensures { OnlyMemoryIsWanted }
{}

/// A call of a simulation fails only if memory runs out, while world and accounts agree and its instant can be read.
pub fn calls_fail_for_memory()
    ensures { CallsFailForMemory }
{}

/// Each answer is of its event's kind.
pub fn answers_fit()
    ensures { AnswersFit }
{}

/// What comes next is not past, and nothing is past then.
pub fn nothing_is_missed()
    ensures { NothingIsMissed }
{}

/// What is done at an instant leaves nothing past.
pub fn stays_on_time()
    ensures { StaysOnTime }
{}

/// A task runs at one processor only.
pub fn tasks_run_alone()
    ensures { TasksRunAlone }
{}

/// Nothing is past after a thing that is met, if nothing was before.
pub fn meetings_are_on_time()
    ensures { MeetingsAreOnTime }
{}
