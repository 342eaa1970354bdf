//! Why an event is refused.
ghost use Rattle.std.specs.Prelude.{◌≡◌, Some};
ghost use Rattle.bq_parts.specs.RefusalTexts.{refusal_name};

use std::error::Error;
use std::fmt;

/// Why an event was refused. A refused event does not change the world. A refusal is shown as the text that answers a trace.
#[derive(Clone, Copy, PartialEq, Eq)]
pub enum Refusal {
    /// C1: a processor's number is not below the number of processors.
    NoProcessor,
    /// C2: the id is over 1023, or is not admitted.
    NoTask,
    /// C3: the task is not in the lobby.
    NotBlocked,
    /// C4: the id is admitted already.
    TaskExists,
    /// C5: the mask names no processor of the machine.
    EmptyMask,
    /// C6: the nice value is outside -20 to 19.
    Nice,
    /// C7: the slice is outside 100,000 to 100,000,000 nanoseconds.
    Slice,
    /// C8: nothing runs.
    Idle,
    /// C9: a processor would pull from itself.
    SameProcessor,
    /// C10: the processor's hand is full.
    InHand,
    /// C11: the processor's hand is empty.
    NothingInHand,
    /// C12: the generation is not above the newest one of that processor and hook, which is given.
    Older(u64),
    /// C13: the generation is 0, or was not drawn.
    NotDrawn,
    /// C14: the policy was verified for another hook.
    WrongHook,
    /// C15: memory ran out.
    OutOfMemory,
}

impl Refusal {
    /// Its number and its name. Only `Older` is followed by a generation.
    fn name(self) -> &'static str
        ensures { result.now ≡ refusal_name self }
    {
        match self {
            Refusal::NoProcessor => "C1 NoProcessor",
            Refusal::NoTask => "C2 NoTask",
            Refusal::NotBlocked => "C3 NotBlocked",
            Refusal::TaskExists => "C4 TaskExists",
            Refusal::EmptyMask => "C5 EmptyMask",
            Refusal::Nice => "C6 Nice",
            Refusal::Slice => "C7 Slice",
            Refusal::Idle => "C8 Idle",
            Refusal::SameProcessor => "C9 SameProcessor",
            Refusal::InHand => "C10 InHand",
            Refusal::NothingInHand => "C11 NothingInHand",
            Refusal::Older(_) => "C12 Older ",
            Refusal::NotDrawn => "C13 NotDrawn",
            Refusal::WrongHook => "C14 WrongHook",
            Refusal::OutOfMemory => "C15 OutOfMemory",
        }
    }
}

/// Shows a refusal as the text that answers a trace.
impl fmt::Display for Refusal {
    ghost use Rattle.bq_parts.specs.RefusalTexts.{refusal_text};

    ghost output = { λ r. Some (refusal_text r) };

    fn fmt<W: fmt::Write>(&self, f: &mut fmt::Formatter<W>) -> fmt::Result {
        let named = f.write_str(self.name());
        match *self {
            Refusal::Older(newest) if named.is_ok() => write!(f, "{newest}"),
            _ => named,
        }
    }
}

/// Shows the same text as `Display`.
impl fmt::Debug for Refusal {
    fn fmt<W: fmt::Write>(&self, f: &mut fmt::Formatter<W>) -> fmt::Result {
        fmt::Display::fmt(self, f)
    }
}

impl Error for Refusal {}
