//! Why a program is refused by its control graph or by a single instruction.
ghost use Rattle.std.specs.Prelude.{◌≡◌};
ghost use Rattle.bq_verify.specs.GraphCauses.{graph_cause_number};

/// Why a program is refused before the pass over it: by its control graph, or by a single instruction.
#[derive(Clone, Copy, Debug, PartialEq, Eq)]
pub enum GraphCause {
    /// A jump that leads to no later instruction: out of the program, into a wide instruction, to itself or back.
    Jump,
    /// An instruction from which control goes on past the end.
    NoExit,
    /// An instruction on no path from slot 0.
    Unreached,
    /// An instruction that writes register 10, the address of the stack's end.
    Frame,
    /// A call of a helper that does not exist.
    Helper,
    /// A counter call that is at least the seventeenth on some path.
    Counters,
}

impl GraphCause {
    /// The number of the cause, as texts name it after the letter V.
    pub fn number(self) -> u8
        ensures { result ≡ graph_cause_number self }
    {
        match self {
            GraphCause::Jump => 1,
            GraphCause::NoExit => 2,
            GraphCause::Unreached => 3,
            GraphCause::Helper => 7,
            GraphCause::Frame => 10,
            GraphCause::Counters => 11,
        }
    }
}
