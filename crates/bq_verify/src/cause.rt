//! Why a program is refused.
ghost use Rattle.std.specs.Prelude.{◌≡◌};
ghost use Rattle.bq_verify.specs.Causes.{cause_number};

use crate::graph_cause::GraphCause;
use bq_transfer::obligation::Obligation;
use std::fmt;

/// Why a program is refused.
#[derive(Clone, Copy, PartialEq, Eq)]
pub enum Cause {
    /// A fault of the control graph or of a single instruction.
    Graph(GraphCause),
    /// An obligation of an instruction that what is known of its states does not prove.
    State(Obligation),
}

impl Cause {
    /// The number of the cause, as texts name it after the letter V.
    pub fn number(self) -> u8
        ensures { result ≡ cause_number self }
    {
        match self {
            Cause::Graph(cause) => cause.number(),
            Cause::State(obligation) => obligation.number(),
        }
    }
}

/// The name of the `GraphCause` or of the `Obligation`.
impl fmt::Debug for Cause {
    fn fmt<W: fmt::Write>(&self, f: &mut fmt::Formatter<W>) -> fmt::Result {
        match self {
            Cause::Graph(cause) => cause.fmt(f),
            Cause::State(obligation) => obligation.fmt(f),
        }
    }
}
