//! Why the pass stops.

use bq_transfer::obligation::Obligation;
use std::alloc::AllocError;

/// Why the pass stops at an instruction.
#[derive(Clone, Copy)]
pub enum PassStop {
    /// An obligation of the instruction is not proven.
    Unproven(Obligation),
    /// Memory ran out.
    OutOfMemory,
}

impl From<Obligation> for PassStop {
    ghost use Rattle.std.specs.Prelude.{◌≡◌};
    ghost use Rattle.bq_verify.specs.declared.pass_stop.PassStop.TheVariants.{Unproven};

    ghost from_gives = { λ d e. e ≡ Unproven d };

    fn from(obligation: Obligation) -> PassStop {
        PassStop::Unproven(obligation)
    }
}

impl From<AllocError> for PassStop {
    ghost use Rattle.std.specs.Prelude.{◌≡◌};
    ghost use Rattle.bq_verify.specs.declared.pass_stop.PassStop.TheVariants.{OutOfMemory};

    ghost from_gives = { λ _ e. e ≡ OutOfMemory };

    fn from(_e: AllocError) -> PassStop {
        PassStop::OutOfMemory
    }
}
