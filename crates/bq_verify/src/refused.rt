//! The answer if a program is not accepted.

ghost use Rattle.std.specs.Prelude.{◌≡◌, Some};
ghost use Rattle.bq_insn.specs.declared.Insn.{Insn};
ghost use Rattle.bq_bpf.specs.Steps.{instruction_at};
ghost use Rattle.bq_verify.specs.Stops.{IsWantOfMemory, MayStop};
ghost use Rattle.bq_transfer.specs.declared.obligation.Obligation.{Obligation as ObligationValue};
ghost use Rattle.bq_verify.specs.declared.refused.Refused.TheVariants.{At};
ghost use Rattle.bq_verify.specs.Refusals.{IsOutOfMemory, IsStopped};
ghost use Rattle.bq_verify.specs.Subjects.{subject_of_view};

use crate::cause::Cause;
use crate::pass_stop::PassStop;
use crate::subject::SubjectView;
use std::alloc::AllocError;

/// Why a program is not accepted: a cause at a slot, or that memory ran out.
#[derive(Clone, Copy, Debug)]
pub enum Refused {
    /// The cause, and the slot of the instruction that has it.
    At { slot: usize, cause: Cause },
    /// Memory ran out, which says nothing about the program.
    OutOfMemory,
}

impl From<AllocError> for Refused {
    ghost use Rattle.bq_verify.specs.declared.refused.Refused.TheVariants.{OutOfMemory};

    ghost from_gives = { λ _ e. e ≡ OutOfMemory };

    fn from(_e: AllocError) -> Refused {
        Refused::OutOfMemory
    }
}

/// The refusal of a program over which the pass stopped at a slot.
pub(crate) fn refuse(subject: &SubjectView, slot: usize, stop: PassStop) -> Refused
    ensures stopped { (insn : Insn) → instruction_at subject.now.slots.now slot ≡ Some insn → MayStop stop insn → IsStopped (subject_of_view subject.now) result }
    ensures named { (obligation : ObligationValue) → stop ≡ PassStop.Unproven obligation → result ≡ At slot (Cause.State obligation) }
    ensures memory { IsWantOfMemory stop → IsOutOfMemory result }
{
    match stop {
        PassStop::Unproven(obligation) => Refused::At {
            slot,
            cause: Cause::State(obligation),
        },
        PassStop::OutOfMemory => Refused::OutOfMemory,
    }
}
