//! Why a program cannot be brought into order.

use bq_insn::SLOTS;
use std::alloc::{AllocError, AllocFailed};
use thiserror::Error;

/// Why a program has no copy in which each jump goes forward, or none that fits.
#[derive(Clone, Copy, Debug, Error)]
pub enum Disorder {
    /// The jump at this slot leads to a place where no instruction begins.
    #[error("slot {slot}: a jump out of the program")]
    Outside { slot: usize },
    /// Control goes on past the end from this slot.
    #[error("slot {slot}: control goes on past the end; end the function with a return")]
    Ends { slot: usize },
    /// Control comes to the first slot, goes from there to the second, and from that back to the first.
    #[error("slots {from} and {to}: a loop, by the jump from {from} to {to}; unroll it")]
    Loop { from: usize, to: usize },
    /// The copies take more than 4096 slots. This is said only if some jump goes back, the runs from the first slot and from each
    /// slot that a jump leads to have more than 4096 slots together (`AreRunsTooLong`), and the copy in some forward order has more than
    /// 4096 (`HasLongOrder`). A program of fewer than 64 slots has no such fault.
    #[error("the program takes more than {most} slots once every jump goes forward; make it shorter", most = SLOTS)]
    Long,
    /// Memory ran out.
    #[error("out of memory")]
    OutOfMemory,
}

impl<T: Drop> From<AllocFailed<T>> for Disorder {
    ghost use Rattle.std.specs.Prelude.{◌≡◌};
    ghost use Rattle.bq_import.specs.declared.fault.Disorder.TheVariants.{OutOfMemory};

    ghost from_gives = { λ _ e. e ≡ OutOfMemory };

    fn from(_e: AllocFailed<T>) -> Disorder {
        Disorder::OutOfMemory
    }
}

impl From<AllocError> for Disorder {
    ghost use Rattle.std.specs.Prelude.{◌≡◌};
    ghost use Rattle.bq_import.specs.declared.fault.Disorder.TheVariants.{OutOfMemory};

    ghost from_gives = { λ _ e. e ≡ OutOfMemory };

    fn from(_e: AllocError) -> Disorder {
        Disorder::OutOfMemory
    }
}
