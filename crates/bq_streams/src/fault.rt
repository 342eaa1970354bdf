//! Why reading or writing ended early.
ghost use Rattle.std.specs.Prelude.{◌≡◌};

use std::alloc::AllocError;
use std::error::Error;
use std::fmt;

/// Why reading or writing ended before the input did. The first three are answered only for their causes, as specs/Faults says.
#[derive(Clone, Copy, Debug, PartialEq, Eq)]
pub enum StreamFault {
    /// The reader failed.
    Read,
    /// The writer failed, or took nothing.
    Write,
    /// The reader went on after 2^32 reads.
    TooLong,
    /// Memory ran out.
    OutOfMemory,
}

/// The words of a message.
impl fmt::Display for StreamFault {
    fn fmt<W: fmt::Write>(&self, f: &mut fmt::Formatter<W>) -> fmt::Result {
        let words = match self {
            StreamFault::Read => "a read failed",
            StreamFault::Write => "a write failed",
            StreamFault::TooLong => "the input had not ended after 2^32 reads",
            StreamFault::OutOfMemory => "out of memory",
        };
        f.write_str(words)
    }
}

impl Error for StreamFault {}

impl From<AllocError> for StreamFault {
    ghost use Rattle.bq_streams.specs.declared.fault.StreamFault.TheVariants.{OutOfMemory};

    ghost from_gives = { λ _ e. e ≡ OutOfMemory };

    fn from(_e: AllocError) -> StreamFault {
        StreamFault::OutOfMemory
    }
}
