//! The exit statuses of a job.
ghost use Rattle.std.specs.Prelude.{◌≡◌};
ghost use Rattle.bq_console.specs.Status.{status_of};

use bq_streams::StreamFault;

/// The exit status if an input is bad, or what it says is refused.
pub const BAD_INPUT: u8 = 1;

/// The exit status if the words after the program's name are wrong.
pub const BAD_WORDS: u8 = 2;

/// The exit status if memory runs out.
pub const OUT_OF_MEMORY: u8 = 3;

/// The exit status if a read or a write fails.
pub const IO_FAILED: u8 = 4;

/// The exit status of an outcome: 0 if all is well, 1 if something was refused or bad, 3 if memory ran out, 4 if a read
/// or a write failed or the input was too long.
pub fn exit_status(outcome: &Result<bool, StreamFault>) -> u8
    ensures { result ≡ status_of outcome.now }
{
    match outcome {
        Ok(true) => 0,
        Ok(false) => BAD_INPUT,
        Err(StreamFault::OutOfMemory) => OUT_OF_MEMORY,
        Err(StreamFault::Read | StreamFault::Write | StreamFault::TooLong) => IO_FAILED,
    }
}
