//! A replay of a whole trace, from any reader to any writer.
ghost use Rattle.std.specs.Prelude.{◌≡◌, IfOk, IfErr, OnOk, OnErr};
ghost use Rattle.bq_streams.specs.Counts.{counted_inner, call_count, failures_of};
ghost use Rattle.bq_trace.specs.Replaying.{Replays, ReplaysInPart};
ghost use Rattle.bq_streams.specs.Faults.{IsStreamFault};

use crate::session::Session;
use bq_streams::{Counted, PIECE, READS, StreamFault};
use std::alloc::Global;
use std::io::{Read, Write};

/// Reads a trace to its end and writes the answers. Returns true if no line was bad.
///
/// # Example
///
/// ```
/// let mut input = Counted::new(b"machine cfs 1\nadmit 1 0 1 3000000\n".as_slice());
/// let mut output = Counted::new(Vec::new(alloc));
/// let is_clean = replay(alloc, &mut input, &mut output)?;
/// let answers = output.into_inner();
/// assert_eq!(rt; answers.as_slice(), b"admit ok\n".as_slice());
/// assert_eq!(rt; is_clean, true);
/// ```
pub fn replay<R: Read, W: Write>(
    alloc: Global,
    input: &mut Counted<R>,
    output: &mut Counted<W>,
) -> Result<bool, StreamFault>
    // The input was read to its end, and the answers to the trace were written.
    ensures ok { IfOk result (λ clean. Replays (R.remaining (counted_inner input.old)) (R.remaining (counted_inner input.new))
        (W.contents (counted_inner output.old)) (W.contents (counted_inner output.new)) clean) }

    // No read and no write failed: the first failure ends the replay.
    ensures reads { OnOk result (failures_of input.new ≡ failures_of input.old) }
    ensures writes { OnOk result (failures_of output.new ≡ failures_of output.old) }

    // After a fault, a beginning of the answers to what was read is written.
    ensures part { OnErr result (ReplaysInPart (R.remaining (counted_inner input.old)) (R.remaining (counted_inner input.new))
        (W.contents (counted_inner output.old)) (W.contents (counted_inner output.new))) }

    // Each fault has its cause.
    ensures fault { IfErr result (λ e. IsStreamFault e (failures_of input.old) (failures_of input.new)
        (failures_of output.old) (failures_of output.new) (call_count input.old) (call_count input.new)) }
{
    let mut session = Session::new(alloc);
    let mut piece = [0u8; PIECE];
    for _ in 0..READS {
        let count = input.read(&mut piece)?;
        if count == 0 {
            return session.finish(output);
        }
        session = session.feed(&piece[..count], output)?;
    }
    Err(StreamFault::TooLong)
}
