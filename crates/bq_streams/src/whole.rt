//! Inputs that are read whole before they are answered.
ghost use Rattle.std.specs.Prelude.{◌≡◌, IfOk, IfErr, OnOk, OnErr};
ghost use Rattle.bq_streams.specs.Counts.{counted_inner, call_count, failures_of};
ghost use Rattle.bq_streams.specs.Faults.{IsReadFault};
ghost use Rattle.bq_streams.specs.Reading.{GivesAll, GivesSome};

use crate::counted::Counted;
use crate::fault::StreamFault;
use std::alloc::Global;
use std::io::Read;

/// The most bytes that one read takes.
pub const PIECE: usize = 4096;

/// The most reads of one input.
pub const READS: u64 = 1 << 32;

/// Reads to the end of the input. Its errors are a failed read, an input that does not end after [`READS`] reads, and lack of memory.
pub fn read_whole<R: Read>(alloc: Global, input: &mut Counted<R>) -> Result<Vec<u8>, StreamFault>
    ensures all { IfOk result (λ whole. GivesAll (R.remaining (counted_inner input.old)) (R.remaining (counted_inner input.new)) whole.items) }
    ensures kept { OnOk result (failures_of input.new ≡ failures_of input.old) }
    ensures part { OnErr result (GivesSome (R.remaining (counted_inner input.old)) (R.remaining (counted_inner input.new))) }
    ensures fault { IfErr result (λ e. IsReadFault e (failures_of input.old) (failures_of input.new) (call_count input.old) (call_count input.new)) }
{
    let mut whole = Vec::new(alloc);
    let mut piece = [0u8; PIECE];
    for _ in 0..READS {
        let count = input.read(&mut piece)?;
        if count == 0 {
            return Ok(whole);
        }
        whole.extend_from_slice(&piece[..count])?;
    }
    Err(StreamFault::TooLong)
}
