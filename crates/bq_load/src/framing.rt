//! Splits an image into header and program. It judges both before it asks for any memory.
ghost use Rattle.std.specs.Prelude.{◌≡◌, IfOk, IfErr};
ghost use Rattle.bq_load.specs.Layout.{shapes_bytes};
ghost use Rattle.bq_load.specs.Headers.{spelled_of, AreShapes, HasParts};
ghost use Rattle.bq_load.specs.Faults.{IsLoadFault};
ghost use Rattle.bq_load.specs.Reading.{Gives, frame_at};
ghost use Rattle.bq_load.specs.declared.fault.LoadFault.TheVariants.{OutOfMemory};

use crate::fault::LoadFault;
use crate::header::{Header, read_header, shape};
use bq_bpf::MapShape;
use bq_insn::SLOTS;
use bq_insn::fault::DecodeCause;
use std::alloc::Global;

/// The greatest number of slots, in the type in which a header counts them.
const MOST: u32 = SLOTS as u32;

/// The header and the program of an image, or the first fault of the bytes.
pub fn parts(bytes: &[u8]) -> Result<(Header<'_>, &[u8]), LoadFault>
    ensures ok { IfOk result (λ x. HasParts bytes.now (spelled_of x.0) x.1.now) }
    ensures err { IfErr result (IsLoadFault bytes.now) }
{
    let (header, program) = frame(bytes)?;
    if header.slots == 0 || header.slots > MOST {
        return Err(LoadFault::Decode {
            slot: 0,
            cause: DecodeCause::Length,
        });
    }
    Ok((header, program))
}

/// The header, and the program, which is all that follows it.
#[tactic(auto, unfolding(crate::specs::Reading::frame_at))]
fn frame(bytes: &[u8]) -> Result<(Header<'_>, &[u8]), LoadFault>
    ensures { Gives (λ x. (spelled_of x.0, x.1.now)) result (frame_at bytes.now) }
{
    let (header, program) = read_header(bytes)?;
    let length = 8 * header.slots as usize;
    if program.len() < length {
        return Err(LoadFault::Cut);
    }
    if program.len() > length {
        return Err(LoadFault::Rest);
    }
    Ok((header, program))
}

/// The shapes that these bytes spell.
pub fn shapes_in(alloc: Global, bytes: &[u8]) -> Result<Vec<MapShape>, LoadFault>
    requires { AreShapes bytes.now }
    ensures ok { IfOk result (λ shapes. bytes.now ≡ shapes_bytes shapes.items) }
    ensures err { IfErr result (λ e. e ≡ OutOfMemory) }
{
    let mut shapes = Vec::new(alloc);
    let mut rest = bytes;
    while !rest.is_empty() {
        let (first, after) = shape(rest)?;
        shapes.push(first)?;
        rest = after;
    }
    Ok(shapes)
}
