//! Loads a program that may run from an image.
ghost use Rattle.std.specs.Prelude.{◌≡◌, IfOk, IfErr};
ghost use Rattle.bq_load.specs.Answers.{Loads, IsUnloaded};
ghost use Rattle.bq_load.specs.Straight.{HasStraightProgram};
ghost use Rattle.bq_load.specs.declared.fault.LoadFault.TheVariants.{OutOfMemory};

use crate::fault::LoadFault;
use crate::framing::{parts, shapes_in};
use bq_insn::decode::decode;
use bq_verify::{PolicyForm, Program, Verified, verify};
use std::alloc::Global;

/// Loads the program of an image, if it is shown to be safe.
///
/// The error is the first of these: the first fault of the bytes from left to right; the first fault of the program
/// (its length, or the least slot and its least cause); what the verifier refuses. `load` finds faults of the bytes
/// before it asks for memory. After that `OutOfMemory` may come in place of any other fault.
///
/// # Example
///
/// ```
/// let image = [
///     0x42, 0x51, 0x50, 0x49, 1, 1, 0, 0, 2, 0, 0, 0, // BQPI, version 1, preempt, no maps, 2 slots
///     0xb7, 0, 0, 0, 1, 0, 0, 0, // mov64 r0, 1
///     0x95, 0, 0, 0, 0, 0, 0, 0, // exit
/// ];
/// let verified = load(alloc, &image)?;
/// assert_eq!(rt; verified.hook(), Hook::Preempt);
/// ```
pub fn load(alloc: Global, bytes: &[u8]) -> Result<Verified, LoadFault>
    ensures loaded { IfOk result (Loads bytes.now) }
    ensures unloaded { IfErr result (IsUnloaded bytes.now) }
    ensures accepts { HasStraightProgram bytes.now → IfErr result (λ e. e ≡ OutOfMemory) }
{
    let (header, program) = parts(bytes)?;
    let insns = decode(alloc, program)?;
    let shapes = shapes_in(alloc, header.shapes)?;
    let form = PolicyForm {
        hook: header.hook,
        version: header.version,
        shapes,
    };
    let verified = verify(alloc, Program { insns, form })?;
    Ok(verified)
}
