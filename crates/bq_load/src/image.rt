//! Images as values, and how they are read from bytes.
ghost use Rattle.std.specs.Prelude.{IfOk, IfErr};
ghost use Rattle.bq_load.specs.Answers.{SpellsImage, IsUnread};

use crate::fault::LoadFault;
use crate::framing::{parts, shapes_in};
use bq_verify::PolicyForm;
use std::alloc::Global;

/// The length of the longest image, in bytes: a header of 44, with the shapes of eight maps, and 4096 slots of eight.
pub const LONGEST_IMAGE: usize = 32_812;

/// An image: the bytes of a program, with its hook, version and maps.
#[derive(Drop)]
pub struct Image {
    /// The program's hook, version and maps.
    pub form: PolicyForm,
    /// The bytes of the program: 1 to 4096 slots of eight bytes.
    pub program: Vec<u8>,
}

/// Reads the image that the bytes are, or answers their first fault from left to right. Of the program it judges only
/// the length, after all else; a wrong length is a fault at slot 0. It finds every fault before it asks for memory, so
/// `OutOfMemory` means that the bytes are an image.
///
/// # Example
///
/// ```
/// let bytes = [
///     0x42, 0x51, 0x50, 0x49, 1, 1, 0, 0, 2, 0, 0, 0, // BQPI, version 1, preempt, no maps, 2 slots
///     0xb7, 0, 0, 0, 1, 0, 0, 0, // mov64 r0, 1
///     0x95, 0, 0, 0, 0, 0, 0, 0, // exit
/// ];
/// let image = read_image(alloc, &bytes)?;
/// assert_eq!(rt; image.form.hook, Hook::Preempt);
/// assert_eq!(rt; image.program.len(), 16);
/// ```
pub fn read_image(alloc: Global, bytes: &[u8]) -> Result<Image, LoadFault>
    ensures image { IfOk result (SpellsImage bytes.now) }
    ensures unread { IfErr result (IsUnread bytes.now) }
{
    let (header, program) = parts(bytes)?;
    let shapes = shapes_in(alloc, header.shapes)?;
    let program = Vec::from_slice(alloc, program)?;
    let form = PolicyForm {
        hook: header.hook,
        version: header.version,
        shapes,
    };
    Ok(Image { form, program })
}
