//! Writes images.
ghost use Rattle.std.specs.Prelude.{◌≡◌, ◌<◌, ◌*◌, ◌++◌, true, OnOk, OnErr};
ghost use Rattle.std.specs.Int.{to_le_bytes};
ghost use Rattle.bq_insn.specs.Appending.{StartsWith};
ghost use Rattle.bq_insn.specs.Faults.{is_program_length};
ghost use Rattle.bq_load.specs.Answers.{AppendsImage};
ghost use Rattle.bq_load.specs.Layout.{hook_byte, shape_bytes, shapes_bytes, image_opening};
ghost use Rattle.bq_load.specs.Writing.{written_image};

use crate::image::Image;
use bq_bpf::MapShape;
use bq_hooks::{Hook, Version};
use byteorder::{ByteOrder, LittleEndian};
use std::alloc::AllocError;

/// Appends the bytes of an image of 1 to 4096 whole slots. If memory runs out, nothing is appended.
///
/// # Example
///
/// ```
/// let image = Image {
///     form: PolicyForm {
///         hook: Hook::Preempt,
///         version: Version::First,
///         shapes: Vec::new(alloc),
///     },
///     program: Vec::from_slice(alloc, &[0x95, 0, 0, 0, 0, 0, 0, 0])?, // exit
/// };
/// let mut bytes = Vec::new(alloc);
/// write_image(&image, &mut bytes)?;
/// let expected = [
///     0x42, 0x51, 0x50, 0x49, 1, 1, 0, 0, 1, 0, 0, 0, // BQPI, version 1, preempt, no maps, 1 slot
///     0x95, 0, 0, 0, 0, 0, 0, 0, // exit
/// ];
/// assert_eq!(rt; bytes.as_slice(), expected.as_slice());
/// ```
pub fn write_image(image: &Image, out: &mut Vec<u8>) -> Result<(), AllocError>
    requires { is_program_length image.now.program.items ≡ true }
    ensures ok { OnOk result (AppendsImage out.old.items out.new.items image.now) }
    ensures err { OnErr result (out.new.items ≡ out.old.items) }
{
    let start = out.len();
    if let Err(error) = append(image, out) {
        out.truncate(start);
        return Err(error);
    }
    Ok(())
}

/// Appends the bytes of an image. If memory runs out, a part of the bytes may remain appended.
fn append(image: &Image, out: &mut Vec<u8>) -> Result<(), AllocError>
    requires { is_program_length image.now.program.items ≡ true }
    ensures ok { OnOk result (out.new.items ≡ out.old.items ++ written_image image.now) }
    ensures err { OnErr result (StartsWith out.old.items out.new.items) }
{
    let form = &image.form;
    let count = form.shapes.len() as u16;
    out.extend_from_slice(&opening(form.version, form.hook, count))?;
    append_shapes(form.shapes.as_slice(), out)?;
    let slots = (image.program.len() / 8) as u32;
    out.extend_from_slice(&slots.to_le_bytes())?;
    out.extend_from_slice(image.program.as_slice())?;
    Ok(())
}

/// Appends the bytes of the shapes. If memory runs out, a part of the bytes may remain appended.
fn append_shapes(shapes: &[MapShape], out: &mut Vec<u8>) -> Result<(), AllocError>
    ensures ok { OnOk result (out.new.items ≡ out.old.items ++ shapes_bytes shapes.now) }
    ensures err { OnErr result (StartsWith out.old.items out.new.items) }
{
    for shape in shapes {
        out.extend_from_slice(&bytes_of(*shape))?;
    }
    Ok(())
}

/// The eight bytes before the shapes.
fn opening(version: Version, hook: Hook, count: u16) -> [u8; 8]
    ensures { result ≡ image_opening version hook count }
{
    let mut bytes = [
        b'B',
        b'Q',
        b'P',
        b'I',
        version.number(),
        hook_byte(hook),
        0,
        0,
    ];
    LittleEndian::write_u16(&mut bytes[6..], count);
    bytes
}

fn hook_byte(hook: Hook) -> u8
    ensures { result ≡ hook_byte hook }
{
    match hook {
        Hook::Place => 0,
        Hook::Preempt => 1,
        Hook::Pull => 2,
    }
}

/// The bytes of a shape.
fn bytes_of(shape: MapShape) -> [u8; 4]
    ensures { result ≡ shape_bytes shape }
{
    let mut bytes = [0, 0, 0, 0];
    LittleEndian::write_u16(&mut bytes[0..], shape.value_size);
    LittleEndian::write_u16(&mut bytes[2..], shape.entries);
    bytes
}
