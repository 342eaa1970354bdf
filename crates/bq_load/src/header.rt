//! Reads what an image has before its program, field after field.
ghost use Rattle.std.specs.Prelude.{◌≡◌, ◌+◌, ◌*◌, ◌++◌, length, IfOk};
ghost use Rattle.bq_load.specs.Layout.{shape_bytes};
ghost use Rattle.bq_load.specs.Reading.{Gives, magic_at, version_at, hook_at, read_number, count_at, shape_at, shapes_at, header_at};
ghost use Rattle.bq_load.specs.Headers.{spelled_of};

use crate::fault::LoadFault;
use bq_bpf::MapShape;
use bq_bpf::shape::MAPS;
use bq_hooks::{Hook, Version};
use byteorder::{ByteOrder, LittleEndian};

/// The header of an image.
#[derive(Clone, Copy)]
pub struct Header<'a> {
    pub version: Version,
    pub hook: Hook,
    /// The bytes of the shapes, four for each map. The shapes are within their limits.
    pub shapes: &'a [u8],
    /// How many slots of eight bytes the program has.
    pub slots: u32,
}

/// The bytes after the letters BQPI.
#[tactic(auto, unfolding(crate::specs::Reading::magic_at))]
fn after_magic(bytes: &[u8]) -> Result<&[u8], LoadFault>
    ensures { Gives (λ rest. rest.now) result (magic_at bytes.now) }
{
    if bytes.len() < 4 {
        return Err(LoadFault::Cut);
    }
    let (field, rest) = bytes.split_at(4);
    if field == b"BQPI".as_slice() {
        Ok(rest)
    } else {
        Err(LoadFault::Magic)
    }
}

/// The version, and the bytes after it.
#[tactic(auto, unfolding(crate::specs::Reading::version_at))]
fn version(bytes: &[u8]) -> Result<(Version, &[u8]), LoadFault>
    ensures { Gives (λ x. (x.0, x.1.now)) result (version_at bytes.now) }
{
    match bytes {
        [] => Err(LoadFault::Cut),
        [1, rest @ ..] => Ok((Version::First, rest)),
        [2, rest @ ..] => Ok((Version::Second, rest)),
        [_, ..] => Err(LoadFault::Version),
    }
}

/// The hook, and the bytes after it.
#[tactic(auto, unfolding(crate::specs::Reading::hook_at))]
fn hook(bytes: &[u8]) -> Result<(Hook, &[u8]), LoadFault>
    ensures { Gives (λ x. (x.0, x.1.now)) result (hook_at bytes.now) }
{
    match bytes {
        [] => Err(LoadFault::Cut),
        [0, rest @ ..] => Ok((Hook::Place, rest)),
        [1, rest @ ..] => Ok((Hook::Preempt, rest)),
        [2, rest @ ..] => Ok((Hook::Pull, rest)),
        [_, ..] => Err(LoadFault::Hook),
    }
}

/// A number of two bytes, and the bytes after it.
#[tactic(auto, unfolding(crate::specs::Reading::read_number))]
fn half(bytes: &[u8]) -> Result<(u16, &[u8]), LoadFault>
    ensures { Gives (λ x. (x.0, x.1.now)) result (read_number 2 bytes.now) }
{
    if bytes.len() < 2 {
        return Err(LoadFault::Cut);
    }
    Ok((LittleEndian::read_u16(bytes), &bytes[2..]))
}

/// A number of four bytes, and the bytes after it.
#[tactic(auto, unfolding(crate::specs::Reading::read_number))]
fn word(bytes: &[u8]) -> Result<(u32, &[u8]), LoadFault>
    ensures { Gives (λ x. (x.0, x.1.now)) result (read_number 4 bytes.now) }
{
    if bytes.len() < 4 {
        return Err(LoadFault::Cut);
    }
    Ok((LittleEndian::read_u32(bytes), &bytes[4..]))
}

/// The number of maps, and the bytes after it.
#[tactic(auto, unfolding(crate::specs::Reading::count_at))]
fn count(bytes: &[u8]) -> Result<(u16, &[u8]), LoadFault>
    ensures { Gives (λ x. (x.0, x.1.now)) result (count_at bytes.now) }
{
    let (count, rest) = half(bytes)?;
    if count <= MAPS as u16 {
        Ok((count, rest))
    } else {
        Err(LoadFault::Shape)
    }
}

/// A shape, and the bytes after it.
#[tactic(auto, unfolding(crate::specs::Reading::shape_at))]
pub fn shape(bytes: &[u8]) -> Result<(MapShape, &[u8]), LoadFault>
    ensures read { Gives (λ x. x.1.now) result (shape_at bytes.now) }
    ensures spelled { IfOk result (λ x. bytes.now ≡ shape_bytes x.0 ++ x.1.now) }
{
    let (value_size, rest) = half(bytes)?;
    let (entries, rest) = half(rest)?;
    match MapShape::new(value_size, entries) {
        Some(shape) => Ok((shape, rest)),
        None => Err(LoadFault::Shape),
    }
}

/// The bytes after this many shapes.
fn after_shapes(count: u16, bytes: &[u8]) -> Result<&[u8], LoadFault>
    ensures read { Gives (λ rest. rest.now) result (shapes_at count bytes.now) }
    ensures length { IfOk result (λ rest. length rest.now + 4 * count ≡ length bytes.now) }
{
    let mut rest = bytes;
    for _ in 0..count {
        let (_, after) = shape(rest)?;
        rest = after;
    }
    Ok(rest)
}

/// The header and the bytes after it, or the fault of the first field that is bad or cut.
#[tactic(auto, unfolding(crate::specs::Reading::header_at))]
pub fn read_header(bytes: &[u8]) -> Result<(Header<'_>, &[u8]), LoadFault>
    ensures { Gives (λ x. (spelled_of x.0, x.1.now)) result (header_at bytes.now) }
{
    let rest = after_magic(bytes)?;
    let (version, rest) = version(rest)?;
    let (hook, rest) = hook(rest)?;
    let (count, maps) = count(rest)?;
    let rest = after_shapes(count, maps)?;
    let (slots, rest) = word(rest)?;
    let header = Header {
        version,
        hook,
        shapes: &maps[..4 * usize::from(count)],
        slots,
    };
    Ok((header, rest))
}
