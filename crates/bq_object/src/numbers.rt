//! Numbers and parts of a file.
ghost use Rattle.std.specs.Prelude.{◌≡◌, ◌<◌, ◌≤◌, ◌+◌, length, IfSome, IfNone};
ghost use Rattle.bq_object.specs.Numbers.{IsPart, number_at};

use byteorder::{ByteOrder, LittleEndian};

/// The part of that many bytes from an offset on, if all of it is there.
pub fn part(bytes: &[u8], at: u64, long: u64) -> Option<&[u8]>
    ensures some { IfSome result (λ part. IsPart bytes.now at long part.now) }
    ensures whole { IfSome result (λ part. length part.now ≡ long) }
    ensures none { IfNone result (length bytes.now < at + long) }
{
    let end = at.checked_add(long)?;
    if end > bytes.len() as u64 {
        return None;
    }
    Some(&bytes[at as usize..end as usize])
}

/// The number of 16 bits at the offset.
pub fn half(bytes: &[u8], at: usize) -> u16
    requires { at + 2 ≤ length bytes.now }
    ensures { result ≡ number_at 2 bytes.now at }
{
    LittleEndian::read_u16(&bytes[at..])
}

/// The number of 32 bits at the offset.
pub fn word(bytes: &[u8], at: usize) -> u32
    requires { at + 4 ≤ length bytes.now }
    ensures { result ≡ number_at 4 bytes.now at }
{
    LittleEndian::read_u32(&bytes[at..])
}

/// The number of 64 bits at the offset.
pub fn wide(bytes: &[u8], at: usize) -> u64
    requires { at + 8 ≤ length bytes.now }
    ensures { result ≡ number_at 8 bytes.now at }
{
    LittleEndian::read_u64(&bytes[at..])
}
