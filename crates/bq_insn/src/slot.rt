//! One slot of a program, by its fields (RFC 9669, section 3.1).
ghost use Rattle.std.specs.Prelude.{◌≡◌, ◌≤◌, ◌<◌, ◌++◌, length, drop, OnOk, OnErr};
ghost use Rattle.bq_insn.specs.Spelling.{slot_bytes};
ghost use Rattle.bq_insn.specs.Faults.{IsSlot};
ghost use Rattle.bq_insn.specs.Reading.{signed16, signed32};

use byteorder::{ByteOrder, LittleEndian};
use std::alloc::AllocError;

/// The fields of eight bytes. Each register has four bits; offset and immediate are read without a sign.
#[derive(Clone, Copy)]
pub struct Slot {
    /// Which kind of instruction the slot begins.
    pub opcode: u8,
    /// The low four bits of the second byte.
    pub dst: u8,
    /// The high four bits of the second byte.
    pub src: u8,
    /// The next two bytes, little-endian.
    pub offset: u16,
    /// The last four bytes, little-endian.
    pub imm: u32,
}

impl Slot {
    /// The slot at the front of the bytes.
    pub fn read(bytes: &[u8]) -> Slot
        requires { 8 ≤ length bytes.now }
        ensures bytes { bytes.now ≡ slot_bytes result ++ drop 8 bytes.now }
        ensures fits { IsSlot result }
    {
        Slot {
            opcode: bytes[0],
            dst: bytes[1] % 16,
            src: bytes[1] / 16,
            offset: LittleEndian::read_u16(&bytes[2..]),
            imm: LittleEndian::read_u32(&bytes[4..]),
        }
    }

    /// The offset, with its sign.
    pub fn signed_offset(self) -> i16
        ensures { result ≡ signed16 self.offset }
    {
        self.offset.cast_signed()
    }

    /// The immediate, with its sign.
    pub fn signed_imm(self) -> i32
        ensures { result ≡ signed32 self.imm }
    {
        self.imm.cast_signed()
    }

    /// Appends the eight bytes of the slot. If memory runs out, nothing is appended.
    pub fn append_to(self, out: &mut Vec<u8>) -> Result<(), AllocError>
        requires dst { self.dst < 16 }
        requires src { self.src < 16 }
        ensures ok { OnOk result (out.new.items ≡ out.old.items ++ slot_bytes self) }
        ensures err { OnErr result (out.new.items ≡ out.old.items) }
    {
        let mut bytes = [self.opcode, self.dst + 16 * self.src, 0, 0, 0, 0, 0, 0];
        LittleEndian::write_u16(&mut bytes[2..], self.offset);
        LittleEndian::write_u32(&mut bytes[4..], self.imm);
        out.extend_from_slice(&bytes)?;
        Ok(())
    }
}
