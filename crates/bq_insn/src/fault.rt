//! Why bytes are no program.
ghost use Rattle.std.specs.Prelude.{◌≡◌};
ghost use Rattle.bq_insn.specs.Causes.{decode_cause_number};

use std::alloc::AllocFailed;
use std::error::Error;
use std::fmt;

/// What is wrong with an instruction, or with the bytes as a whole. If an instruction has several causes, it is refused
/// for the first of them in this order.
#[derive(Clone, Copy, Debug, PartialEq, Eq)]
pub enum DecodeCause {
    /// The number of bytes is 0, no multiple of 8, or over 4096 slots of 8 bytes.
    Length,
    /// The opcode is not in the table (RFC 9669, sections 4 and 5, without atomic and packet instructions).
    Opcode,
    /// A field that names a register is over 10.
    Register,
    /// An unused field is not zero, the second slot of a wide instruction included (sections 3.1 and 3.2).
    Field,
    /// The offset of a division, remainder or move names no variant (section 4.1), or the source field of a call or a wide
    /// instruction names no kind that is supported (sections 4.3 and 5.4).
    Offset,
    /// The immediate of a byte order is not 16, 32 or 64 (section 4.2).
    Imm,
    /// A wide instruction begins at the last slot, so its second slot is missing (section 3.2).
    WideCut,
}

impl DecodeCause {
    /// The number of the cause, as texts name it after the letter I.
    pub fn number(self) -> u8
        ensures { result ≡ decode_cause_number self }
    {
        match self {
            DecodeCause::Length => 1,
            DecodeCause::Opcode => 2,
            DecodeCause::Register => 3,
            DecodeCause::Field => 4,
            DecodeCause::Offset => 5,
            DecodeCause::Imm => 6,
            DecodeCause::WideCut => 7,
        }
    }
}

/// Why bytes are refused.
#[derive(Clone, Copy, Debug, PartialEq, Eq)]
pub enum DecodeFault {
    /// A fault of the bytes. `slot` is the slot of 8 bytes at which the faulty instruction begins, counted from 0. If
    /// the length is wrong, `slot` is 0.
    At { slot: usize, cause: DecodeCause },
    /// Memory ran out.
    OutOfMemory,
}

/// The text of a fault, such as `I2 5`: the number of the cause, then the slot.
impl fmt::Display for DecodeFault {
    ghost use Rattle.std.specs.Prelude.{Some};
    ghost use Rattle.bq_insn.specs.Causes.{decode_fault_text};

    ghost output = { λ fault. Some (decode_fault_text fault) };

    fn fmt<W: fmt::Write>(&self, f: &mut fmt::Formatter<W>) -> fmt::Result {
        match *self {
            DecodeFault::At { slot, cause } => {
                let number = cause.number();
                write!(f, "I{number} {slot}")
            }
            DecodeFault::OutOfMemory => f.write_str("out of memory"),
        }
    }
}

impl Error for DecodeFault {}

impl<T: Drop> From<AllocFailed<T>> for DecodeFault {
    ghost use Rattle.bq_insn.specs.declared.fault.DecodeFault.TheVariants.{OutOfMemory};

    ghost from_gives = { λ _ e. e ≡ OutOfMemory };

    fn from(_e: AllocFailed<T>) -> DecodeFault {
        DecodeFault::OutOfMemory
    }
}
