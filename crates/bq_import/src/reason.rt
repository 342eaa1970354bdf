//! Says in words why compiled code is no program here: what is in the code, and what to write instead.
ghost use Rattle.std.specs.Prelude.{◌≡◌};
ghost use Rattle.bq_import.specs.Reasons.{opcode_reason, import_reason_of, source_reason};

use bq_bpf::with_program_bytes;
use bq_insn::fault::DecodeCause;
use std::fmt;

/// What a slot has that is no instruction here, or that only a linker can complete.
#[derive(Clone, Copy, Debug)]
pub enum SlotReason {
    /// The length is 0, no multiple of 8, or too great.
    Length,
    /// A call of a function of the same program.
    Function,
    /// A call of a function of the kernel.
    Kernel,
    /// A call of what a register holds.
    Register,
    /// An atomic operation.
    Atomic,
    /// The address of something by its section: a global, a table of constants, a map.
    Address,
    /// A number of 64 bits that the loader is to fill in.
    Filled,
    /// Another opcode that does not exist.
    Opcode,
    /// A field that is out of range.
    Field,
}

/// Why the bytes at a slot are not decoded, by the cause, the opcode and the number in the source register's field.
pub(crate) fn reason_of(cause: DecodeCause, opcode: u8, source: u8) -> SlotReason
    ensures { result ≡ import_reason_of cause opcode source }
{
    match cause {
        DecodeCause::Length => SlotReason::Length,
        DecodeCause::Opcode => opcode_reason(opcode),
        DecodeCause::Offset => source_reason(opcode, source),
        _ => SlotReason::Field,
    }
}

/// Why an opcode is refused.
fn opcode_reason(opcode: u8) -> SlotReason
    ensures { result ≡ opcode_reason opcode }
{
    match opcode {
        0x8d => SlotReason::Register,
        0xc3 | 0xdb => SlotReason::Atomic,
        _ => SlotReason::Opcode,
    }
}

/// Why a call or a wide number is refused for its kind, which its source field names.
fn source_reason(opcode: u8, source: u8) -> SlotReason
    ensures { result ≡ source_reason opcode source }
{
    match (opcode, source) {
        (0x85, 1) => SlotReason::Function,
        (0x85, _) => SlotReason::Kernel,
        (0x18, _) => SlotReason::Filled,
        _ => SlotReason::Field,
    }
}

impl SlotReason {
    /// What it is, in words.
    fn words(self) -> &'static str {
        match self {
            SlotReason::Length => {
                with_program_bytes!("the bytes are no program: ", " of them, in eights")
            }
            SlotReason::Function => {
                "a call of a function; put BQ_INLINE before it, so that it is copied in"
            }
            SlotReason::Kernel => "a call of the kernel's; the helpers are those of bqsim.h",
            SlotReason::Register =>
                "a call through a register; call helpers by their names of bqsim.h",
            SlotReason::Atomic => "an atomic operation; write a plain one, or use a counter",
            SlotReason::Address => {
                "an address that a linker fills in: a global, a constant table or a map in a section; keep state in an entry of BQ_MAP(k)"
            }
            SlotReason::Filled => "a number that a loader fills in; for a map write BQ_MAP(k)",
            SlotReason::Opcode => {
                "an instruction that there is not here; compile with -mcpu=v4 or below"
            }
            SlotReason::Field => "a field of the instruction is out of range",
        }
    }
}

impl fmt::Display for SlotReason {
    fn fmt<W: fmt::Write>(&self, f: &mut fmt::Formatter<W>) -> fmt::Result {
        f.write_str(self.words())
    }
}
