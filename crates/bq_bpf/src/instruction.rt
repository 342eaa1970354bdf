//! What can be said of an instruction by itself.
ghost use Rattle.std.specs.Prelude.{◌≡◌, IsTrue};
ghost use Rattle.bq_bpf.specs.Instructions.{asks_counter, destination_of, distance_of, goes_on};
ghost use Rattle.bq_bpf.specs.Steps.{IsCounterCall};

use crate::helper::{ADD_COUNTER, READ_COUNTER};
use bq_insn::Insn;

/// How far a jump goes, in slots from the one after it (RFC 9669 section 4.3); `None` if the instruction is no jump.
pub fn distance(insn: Insn) -> Option<i64>
    ensures { result ≡ distance_of insn }
{
    match insn {
        Insn::Goto { off } => Some(i64::from(off)),
        Insn::Goto32 { imm } => Some(i64::from(imm)),
        Insn::Branch { off, .. } => Some(i64::from(off)),
        _ => None,
    }
}

/// Whether control may go on to the next instruction: not from an EXIT or an unconditional jump.
pub fn may_go_on(insn: Insn) -> bool
    ensures { result ≡ goes_on insn }
{
    match insn {
        Insn::Goto { .. } | Insn::Goto32 { .. } | Insn::Exit => false,
        _ => true,
    }
}

/// The register that an instruction writes, if it names one.
pub fn destination(insn: Insn) -> Option<u8>
    ensures { result ≡ destination_of insn }
{
    match insn {
        Insn::Alu { dst, .. }
        | Insn::MovSx { dst, .. }
        | Insn::Neg { dst, .. }
        | Insn::End { dst, .. }
        | Insn::Load { dst, .. }
        | Insn::Imm64 { dst, .. }
        | Insn::MapRef { dst, .. } => Some(dst),
        _ => None,
    }
}

/// Whether an instruction asks a counter of the machine: helper 100 adds to one, and helper 101 reads one.
pub fn is_counter_call(insn: Insn) -> bool
    ensures asks { result ≡ asks_counter insn }
    ensures is { IsTrue result → IsCounterCall insn }
    ensures only { IsCounterCall insn → IsTrue result }
{
    match insn {
        Insn::Call { helper } => helper == ADD_COUNTER || helper == READ_COUNTER,
        _ => false,
    }
}
