//! Faults that one instruction has by itself.
ghost use Rattle.std.specs.Prelude.{◌≡◌, ◌<◌, ◌≤◌, ◌+◌, length, IsTrue, ◌↔◌, Some};
ghost use Rattle.bq_bpf.specs.Steps.{instruction_at};
ghost use Rattle.bq_verify.specs.Faults.{is_helper, IsBadJump, RunsOut, WritesFrame, CallsUnknown};

use crate::targets::landing;
use bq_bpf::helper::Helper;
use bq_bpf::instruction::{destination, distance, may_go_on};
use bq_insn::{Insn, SLOTS};

/// Whether a helper with this number exists.
pub fn is_known_helper(helper: i32) -> bool
    ensures { result ≡ is_helper helper }
{
    Helper::of(helper).is_some()
}

/// Whether the instruction is a jump that leads to no later instruction.
pub fn is_bad_jump(slots: &[Option<Insn>], slot: usize, insn: Insn) -> bool
    requires here { instruction_at slots.now slot ≡ Some insn }
    requires inside { slot < length slots.now }
    requires short { length slots.now ≤ SLOTS }
    ensures { IsTrue result ↔ IsBadJump slots.now slot }
{
    let Some(distance) = distance(insn) else {
        return false;
    };
    match landing(slots, slot, distance) {
        Some(_) => false,
        None => true,
    }
}

/// Whether control goes on past the end from the instruction.
pub fn runs_out(slots: &[Option<Insn>], slot: usize, insn: Insn) -> bool
    requires here { instruction_at slots.now slot ≡ Some insn }
    requires short { slot < SLOTS }
    ensures { IsTrue result ↔ RunsOut slots.now slot }
{
    may_go_on(insn) && slot + insn.slots() >= slots.len()
}

/// Whether the instruction writes register 10, the address of the stack's end.
pub fn writes_frame(slots: &[Option<Insn>], slot: usize, insn: Insn) -> bool
    requires here { instruction_at slots.now slot ≡ Some insn }
    ensures { IsTrue result ↔ WritesFrame slots.now slot }
{
    match destination(insn) {
        Some(register) => register == 10,
        None => false,
    }
}

/// Whether the instruction calls a helper that does not exist.
pub fn calls_unknown(slots: &[Option<Insn>], slot: usize, insn: Insn) -> bool
    requires here { instruction_at slots.now slot ≡ Some insn }
    ensures { IsTrue result ↔ CallsUnknown slots.now slot }
{
    match insn {
        Insn::Call { helper } => !is_known_helper(helper),
        _ => false,
    }
}
