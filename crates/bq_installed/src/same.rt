//! Whether two programs are the same, instruction by instruction.
ghost use Rattle.std.specs.Prelude.{◌≡◌, ◌↔◌, IsTrue};

use bq_insn::Insn;

/// Whether both lists have equal instructions in the same slots.
pub(crate) fn same_slots(slots: &[Option<Insn>], other: &[Option<Insn>]) -> bool
    ensures { IsTrue result ↔ (slots.now ≡ other.now) }
{
    if slots.len() != other.len() {
        return false;
    }
    for at in 0..slots.len() {
        if !same_slot(&slots[at], &other[at]) {
            return false;
        }
    }
    true
}

fn same_slot(slot: &Option<Insn>, other: &Option<Insn>) -> bool
    ensures { IsTrue result ↔ (slot.now ≡ other.now) }
{
    match slot {
        None => other.is_none(),
        Some(insn) => match other {
            None => false,
            Some(their_insn) => same_insn(insn, their_insn),
        },
    }
}

fn same_insn(insn: &Insn, other: &Insn) -> bool
    ensures { IsTrue result ↔ (insn.now ≡ other.now) }
{
    insn == other
}
