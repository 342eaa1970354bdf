//! Where control may go from a slot.
ghost use Rattle.std.specs.Prelude.{◌≡◌, ◌<◌, ◌≤◌, ◌+◌, ℕ, length, IfSome, IfNone, Some};
ghost use Rattle.bq_bpf.specs.Steps.{LeadsTo, instruction_at};
ghost use Rattle.bq_verify.specs.Edges.{IsStart};

use bq_insn::{Insn, SLOTS};

/// The instruction that begins at a slot; `None` at the second slot of a wide instruction.
pub fn instruction(slots: &[Option<Insn>], slot: usize) -> Option<Insn>
    requires { slot < length slots.now }
    ensures { result ≡ instruction_at slots.now slot }
{
    slots[slot]
}

/// The slot to which a jump leads, if a later instruction begins there.
pub fn landing(slots: &[Option<Insn>], slot: usize, distance: i64) -> Option<usize>
    requires here { slot < length slots.now }
    requires short { length slots.now ≤ SLOTS }
    ensures some { IfSome result (λ to. LeadsTo slot distance to × (slot < to) × IsStart slots.now to) }
    ensures none { IfNone result ((to : ℕ) → LeadsTo slot distance to → slot < to → ¬ IsStart slots.now to) }
{
    if distance < 0 || distance >= SLOTS as i64 {
        return None;
    }
    let to = slot + 1 + distance as usize;
    if to >= slots.len() {
        return None;
    }
    instruction(slots, to)?;
    Some(to)
}

/// The slots to which control may go from a slot.
#[derive(Clone, Copy)]
pub struct Targets {
    /// The next instruction, if control may go on to it.
    pub next: Option<usize>,
    /// The target of the instruction, if it is a jump.
    pub jump: Option<usize>,
}
