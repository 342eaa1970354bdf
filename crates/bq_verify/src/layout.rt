//! Lays instructions out over the slots of a program.
ghost use Rattle.std.specs.Prelude.{◌≡◌, ◌-◌, ◌∷◌, ◌++◌, OnOk, IfOk, Some, None, replicate};
ghost use Rattle.bq_insn.specs.Slots.{slots_of, spread};

use bq_insn::Insn;
use std::alloc::{AllocError, Global};

/// Appends the slots of one more instruction.
fn place(slots: &mut Vec<Option<Insn>>, insn: Insn) -> Result<(), AllocError>
    ensures { OnOk result (slots.new.items ≡ slots.old.items ++ (Some insn ∷ replicate (slots_of insn - 1) None)) }
{
    slots.push(Some(insn))?;
    if insn.slots() == 1 {
        return Ok(());
    }
    slots.push(None)?;
    Ok(())
}

/// For each slot the instruction that begins there; `None` for the second slot of a wide instruction.
pub fn lay_out(alloc: Global, insns: &[Insn]) -> Result<Vec<Option<Insn>>, AllocError>
    ensures { IfOk result (λ slots. slots.items ≡ spread insns.now) }
{
    let mut slots = Vec::new(alloc);
    for insn in insns {
        place(&mut slots, *insn)?;
    }
    Ok(slots)
}
