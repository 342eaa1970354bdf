//! What control comes to in a program whose jumps go forward.
ghost use Rattle.std.specs.Prelude.{◌≡◌, ◌<◌, ◌+◌, IfOk, Some, true, false, length};
ghost use Rattle.bq_verify.specs.Edges.{IsStart};
ghost use Rattle.bq_import.specs.Faults.{AllForward, IsLinked};
ghost use Rattle.bq_import.specs.Keeping.{AreFollowed, AreReached, IsMarked, LeadsForward};

use crate::linked::find_targets;
use crate::search::none_open;
use bq_insn::Insn;
use bq_verify::targets::instruction;
use std::alloc::{AllocError, Global};

/// Whether control goes from each instruction only to later ones.
pub(crate) fn goes_forward(old: &[Option<Insn>]) -> bool
    requires { IsLinked old.now }
    ensures yes { result ≡ true → AllForward old.now }
    ensures no { result ≡ false → AllForward old.now → ⊥ }
{
    for slot in 0..old.len() {
        if !leads_forward(old, slot) {
            return false;
        }
    }
    true
}

/// Whether control goes from the slot only to later ones.
fn leads_forward(old: &[Option<Insn>], slot: usize) -> bool
    requires linked { IsLinked old.now }
    requires inside { slot < length old.now }
    ensures yes { result ≡ true → LeadsForward old.now slot }
    ensures no { result ≡ false → AllForward old.now → ⊥ }
{
    let Some(insn) = instruction(old, slot) else {
        return true;
    };
    match find_targets(old, slot, insn).jump {
        Some(to) => slot < to,
        None => true,
    }
}

/// The slots that control comes to.
pub(crate) fn find_reached(alloc: Global, old: &[Option<Insn>]) -> Result<Vec<bool>, AllocError>
    requires linked { IsLinked old.now }
    requires forward { AllForward old.now }
    requires first { IsStart old.now 0 }
    ensures { IfOk result (λ reached. AreReached old.now reached.items) }
{
    let mut reached = none_open(alloc, old.len())?;
    mark(&mut reached, Some(0));
    for slot in 0..old.len() {
        follow(&mut reached, old, slot);
    }
    Ok(reached)
}

/// Marks what control goes on to from the slot, if it comes to that.
fn follow(reached: &mut Vec<bool>, old: &[Option<Insn>], slot: usize)
    requires linked { IsLinked old.now }
    requires forward { AllForward old.now }
    requires inside { slot < length old.now }
    requires before { AreFollowed old.now slot reached.old.items }
    ensures { AreFollowed old.now (slot + 1) reached.new.items }
{
    if !reached[slot] {
        return;
    }
    let Some(insn) = instruction(old, slot) else {
        unreachable!()
    };
    let targets = find_targets(old, slot, insn);
    mark(reached, targets.next);
    mark(reached, targets.jump);
}

/// Marks the slot, if there is one.
fn mark(reached: &mut Vec<bool>, slot: Option<usize>)
    ensures { IsMarked reached.old.items slot reached.new.items }
{
    let Some(slot) = slot else {
        return;
    };
    if slot < reached.len() {
        reached[slot] = true;
    }
}
