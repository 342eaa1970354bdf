//! A program whose jumps go forward, with only what control comes to, each instruction once.
ghost use Rattle.bq_bpf.specs.declared.shape.TheConstants.{MAPS};
ghost use Rattle.std.specs.Prelude.{◌≡◌, ◌<◌, ◌≤◌, ◌+◌, Option, length, true, slice_index, IfOk, IfErr, OnOk};
ghost use Rattle.bq_insn.specs.declared.Insn.{Insn};
ghost use Rattle.bq_insn.specs.Laws.{AllFit};
ghost use Rattle.bq_insn.specs.Slots.{spread};
ghost use Rattle.bq_insn.specs.Spelling.{is_well_formed};
ghost use Rattle.bq_verify.specs.Edges.{IsStart};
ghost use Rattle.bq_import.specs.Copies.{AreComposed, IsOrderedCopy};
ghost use Rattle.bq_import.specs.Faults.{AllForward, IsLinked};
ghost use Rattle.bq_import.specs.Keeping.{AllReached, AreReached, IsKeeping};
ghost use Rattle.bq_import.specs.declared.fault.Disorder.TheVariants.{OutOfMemory};

use crate::backward::Backward;
use crate::fault::Disorder;
use crate::linked::find_targets;
use crate::order::{Ordered, turned};
use crate::reached::find_reached;
use crate::search::no_places;
use bq_insn::Insn;
use bq_verify::targets::instruction;
use std::alloc::{AllocError, Global};

/// The program with only what control comes to.
pub(crate) fn kept(alloc: Global, old: &[Option<Insn>], maps: usize) -> Result<Ordered, Disorder>
    requires linked { IsLinked old.now }
    requires forward { AllForward old.now }
    requires first { IsStart old.now 0 }
    requires few { maps ≤ MAPS }
    ensures copy { IfOk result (IsOrderedCopy maps old.now) }
    ensures long { IfOk result (λ kept. length kept.origins.items ≡ length (spread kept.insns.items)) }
    ensures reached { IfOk result (λ kept. AllReached (spread kept.insns.items)) }
    ensures well_formed { IfOk result (λ kept. is_well_formed kept.insns.items ≡ true) }
    ensures numbers { IfOk result (λ kept. AllFit kept.insns.items) }
    ensures memory { IfErr result (λ e. e ≡ OutOfMemory) }
{
    let reached = find_reached(alloc, old)?;
    let mut keeping = Keeping {
        copy: Backward::new(alloc),
        places: no_places(alloc, old.len())?,
    };
    for done in 0..old.len() {
        keeping.keep(old, maps, reached.as_slice(), old.len() - 1 - done)?;
    }
    let ordered = turned(alloc, &keeping.copy)?;
    Ok(ordered)
}

/// A copy that grows of the instructions that control comes to, and the place of each instruction in it.
#[derive(Drop)]
pub struct Keeping {
    pub copy: Backward,
    pub places: Vec<Option<usize>>,
}

impl Keeping {
    /// Puts the instruction at the slot in front, if control comes to it.
    fn keep(
        &mut self,
        old: &[Option<Insn>],
        maps: usize,
        reached: &[bool],
        slot: usize,
    ) -> Result<(), Disorder>
        requires linked { IsLinked old.now }
        requires forward { AllForward old.now }
        requires few { maps ≤ MAPS }
        requires found { AreReached old.now reached.now }
        requires inside { slot < length old.now }
        requires keeping { IsKeeping maps old.now reached.now (slot + 1) self.old.copy.slots.items self.old.copy.origins.items self.old.places.items }
        ensures ok { OnOk result (IsKeeping maps old.now reached.now slot self.new.copy.slots.items self.new.copy.origins.items self.new.places.items) }
        ensures memory { IfErr result (λ e. e ≡ OutOfMemory) }
    {
        if !reached[slot] {
            return Ok(());
        }
        let Some(insn) = instruction(old, slot) else {
            unreachable!()
        };
        let targets = find_targets(old, slot, insn);
        self.copy
            .put(old, maps, self.places.as_slice(), slot, insn, targets)?;
        self.places[slot] = Some(self.copy.slots.len() - 1);
        Ok(())
    }
}

/// For each slot of a copy of a copy the slot of the first program.
pub(crate) fn composed(
    alloc: Global,
    first: &[usize],
    second: &[usize],
) -> Result<Vec<usize>, AllocError>
    ensures { IfOk result (λ all. AreComposed first.now second.now all.items) }
{
    let mut all = Vec::new(alloc);
    'slots: for slot in second {
        all.push(origin_at(first, *slot))?;
    }
    Ok(all)
}

/// The slot at that place, or 0 past the end.
fn origin_at(origins: &[usize], slot: usize) -> usize
    ensures { result ≡ slice_index origins.now slot }
{
    if slot >= origins.len() {
        return 0;
    }
    origins[slot]
}
