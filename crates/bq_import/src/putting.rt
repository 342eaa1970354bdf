//! Putting an instruction in front, once everything to which control may go from it is in place.
ghost use Rattle.bq_bpf.specs.declared.shape.TheConstants.{MAPS};
ghost use Rattle.std.specs.Prelude.{◌≡◌, ◌<◌, ◌≤◌, ◌+◌, ◌-◌, ℕ, List, Option, length, OnOk, IfErr, IfSome, IfNone, Some, None};
ghost use Rattle.bq_insn.specs.declared.Insn.{Insn};
ghost use Rattle.bq_insn.specs.Slots.{slots_of};
ghost use Rattle.bq_bpf.specs.Steps.{instruction_at};
ghost use Rattle.bq_verify.specs.Edges.{IsStart};
ghost use Rattle.bq_import.specs.Backward.{IsBuilt, IsFront, IsLengthened, IsOneMore};
ghost use Rattle.bq_import.specs.Faults.{IsFull, IsLinked};
ghost use Rattle.bq_import.specs.Running.{IsPutInFront, IsRunOfSlots};
ghost use Rattle.bq_import.specs.Lengths.{width_at};
ghost use Rattle.bq_import.specs.Search.{AreClosed, AreTargets, AreCopyPlaces, HasCopy, IsNextSlot, IsSlotReady, JumpsTo, Suffices, copy_place};

use crate::backward::Backward;
use crate::fault::Disorder;
use crate::linked::find_targets;
use bq_insn::{Insn, SLOTS};
use bq_verify::targets::{Targets, instruction};

impl Backward {
    /// The next instruction, if it has to be in front and is not.
    fn missing_front(&self, next: Option<usize>) -> Option<usize>
        requires { (maps : ℕ) × (old : List (Option Insn)) × IsBuilt maps old self.now.slots.items self.now.origins.items }
        ensures some { IfSome result (λ n. (next ≡ Some n) × ¬ IsFront self.now.slots.items self.now.origins.items n) }
        ensures none { IfNone result ((n : ℕ) → next ≡ Some n → IsFront self.now.slots.items self.now.origins.items n) }
    {
        let next = next?;
        let Some(front) = self.front() else {
            return Some(next);
        };
        if front == next { None } else { Some(next) }
    }

    /// The distance from the next instruction to the copy of the jump's target; 0 if there is no target.
    fn distance(&self, places: &[Option<usize>], jump: Option<usize>) -> i16
        requires short { length self.now.slots.items ≤ SLOTS }
        requires known { AreCopyPlaces self.now.slots.items self.now.origins.items places.now }
        requires done { (to : ℕ) → jump ≡ Some to → HasCopy places.now to }
        ensures { IfSome jump (JumpsTo self.now.slots.items self.now.origins.items result) }
    {
        let Some(to) = jump else {
            return 0;
        };
        let Some(place) = place_at(places, to) else {
            unreachable!()
        };
        (self.slots.len() - place - 1) as i16
    }

    /// Puts a copy of the instruction in front; what it goes on to must be there.
    pub(crate) fn put(
        &mut self,
        old: &[Option<Insn>],
        maps: usize,
        places: &[Option<usize>],
        slot: usize,
        insn: Insn,
        targets: Targets,
    ) -> Result<(), Disorder>
        requires built { IsBuilt maps old.now self.old.slots.items self.old.origins.items }
        requires linked { IsLinked old.now }
        requires known { AreCopyPlaces self.old.slots.items self.old.origins.items places.now }
        requires few { maps ≤ MAPS }
        requires here { instruction_at old.now slot ≡ Some insn }
        requires targets { AreTargets old.now slot insn targets }
        requires ready { IsSlotReady old.now places.now slot }
        requires front { (n : ℕ) → targets.next ≡ Some n → IsFront self.old.slots.items self.old.origins.items n }
        ensures ok { OnOk result (IsLengthened maps old.now self.old.slots.items self.old.origins.items self.new.slots.items self.new.origins.items slot) }
        ensures only { OnOk result (IsOneMore self.old.slots.items self.old.origins.items self.new.slots.items self.new.origins.items slot) }
        ensures grown { OnOk result (length self.new.slots.items ≡ length self.old.slots.items + slots_of insn) }
        ensures full { IfErr result (IsFull (length self.old.slots.items + slots_of insn)) }
    {
        let distance = self.distance(places, targets.jump);
        self.push(old, maps, slot, insn, distance)
    }

    /// Puts a copy of the instruction at the slot in front, followed by copies of what it goes on to, unless those follow already.
    pub fn place(
        &mut self,
        old: &[Option<Insn>],
        maps: usize,
        places: &[Option<usize>],
        slot: usize,
    ) -> Result<(), Disorder>
        requires built { IsBuilt maps old.now self.old.slots.items self.old.origins.items }
        requires linked { IsLinked old.now }
        requires known { AreCopyPlaces self.old.slots.items self.old.origins.items places.now }
        requires closed { AreClosed old.now places.now }
        requires few { maps ≤ MAPS }
        requires start { IsStart old.now slot }
        requires ready { IsSlotReady old.now places.now slot }
        ensures ok { OnOk result (IsLengthened maps old.now self.old.slots.items self.old.origins.items self.new.slots.items self.new.origins.items slot) }
        ensures grown { OnOk result ((most : ℕ) → Suffices old.now self.old.slots.items self.old.origins.items slot most
            → length self.new.slots.items ≤ length self.old.slots.items + most) }
        ensures full { IfErr result (λ e. (most : ℕ) → Suffices old.now self.old.slots.items self.old.origins.items slot most → IsFull (length self.old.slots.items + most) e) }
    {
        let last = self.run_end(old, places, slot);
        self.put_at(old, maps, places, last)?;
        for done in 0..last - slot {
            self.put_at(old, maps, places, last - 1 - done)?;
        }
        Ok(())
    }

    /// The last slot of the run that is put in front: from there control goes on to nothing, or to what is in front.
    fn run_end(&self, old: &[Option<Insn>], places: &[Option<usize>], slot: usize) -> usize
        requires built { (maps : ℕ) × IsBuilt maps old.now self.now.slots.items self.now.origins.items }
        requires linked { IsLinked old.now }
        requires closed { AreClosed old.now places.now }
        requires start { IsStart old.now slot }
        requires ready { IsSlotReady old.now places.now slot }
        ensures run { IsRunOfSlots old.now places.now slot result }
        ensures ends { (next : ℕ) → IsNextSlot old.now result next → IsFront self.now.slots.items self.now.origins.items next }
        ensures short { (next : ℕ) → IsNextSlot old.now slot next → IsFront self.now.slots.items self.now.origins.items next → result ≡ slot }
    {
        let mut last = slot;
        while let Some(next) = self.next_missing(old, last) {
            last = next;
        }
        last
    }

    /// The slot to which control goes on from this one, if its copy is not in front.
    fn next_missing(&self, old: &[Option<Insn>], slot: usize) -> Option<usize>
        requires built { (maps : ℕ) × IsBuilt maps old.now self.now.slots.items self.now.origins.items }
        requires linked { IsLinked old.now }
        requires start { IsStart old.now slot }
        ensures some { IfSome result (λ next. IsNextSlot old.now slot next × ¬ IsFront self.now.slots.items self.now.origins.items next) }
        ensures none { IfNone result ((next : ℕ) → IsNextSlot old.now slot next → IsFront self.now.slots.items self.now.origins.items next) }
    {
        let Some(insn) = instruction(old, slot) else {
            unreachable!()
        };
        let targets = find_targets(old, slot, insn);
        self.missing_front(targets.next)
    }

    /// Puts a copy of the instruction that begins at the slot in front, if one does.
    fn put_at(
        &mut self,
        old: &[Option<Insn>],
        maps: usize,
        places: &[Option<usize>],
        slot: usize,
    ) -> Result<(), Disorder>
        requires built { IsBuilt maps old.now self.old.slots.items self.old.origins.items }
        requires linked { IsLinked old.now }
        requires known { AreCopyPlaces self.old.slots.items self.old.origins.items places.now }
        requires few { maps ≤ MAPS }
        requires inside { slot < length old.now }
        requires ready { IsStart old.now slot → IsSlotReady old.now places.now slot }
        requires front { (next : ℕ) → IsNextSlot old.now slot next → IsFront self.old.slots.items self.old.origins.items next }
        ensures ok { OnOk result (IsPutInFront maps old.now self.old.slots.items self.old.origins.items self.new.slots.items self.new.origins.items slot) }
        ensures full { IfErr result (IsFull (length self.old.slots.items + width_at old.now slot)) }
    {
        let Some(insn) = instruction(old, slot) else {
            return Ok(());
        };
        let targets = find_targets(old, slot, insn);
        self.put(old, maps, places, slot, insn, targets)
    }
}

/// The place of the copy of a slot, if there is one.
pub fn place_at(places: &[Option<usize>], slot: usize) -> Option<usize>
    ensures { result ≡ copy_place places.now slot }
{
    if slot >= places.len() {
        return None;
    }
    places[slot]
}
