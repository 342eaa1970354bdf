//! A depth-first search: it places a slot after all slots to which control may go from it. If that cannot be, there is a loop,
//! and the search finds it.
ghost use Rattle.bq_bpf.specs.declared.shape.TheConstants.{MAPS};
ghost use Rattle.std.specs.Prelude.{◌≡◌, ◌<◌, ◌≤◌, ◌+◌, ◌⊎◌, ℕ, true, false, Option, length, OnOk, IfOk, IfErr, IfSome, IfNone, Some, None, slice_index_or};
ghost use Rattle.bq_insn.specs.declared.Insn.{Insn};
ghost use Rattle.bq_verify.specs.Edges.{IsEdge, IsStart};
ghost use Rattle.bq_verify.specs.Passes.{IsAmongTargets};
ghost use Rattle.bq_verify.specs.Paths.{Path};
ghost use Rattle.bq_import.specs.Faults.{IsSearchFault, IsLinked};
ghost use Rattle.bq_import.specs.Lengths.{IsLanding, run_slots};
ghost use Rattle.bq_import.specs.Search.{HasCopy, IsLastOf, IsMissing, IsSlotReady, IsTop, copy_place, is_open};
ghost use Rattle.bq_import.specs.Searching.{IsAt, IsDoneWith, IsSearchWithin, KeepsBudget, WentOn};

use crate::backward::Backward;
use crate::fault::Disorder;
use crate::linked::find_targets;
use crate::putting::place_at;
use bq_insn::Insn;
use bq_verify::targets::{Targets, instruction};
use std::alloc::{AllocError, Global};

/// A copy that grows, with the places of what is copied, and the slots that were begun.
#[derive(Drop)]
pub struct Search {
    pub copy: Backward,
    /// The place of a copy of each slot, counted from the end.
    pub places: Vec<Option<usize>>,
    /// The slots that were begun.
    pub opens: Vec<bool>,
    /// The slots that were begun and are not done; control goes from each to the next one.
    pub stack: Vec<usize>,
}

impl Search {
    /// The search before its first slot.
    pub fn new(alloc: Global, old: &[Option<Insn>]) -> Result<Search, AllocError>
        ensures done { IfOk result (λ search. (maps : ℕ) → IsDoneWith maps old.now search) }
        ensures within { IfOk result (λ search. IsSearchWithin old.now search 0) }
    {
        Ok(Search {
            copy: Backward::new(alloc),
            places: no_places(alloc, old.len())?,
            opens: none_open(alloc, old.len())?,
            stack: Vec::new(alloc),
        })
    }

    /// Puts the slot in place, and before it all slots to which control may go from it.
    pub fn visit(&mut self, old: &[Option<Insn>], maps: usize, root: usize) -> Result<(), Disorder>
        requires linked { IsLinked old.now }
        requires few { maps ≤ MAPS }
        requires start { IsStart old.now root }
        requires reached { Path old.now 0 root }
        requires root { IsLanding old.now root ⊎ (root ≡ 0) }
        requires done { IsDoneWith maps old.now self.old }
        requires within { IsSearchWithin old.now self.old 0 }
        ensures ok { OnOk result (IsDoneWith maps old.now self.new) }
        ensures root { OnOk result (HasCopy self.new.places.items root) }
        ensures landing { OnOk result (IsLanding old.now root → IsSearchWithin old.now self.new 0) }
        ensures err { IfErr result (IsSearchFault old.now) }
    {
        if self.is_open(root) {
            return Ok(());
        }
        self.open(old, maps, root)?;
        while let Some(slot) = self.stack.last().copied() {
            self.advance(old, maps, slot)?;
        }
        Ok(())
    }

    /// Does one step of the search: begins a slot that the last begun slot goes on to, or puts the last begun slot in place.
    fn advance(&mut self, old: &[Option<Insn>], maps: usize, slot: usize) -> Result<(), Disorder>
        requires linked { IsLinked old.now }
        requires few { maps ≤ MAPS }
        requires at { IsAt maps old.now self.old }
        requires within { IsSearchWithin old.now self.old (run_slots old.now 0) }
        requires top { IsTop self.old.stack.items slot }
        ensures ok { OnOk result (WentOn maps old.now self.old self.new) }
        ensures within { OnOk result (KeepsBudget old.now self.old self.new) }
        ensures err { IfErr result (IsSearchFault old.now) }
    {
        let Some(insn) = instruction(old, slot) else {
            unreachable!()
        };
        let targets = find_targets(old, slot, insn);
        let Some(to) = self.missing(targets) else {
            return self.leave(old, maps, slot);
        };
        self.enter(old, maps, slot, to)
    }

    /// A target that is not in place: that of the jump first, so that the next instruction ends up in front.
    fn missing(&self, targets: Targets) -> Option<usize>
        ensures some { IfSome result (IsMissing self.now.places.items targets) }
        ensures none { IfNone result ((to : ℕ) → IsAmongTargets targets to → HasCopy self.now.places.items to) }
    {
        if let Some(to) = self.not_done(targets.jump) {
            return Some(to);
        }
        self.not_done(targets.next)
    }

    /// The slot, if there is one and it is not in place.
    fn not_done(&self, to: Option<usize>) -> Option<usize>
        ensures some { IfSome result (λ n. (to ≡ Some n) × (copy_place self.now.places.items n ≡ None)) }
        ensures none { IfNone result ((n : ℕ) → to ≡ Some n → HasCopy self.now.places.items n) }
    {
        let to = to?;
        match place_at(self.places.as_slice(), to) {
            Some(_) => None,
            None => Some(to),
        }
    }

    /// Begins a slot to which control goes from the last one. If the slot was begun before, there is a loop.
    fn enter(
        &mut self,
        old: &[Option<Insn>],
        maps: usize,
        from: usize,
        to: usize,
    ) -> Result<(), Disorder>
        requires linked { IsLinked old.now }
        requires at { IsAt maps old.now self.old }
        requires top { IsTop self.old.stack.items from }
        requires edge { IsEdge old.now from to }
        requires new { copy_place self.old.places.items to ≡ None }
        requires way { IsLanding old.now to ⊎ IsLastOf old.now self.old.places.items from to }
        ensures ok { OnOk result (WentOn maps old.now self.old self.new) }
        ensures within { OnOk result (KeepsBudget old.now self.old self.new) }
        ensures err { IfErr result (IsSearchFault old.now) }
    {
        if self.is_open(to) {
            return Err(Disorder::Loop { from, to });
        }
        self.open(old, maps, to)
    }

    /// Begins a slot.
    fn open(&mut self, old: &[Option<Insn>], maps: usize, slot: usize) -> Result<(), Disorder>
        requires linked { IsLinked old.now }
        requires at { IsAt maps old.now self.old }
        requires reached { Path old.now 0 slot }
        requires start { IsStart old.now slot }
        requires new { is_open self.old.opens.items slot ≡ false }
        requires edge { (top : ℕ) → IsTop self.old.stack.items top → IsEdge old.now top slot × (copy_place self.old.places.items slot ≡ None) }
        ensures ok { OnOk result (WentOn maps old.now self.old self.new) }
        ensures opened { OnOk result (is_open self.new.opens.items slot ≡ true) }
        ensures landing { OnOk result (IsLanding old.now slot → KeepsBudget old.now self.old self.new) }
        ensures next { OnOk result ((top : ℕ) → IsTop self.old.stack.items top → IsLastOf old.now self.old.places.items top slot → KeepsBudget old.now self.old self.new) }
        ensures more { OnOk result ((extra : ℕ) → IsSearchWithin old.now self.old extra → IsSearchWithin old.now self.new (extra + run_slots old.now slot)) }
        ensures err { IfErr result (IsSearchFault old.now) }
    {
        self.opens[slot] = true;
        self.stack.push(slot)?;
        Ok(())
    }

    /// Puts the last slot that was begun in place.
    fn leave(&mut self, old: &[Option<Insn>], maps: usize, slot: usize) -> Result<(), Disorder>
        requires linked { IsLinked old.now }
        requires few { maps ≤ MAPS }
        requires at { IsAt maps old.now self.old }
        requires within { IsSearchWithin old.now self.old (run_slots old.now 0) }
        requires top { IsTop self.old.stack.items slot }
        requires ready { IsSlotReady old.now self.old.places.items slot }
        ensures ok { OnOk result (WentOn maps old.now self.old self.new) }
        ensures within { OnOk result (KeepsBudget old.now self.old self.new) }
        ensures err { IfErr result (IsSearchFault old.now) }
    {
        self.copy.place(old, maps, self.places.as_slice(), slot)?;
        self.places[slot] = Some(self.copy.slots.len() - 1);
        let _ = self.stack.pop();
        Ok(())
    }

    /// Whether the slot is begun; a slot beyond the last is not.
    fn is_open(&self, slot: usize) -> bool
        ensures { result ≡ is_open self.now.opens.items slot }
    {
        if slot >= self.opens.len() {
            return false;
        }
        self.opens[slot]
    }
}

/// As many places as asked for, none of them known.
pub(crate) fn no_places(alloc: Global, count: usize) -> Result<Vec<Option<usize>>, AllocError>
    ensures blank { IfOk result (λ list. (k : ℕ) → slice_index_or list.items k None ≡ None) }
    ensures room { IfOk result (λ list. length list.items ≡ count) }
{
    vec![in alloc; None; count]
}

/// As many marks as asked for, none of them of a slot that is begun.
pub(crate) fn none_open(alloc: Global, count: usize) -> Result<Vec<bool>, AllocError>
    ensures blank { IfOk result (λ list. (k : ℕ) → slice_index_or list.items k false ≡ false) }
    ensures room { IfOk result (λ list. length list.items ≡ count) }
{
    vec![in alloc; false; count]
}
