//! A program in an order in which every jump goes forward.
ghost use Rattle.bq_bpf.specs.declared.shape.TheConstants.{MAPS};
ghost use Rattle.std.specs.Prelude.{◌≡◌, ◌≤◌, ◌<◌, ℕ, List, Option, length, true, filter_map, reverse, OnOk, IfOk, IfErr};
ghost use Rattle.bq_insn.specs.declared.Insn.{Insn};
ghost use Rattle.bq_insn.specs.Slots.{spread};
ghost use Rattle.bq_insn.specs.Spelling.{is_well_formed};
ghost use Rattle.bq_insn.specs.Laws.{AllFit};
ghost use Rattle.bq_verify.specs.Edges.{IsStart};
ghost use Rattle.bq_import.specs.Copies.{IsOrderedCopy};
ghost use Rattle.bq_import.specs.Backward.{IsBuilt, IsFront, insns_of};
ghost use Rattle.bq_import.specs.Faults.{AllForward, IsDisorder, IsLinked, IsSearchFault};
ghost use Rattle.bq_import.specs.Keeping.{AllReached};
ghost use Rattle.bq_import.specs.declared.fault.Disorder.TheVariants.{OutOfMemory};
ghost use Rattle.bq_import.specs.Search.{AreLandings};
ghost use Rattle.bq_import.specs.Searching.{IsDoneWith, IsSearchWithin};

use crate::backward::Backward;
use crate::fault::Disorder;
use crate::kept::{composed, kept};
use crate::landings::find_landings;
use crate::linked::check;
use crate::reached::goes_forward;
use crate::search::Search;
use bq_insn::Insn;
use bq_verify::layout::lay_out;
use bq_verify::targets::instruction;
use std::alloc::{AllocError, Global};

/// A program in order.
#[derive(Drop)]
pub struct Ordered {
    /// Its instructions.
    pub insns: Vec<Insn>,
    /// For each of its slots the slot of the program as it was.
    pub origins: Vec<usize>,
}

/// The program, beside this many maps, in an order in which each jump goes forward: a copy, by `IsCopy`, with the same runs,
/// step for step (see `laws`).
///
/// An instruction may come several times, if control comes to it from several sides; its original is known for each slot.
/// Instructions to which control never comes are left out. A wide number that is the reference of a map becomes that reference.
/// If there is no such order, the error is a loop to which control comes, by its two slots. The error is `Long` only if some
/// jump goes back and `AreRunsTooLong` and `HasLongOrder` hold: a run is copied at most once for each slot to which a jump leads, and
/// not at all if an instruction is in front of the one to which control goes on from it.
pub fn order(alloc: Global, insns: &[Insn], maps: usize) -> Result<Ordered, Disorder>
    requires whole { is_well_formed insns.now ≡ true }
    requires numbers { AllFit insns.now }
    requires few { maps ≤ MAPS }
    ensures copy { IfOk result (IsOrderedCopy maps (spread insns.now)) }
    ensures well_formed { IfOk result (λ ordered. is_well_formed ordered.insns.items ≡ true) }
    ensures numbers { IfOk result (λ ordered. AllFit ordered.insns.items) }
    ensures reached { IfOk result (λ ordered. AllReached (spread ordered.insns.items)) }
    ensures disorder { IfErr result (IsDisorder (spread insns.now)) }
{
    let slots = lay_out(alloc, insns)?;
    order_slots(alloc, slots.as_slice(), maps)
}

/// Puts a program, given by its slots, in order as `order` does.
fn order_slots(alloc: Global, slots: &[Option<Insn>], maps: usize) -> Result<Ordered, Disorder>
    requires program { (insns : List Insn) × (slots.now ≡ spread insns) × (is_well_formed insns ≡ true) × AllFit insns }
    requires few { maps ≤ MAPS }
    ensures copy { IfOk result (IsOrderedCopy maps slots.now) }
    ensures well_formed { IfOk result (λ ordered. is_well_formed ordered.insns.items ≡ true) }
    ensures numbers { IfOk result (λ ordered. AllFit ordered.insns.items) }
    ensures reached { IfOk result (λ ordered. AllReached (spread ordered.insns.items)) }
    ensures disorder { IfErr result (IsDisorder slots.now) }
{
    check(slots)?;
    if goes_forward(slots) {
        return kept(alloc, slots, maps);
    }
    let searched = search_order(alloc, slots, maps)?;
    kept_of(alloc, &searched)
}

/// A copy of the copy with only what control comes to.
fn kept_of(alloc: Global, searched: &Ordered) -> Result<Ordered, Disorder>
    requires copy { (maps : ℕ) × (old : List (Option Insn)) × IsOrderedCopy maps old searched.now }
    requires well_formed { is_well_formed searched.now.insns.items ≡ true }
    requires numbers { AllFit searched.now.insns.items }
    ensures copy { IfOk result (λ kept. (maps : ℕ) (old : List (Option Insn)) → IsOrderedCopy maps old searched.now → IsOrderedCopy maps old kept) }
    ensures well_formed { IfOk result (λ kept. is_well_formed kept.insns.items ≡ true) }
    ensures numbers { IfOk result (λ kept. AllFit kept.insns.items) }
    ensures reached { IfOk result (λ kept. AllReached (spread kept.insns.items)) }
    ensures memory { IfErr result (λ e. e ≡ OutOfMemory) }
{
    let slots = lay_out(alloc, searched.insns.as_slice())?;
    let Ordered { insns, origins } = kept(alloc, slots.as_slice(), 0)?;
    let origins = composed(alloc, searched.origins.as_slice(), origins.as_slice())?;
    Ok(Ordered { insns, origins })
}

/// The program of the slots in order, if some jump of it goes back.
fn search_order(alloc: Global, slots: &[Option<Insn>], maps: usize) -> Result<Ordered, Disorder>
    requires linked { IsLinked slots.now }
    requires first { IsStart slots.now 0 }
    requires few { maps ≤ MAPS }
    requires back { AllForward slots.now → ⊥ }
    ensures copy { IfOk result (IsOrderedCopy maps slots.now) }
    ensures well_formed { IfOk result (λ ordered. is_well_formed ordered.insns.items ≡ true) }
    ensures numbers { IfOk result (λ ordered. AllFit ordered.insns.items) }
    ensures disorder { IfErr result (IsDisorder slots.now) }
{
    let landings = find_landings(alloc, slots)?;
    let mut search = Search::new(alloc, slots)?;
    search.run(slots, maps, landings.as_slice())?;
    let ordered = turned(alloc, &search.copy)?;
    Ok(ordered)
}

impl Search {
    /// Puts all in place: the targets of jumps, from the last to the first, and then the first instruction. That one ends up in
    /// front, because control comes from it to all others.
    fn run(&mut self, old: &[Option<Insn>], maps: usize, landings: &[bool]) -> Result<(), Disorder>
        requires linked { IsLinked old.now }
        requires few { maps ≤ MAPS }
        requires first { IsStart old.now 0 }
        requires done { IsDoneWith maps old.now self.old }
        requires within { IsSearchWithin old.now self.old 0 }
        requires landings { AreLandings old.now landings.now }
        ensures built { OnOk result (IsBuilt maps old.now self.new.copy.slots.items self.new.copy.origins.items) }
        ensures front { OnOk result (IsFront self.new.copy.slots.items self.new.copy.origins.items 0) }
        ensures err { IfErr result (IsSearchFault old.now) }
    {
        for slot in (0..old.len()).rev() {
            self.visit_landing(old, maps, landings, slot)?;
        }
        self.visit(old, maps, 0)?;
        Ok(())
    }

    /// Puts the slot in place, if a jump leads there.
    fn visit_landing(
        &mut self,
        old: &[Option<Insn>],
        maps: usize,
        landings: &[bool],
        slot: usize,
    ) -> Result<(), Disorder>
        requires inside { slot < length old.now }
        requires linked { IsLinked old.now }
        requires few { maps ≤ MAPS }
        requires done { IsDoneWith maps old.now self.old }
        requires within { IsSearchWithin old.now self.old 0 }
        requires landings { AreLandings old.now landings.now }
        ensures ok { OnOk result (IsDoneWith maps old.now self.new) }
        ensures within { OnOk result (IsSearchWithin old.now self.new 0) }
        ensures err { IfErr result (IsSearchFault old.now) }
    {
        if slot >= landings.len() || !landings[slot] {
            return Ok(());
        }
        let Some(_) = instruction(old, slot) else {
            return Ok(());
        };
        self.visit(old, maps, slot)
    }
}

/// The copy from its start to its end.
pub(crate) fn turned(alloc: Global, copy: &Backward) -> Result<Ordered, AllocError>
    ensures insns { IfOk result (λ ordered. ordered.insns.items ≡ insns_of copy.now.slots.items) }
    ensures origins { IfOk result (λ ordered. ordered.origins.items ≡ reverse copy.now.origins.items) }
{
    let mut insns = instructions(alloc, copy.slots.as_slice())?;
    let mut origins = Vec::from_slice(alloc, copy.origins.as_slice())?;
    insns.reverse();
    origins.reverse();
    Ok(Ordered { insns, origins })
}

/// The instructions that begin at slots, in their order.
fn instructions(alloc: Global, slots: &[Option<Insn>]) -> Result<Vec<Insn>, AllocError>
    ensures { IfOk result (λ insns. insns.items ≡ filter_map (λ slot. slot) slots.now) }
{
    let mut insns = Vec::new(alloc);
    'slots: for slot in slots {
        if let Some(insn) = slot {
            insns.push(*insn)?;
        }
    }
    Ok(insns)
}
