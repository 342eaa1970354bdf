//! A copy of a program, written from its end: what is written is never moved, so that a jump's distance is known at once.
ghost use Rattle.bq_bpf.specs.declared.shape.TheConstants.{MAPS};
ghost use Rattle.std.specs.Prelude.{◌≡◌, ◌<◌, ◌≤◌, ◌+◌, ◌-◌, ◌++◌, [], ◌∷◌, ℕ, List, length, replicate, OnOk, IfErr, IfNone, IfSome, Option, Some, None};
ghost use Rattle.bq_insn.specs.Slots.{slots_of};
ghost use Rattle.bq_insn.specs.declared.Insn.{Insn};
ghost use Rattle.bq_import.specs.Copies.{copied, is_reference, wide_copy};
ghost use Rattle.bq_import.specs.Backward.{AreGood, IsBuilt, IsFront, IsLengthened, IsOneMore, MayBePut};
ghost use Rattle.bq_import.specs.Faults.{IsFull};

use crate::fault::Disorder;
use bq_bpf::addresses::REFERENCE;
use bq_insn::{Insn, SLOTS};
use std::alloc::{AllocError, Global};

/// A copy from its last slot to its first, and the slot of the original that each slot is a copy of.
#[derive(Drop)]
pub struct Backward {
    pub slots: Vec<Option<Insn>>,
    pub origins: Vec<usize>,
}

impl Backward {
    /// The copy of nothing.
    pub fn new(alloc: Global) -> Backward
        ensures built { (maps : ℕ) (old : List (Option Insn)) → IsBuilt maps old result.slots.items result.origins.items }
        ensures empty { result.slots.items ≡ [] }
    {
        Backward {
            slots: Vec::new(alloc),
            origins: Vec::new(alloc),
        }
    }

    /// Puts a copy of the instruction at slot `from` in front, with this distance if it jumps.
    pub fn push(
        &mut self,
        old: &[Option<Insn>],
        maps: usize,
        from: usize,
        insn: Insn,
        distance: i16,
    ) -> Result<(), Disorder>
        requires built { IsBuilt maps old.now self.old.slots.items self.old.origins.items }
        requires good { AreGood old.now }
        requires few { maps ≤ MAPS }
        requires inside { from < 4096 }
        requires may { MayBePut old.now self.old.slots.items self.old.origins.items from insn distance }
        ensures ok { OnOk result (IsLengthened maps old.now self.old.slots.items self.old.origins.items self.new.slots.items self.new.origins.items from) }
        ensures only { OnOk result (IsOneMore self.old.slots.items self.old.origins.items self.new.slots.items self.new.origins.items from) }
        ensures grown { OnOk result (length self.new.slots.items ≡ length self.old.slots.items + slots_of insn) }
        ensures full { IfErr result (IsFull (length self.old.slots.items + slots_of insn)) }
    {
        if self.slots.len() + insn.slots() > SLOTS {
            return Err(Disorder::Long);
        }
        self.push_rest(insn, from)?;
        self.push_first(copied(insn, distance, maps), from)?;
        Ok(())
    }

    /// The first slot.
    fn push_first(&mut self, copy: Insn, from: usize) -> Result<(), AllocError>
        ensures slots { OnOk result (self.new.slots.items ≡ self.old.slots.items ++ (Some copy ∷ [])) }
        ensures origins { OnOk result (self.new.origins.items ≡ self.old.origins.items ++ (from ∷ [])) }
    {
        self.slots.push(Some(copy))?;
        self.origins.push(from)?;
        Ok(())
    }

    /// Adds the second slot, if the instruction has one.
    fn push_rest(&mut self, insn: Insn, from: usize) -> Result<(), AllocError>
        requires inside { from < 4096 }
        ensures slots { OnOk result (self.new.slots.items ≡ self.old.slots.items ++ replicate (slots_of insn - 1) None) }
        ensures origins { OnOk result (self.new.origins.items ≡ self.old.origins.items ++ replicate (slots_of insn - 1) (from + 1)) }
    {
        if insn.slots() == 2 {
            self.slots.push(None)?;
            self.origins.push(from + 1)?;
        }
        Ok(())
    }

    /// The slot of which the first instruction until now is a copy.
    pub fn front(&self) -> Option<usize>
        requires { (maps : ℕ) × (old : List (Option Insn)) × IsBuilt maps old self.now.slots.items self.now.origins.items }
        ensures some { IfSome result (IsFront self.now.slots.items self.now.origins.items) }
        ensures none { IfNone result ((n : ℕ) → ¬ IsFront self.now.slots.items self.now.origins.items n) }
    {
        self.origins.last().copied()
    }
}

/// The copy of an instruction, in a program of this many maps; if it jumps, it has this distance.
fn copied(insn: Insn, distance: i16, maps: usize) -> Insn
    requires { maps ≤ MAPS }
    ensures { result ≡ copied maps insn distance }
{
    match insn {
        Insn::Goto { .. } => Insn::Goto { off: distance },
        Insn::Goto32 { .. } => Insn::Goto32 {
            imm: i32::from(distance),
        },
        Insn::Branch {
            width,
            cond,
            dst,
            src,
            ..
        } => Insn::Branch {
            width,
            cond,
            dst,
            src,
            off: distance,
        },
        Insn::Imm64 { dst, value } => wide_copy(dst, value, maps),
        _ => insn,
    }
}

/// The copy of a wide number: the reference of a map, if it is one.
fn wide_copy(dst: u8, value: u64, maps: usize) -> Insn
    requires { maps ≤ MAPS }
    ensures { result ≡ wide_copy (is_reference maps value) dst value }
{
    if value >= REFERENCE && value < REFERENCE + maps as u64 {
        return Insn::MapRef {
            dst,
            index: (value - REFERENCE) as i32,
        };
    }
    Insn::Imm64 { dst, value }
}
