//! The ways that runs may take through a program, by what is known before each branch.
ghost use Rattle.std.specs.Prelude.{◌<◌, length};
ghost use Rattle.bq_explain.specs.Makers.{CanBeWalked};

use crate::after::{Sides, sides_of};
use crate::makers::writes;
use bq_insn::Insn;
use bq_policy_file::PolicySource;
use bq_verify::KnownStates;
use bq_verify::graph_numbers::find_targets;
use bq_verify::targets::{Targets, instruction};
use std::alloc::{AllocError, Global};

/// The slots to which runs may go from each slot; there are none from a slot that no run reaches.
#[derive(Drop)]
pub(crate) struct Ways {
    next: Vec<Option<usize>>,
    jump: Vec<Option<usize>>,
}

/// A policy through which one walks back from a slot: its program, what is known there, and where runs may go.
#[derive(Drop)]
pub(crate) struct Walk<'a> {
    pub policy: &'a PolicySource,
    /// The slots of the policy's program.
    pub slots: &'a [Option<Insn>],
    /// What is known at each slot.
    pub states: &'a KnownStates,
    /// Where runs may go from each slot.
    pub ways: &'a Ways,
}

/// Finds where runs may go from each slot before `slot`.
pub(crate) fn find_ways_before(
    alloc: Global,
    slots: &[Option<Insn>],
    states: &KnownStates,
    slot: usize,
) -> Result<Ways, AllocError>
    requires walkable { CanBeWalked slots.now }
    requires inside { slot < length slots.now }
{
    let mut ways = Ways {
        next: Vec::new(alloc),
        jump: Vec::new(alloc),
    };
    let mut reached = vec![in alloc; false; slots.len()]?;
    mark(reached.as_mut_slice(), Some(0));
    for from in 0..slot {
        let mut open = Targets {
            next: None,
            jump: None,
        };
        if is_marked(reached.as_slice(), from) {
            open = open_from(slots, states, from);
        }
        mark(reached.as_mut_slice(), open.next);
        mark(reached.as_mut_slice(), open.jump);
        ways.next.push(open.next)?;
        ways.jump.push(open.jump)?;
    }
    Ok(ways)
}

/// Finds where runs may go from a slot that a run reaches.
fn open_from(slots: &[Option<Insn>], states: &KnownStates, from: usize) -> Targets
    requires walkable { CanBeWalked slots.now }
    requires inside { from < length slots.now }
{
    let Some(insn) = instruction(slots, from) else {
        return Targets {
            next: None,
            jump: None,
        };
    };
    open_targets(
        find_targets(slots, from, insn),
        sides_of(states, from, insn),
    )
}

/// Keeps the targets on the sides that a run may take.
fn open_targets(all: Targets, sides: Sides) -> Targets {
    Targets {
        next: if sides.next { all.next } else { None },
        jump: if sides.jump { all.jump } else { None },
    }
}

/// Marks the slot in the list, if there is a slot and the list has it.
fn mark(list: &mut [bool], slot: Option<usize>) {
    if let Some(slot) = slot {
        if slot < list.len() {
            list[slot] = true;
        }
    }
}

/// Whether the list marks the slot.
pub(crate) fn is_marked(list: &[bool], slot: usize) -> bool {
    list.get(slot).copied() == Some(true)
}

/// Marks each slot from which a run may come to `slot` so that no later instruction on its way writes the register.
pub(crate) fn find_reaching(
    alloc: Global,
    walk: &Walk<'_>,
    register: u8,
    slot: usize,
) -> Result<Vec<bool>, AllocError> {
    let mut reaching = vec![in alloc; false; walk.slots.len()]?;
    let mut spared = vec![in alloc; false; walk.slots.len()]?;
    mark(spared.as_mut_slice(), Some(slot));
    for done in 0..slot {
        let here = slot - 1 - done;
        if leads_to_marked(walk.ways, spared.as_slice(), here) {
            mark(reaching.as_mut_slice(), Some(here));
            if spares(walk.slots, register, here) {
                mark(spared.as_mut_slice(), Some(here));
            }
        }
    }
    Ok(reaching)
}

/// Whether a run may go from the slot to one that is marked.
fn leads_to_marked(ways: &Ways, marked: &[bool], here: usize) -> bool {
    let next = ways.next.as_slice().get(here).copied().flatten();
    let jump = ways.jump.as_slice().get(here).copied().flatten();
    is_target(marked, next) || is_target(marked, jump)
}

/// Whether there is a target, and it is marked.
fn is_target(marked: &[bool], target: Option<usize>) -> bool {
    match target {
        Some(slot) => is_marked(marked, slot),
        None => false,
    }
}

/// Whether the slot has no instruction that writes the register.
pub(crate) fn spares(slots: &[Option<Insn>], register: u8, slot: usize) -> bool {
    match slots.get(slot).copied() {
        Some(Some(insn)) => !writes(insn, register),
        _ => true,
    }
}
