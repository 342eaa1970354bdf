//! Where the registers come from that matter to a need: what made them, and where their ways meet.
ghost use Rattle.std.specs.Prelude.{◌≡◌, ◌<◌, ◌≤◌, [], IfOk, IfSome, length};
ghost use Rattle.bq_verify.specs.Passes.{IsGraphSound};
ghost use Rattle.bq_explain.specs.Explained.{AreMade, AreOf, IsMadeBy};
ghost use Rattle.bq_explain.specs.Makers.{CanBeWalked};
ghost use Rattle.bq_explain.specs.TrailTexts.{leaves_unset};

use crate::join_point::{JoinPoint, find_join_point, known_at, known_behind};
use crate::makers::{Maker, find_makers, find_makers_on_trail};
use crate::program_point::{ProgramPoint, place_at};
use crate::ways::{Walk, find_reaching, find_ways_before, is_marked, spares};
use bq_insn::{Insn, REGISTERS, SLOTS};
use bq_needs::{Registers, read_registers};
use bq_policy_file::PolicySource;
use bq_states::abstract_state::AbstractValue;
use bq_states::registers::{CONTEXT_REGISTER, FRAME_REGISTER};
use bq_verify::KnownStates;
use std::alloc::{AllocError, Global};

/// The most join points that a trail names.
const JOINS: usize = 3;

/// The most calls before which a trail looks up what is known.
const CALLS: usize = 4;

/// Where the registers come from that a need asks for.
#[derive(Drop)]
pub struct Trail {
    /// The instructions that made the asked registers, the nearest first, and then those that made what these read; six at most.
    pub makers: Vec<RegisterMaker>,
    /// The asked registers that no instruction sets on some way from the start.
    pub unset: Registers,
    /// The asked registers that a call leaves unset on some way.
    pub clobbered: ClobberedRegisters,
    /// The join points of the asked registers, and of the registers that a maker reads; three at most.
    pub joins: Vec<JoinPoint>,
}

/// Registers that calls leave unset.
#[derive(Clone, Copy)]
pub struct ClobberedRegisters {
    /// All registers that a call leaves unset on some way.
    pub all: Registers,
    /// The registers of `all` of which something is known before such a call.
    pub known_before: Registers,
}

/// An instruction that made a register.
#[derive(Clone, Copy)]
pub struct RegisterMaker {
    pub place: ProgramPoint,
    pub register: u8,
    /// What is known of the register after the instruction; None if a call leaves it unset.
    pub known: Option<AbstractValue>,
}

impl RegisterMaker {
    /// Whether a call left the register unset.
    pub fn is_unset(&self) -> bool
        ensures { result ≡ leaves_unset self.now.place.insn self.now.register }
    {
        leaves_unset(self.place.insn, self.register)
    }
}

/// Whether the instruction is a call that leaves the register unset, if it writes the register.
fn leaves_unset(insn: Insn, register: u8) -> bool
    ensures { result ≡ leaves_unset insn register }
{
    matches!(insn, Insn::Call { .. }) && register != 0
}

/// Makes a trail that names nothing.
pub(crate) fn no_trail(alloc: Global) -> Trail
    ensures { result.makers.items ≡ [] }
{
    Trail {
        makers: Vec::new(alloc),
        unset: [false; REGISTERS],
        clobbered: ClobberedRegisters {
            all: [false; REGISTERS],
            known_before: [false; REGISTERS],
        },
        joins: Vec::new(alloc),
    }
}

/// Finds where the asked registers come from, as they are at the slot.
pub(crate) fn find_trail(
    alloc: Global,
    policy: &PolicySource,
    slots: &[Option<Insn>],
    states: &KnownStates,
    slot: usize,
    asked: &Registers,
) -> Result<Trail, AllocError>
    requires walkable { CanBeWalked slots.now }
    requires inside { slot < length slots.now }
    ensures { IfOk result (λ trail. AreMade slots.now slot asked.now trail.makers.items) }
{
    let ways = find_ways_before(alloc, slots, states, slot)?;
    let walk = Walk {
        policy,
        slots,
        states,
        ways: &ways,
    };
    let found = find_makers_on_trail(alloc, &walk, slot, asked)?;
    let makers = locate_makers(alloc, &walk, found.as_slice())?;
    let unset = unset_from_start(alloc, &walk, slot, asked)?;
    let clobbered = clobbered_by_calls(alloc, &walk, slot, asked)?;
    let asked = AskedRegisters {
        slot,
        registers: *asked,
        makers: 0,
    };
    let joins = find_joins(alloc, &walk, asked, makers.as_slice())?;
    Ok(Trail {
        makers,
        unset,
        clobbered,
        joins,
    })
}

/// Finds the place of each maker, and what is known of the register after that instruction.
fn locate_makers(
    alloc: Global,
    walk: &Walk<'_>,
    makers: &[Maker],
) -> Result<Vec<RegisterMaker>, AllocError>
    ensures { IfOk result (λ made. AreOf walk.now.slots.now makers.now made.items) }
{
    let mut made = Vec::new(alloc);
    for maker in makers {
        if let Some(one) = locate_maker(walk, *maker) {
            made.push(one)?;
        }
    }
    Ok(made)
}

/// Finds the place of the maker, and what is known of the register after that instruction.
fn locate_maker(walk: &Walk<'_>, maker: Maker) -> Option<RegisterMaker>
    ensures { IfSome result (IsMadeBy walk.now.slots.now maker) }
{
    let place = place_at(walk.policy, walk.slots, maker.slot)?;
    let next = maker.slot.saturating_add(place.insn.slots());
    let known = known_behind(walk, maker.slot, next, maker.register);
    Some(RegisterMaker {
        place,
        register: maker.register,
        known,
    })
}

/// Finds the asked registers that no instruction sets on some way from the start. At the start r1 and r10 are set.
fn unset_from_start(
    alloc: Global,
    walk: &Walk<'_>,
    slot: usize,
    asked: &Registers,
) -> Result<Registers, AllocError> {
    let mut unset = [false; REGISTERS];
    for register in 0..REGISTERS as u8 {
        let at = usize::from(register);
        if asked[at] && register != CONTEXT_REGISTER && register != FRAME_REGISTER {
            let reaching = find_reaching(alloc, walk, register, slot)?;
            unset[at] = slot == 0
                || (is_marked(reaching.as_slice(), 0) && spares(walk.slots, register, 0));
        }
    }
    Ok(unset)
}

/// Finds the asked registers that a call leaves unset on some way to the slot.
fn clobbered_by_calls(
    alloc: Global,
    walk: &Walk<'_>,
    slot: usize,
    asked: &Registers,
) -> Result<ClobberedRegisters, AllocError>
    requires walkable { CanBeWalked walk.now.slots.now }
    requires inside { slot < length walk.now.slots.now }
{
    let mut clobbered = ClobberedRegisters {
        all: [false; REGISTERS],
        known_before: [false; REGISTERS],
    };
    for register in 0..REGISTERS as u8 {
        let at = usize::from(register);
        if asked[at] {
            let calls = calls_before(alloc, walk, register, slot)?;
            clobbered.all[at] = !calls.is_empty();
            clobbered.known_before[at] = is_known_before(walk.states, calls.as_slice(), register);
        }
    }
    Ok(clobbered)
}

/// Lists the calls that leave the register unset and from which a run may come to the slot with the register still unset.
fn calls_before(
    alloc: Global,
    walk: &Walk<'_>,
    register: u8,
    slot: usize,
) -> Result<Vec<usize>, AllocError>
    requires inside { slot < length walk.now.slots.now }
    requires short { length walk.now.slots.now ≤ SLOTS }
    requires sound { IsGraphSound walk.now.slots.now }
{
    let made = find_makers(alloc, walk.slots, register, slot)?;
    let reaching = find_reaching(alloc, walk, register, slot)?;
    let mut calls = Vec::new(alloc);
    for maker in made.as_slice() {
        if is_marked(reaching.as_slice(), *maker) && is_clobbered_at(walk.slots, register, *maker) {
            calls.push(*maker)?;
        }
    }
    Ok(calls)
}

/// Whether something is known of the register before one of the nearest calls.
fn is_known_before(states: &KnownStates, calls: &[usize], register: u8) -> bool {
    for call in calls.iter().take(CALLS) {
        if known_at(states, *call, register).is_some() {
            return true;
        }
    }
    false
}

/// Whether the instruction at the slot is a call that leaves the register unset.
fn is_clobbered_at(slots: &[Option<Insn>], register: u8, slot: usize) -> bool {
    match slots.get(slot).copied() {
        Some(Some(insn)) => leaves_unset(insn, register),
        _ => false,
    }
}

/// Lists the join points of the asked registers, and of the registers that the makers read.
fn find_joins(
    alloc: Global,
    walk: &Walk<'_>,
    asked: AskedRegisters,
    makers: &[RegisterMaker],
) -> Result<Vec<JoinPoint>, AllocError>
    requires walkable { CanBeWalked walk.now.slots.now }
{
    let mut joins = Vec::new(alloc);
    push_joins(alloc, walk, asked, &mut joins)?;
    for maker in makers {
        let operands = AskedRegisters {
            slot: maker.place.slot,
            registers: read_registers(maker.place.insn),
            makers: 2,
        };
        push_joins(alloc, walk, operands, &mut joins)?;
    }
    Ok(joins)
}

/// Registers at a slot whose join points are asked for. A register with fewer than `makers` makers is passed over.
#[derive(Clone, Copy)]
struct AskedRegisters {
    slot: usize,
    registers: Registers,
    makers: usize,
}

/// Adds the join points of the asked registers to the list, as long as there is room.
fn push_joins(
    alloc: Global,
    walk: &Walk<'_>,
    asked: AskedRegisters,
    joins: &mut Vec<JoinPoint>,
) -> Result<(), AllocError>
    requires walkable { CanBeWalked walk.now.slots.now }
{
    if asked.slot >= walk.slots.len() {
        return Ok(());
    }
    for register in 0..REGISTERS as u8 {
        if asked.registers[usize::from(register)] && joins.len() < JOINS {
            let made = find_makers(alloc, walk.slots, register, asked.slot)?;
            if made.len() >= asked.makers {
                let join = find_join_point(alloc, walk, register, asked.slot)?;
                push_new(join, joins)?;
            }
        }
    }
    Ok(())
}

/// Adds the join point to the list, if there is one and the list has none of the same slot and register.
fn push_new(join: Option<JoinPoint>, joins: &mut Vec<JoinPoint>) -> Result<(), AllocError> {
    let Some(join) = join else {
        return Ok(());
    };
    for other in joins.as_slice() {
        if other.slot == join.slot && other.register == join.register {
            return Ok(());
        }
    }
    joins.push(join)?;
    Ok(())
}
