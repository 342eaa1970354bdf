//! The instructions that made a register's value, by the ways of the control graph.
ghost use Rattle.std.specs.Prelude.{◌+◌, ◌⊎◌, Bool, List, ◌≡◌, ◌<◌, ◌≤◌, ◌↔◌, ℕ, Contains, IfOk, IsTrue, MatchBool, OnOk, false, length, slice_index_or, Some, true};
ghost use Rattle.bq_verify.specs.Passes.{IsAmongTargets, IsGraphSound};
ghost use Rattle.bq_explain.specs.Makers.{AreLeading, AreOnTrail, IsMaker, IsOnTrail, HasRole, MakesAsked};
ghost use Rattle.bq_explain.specs.declared.makers.Maker.{Maker as MakerValue};
ghost use Rattle.bq_verify.specs.Straight.{spares};

use crate::ways::{Walk, find_reaching, is_marked};
use bq_bpf::instruction::destination;
use bq_insn::{Insn, REGISTERS, SLOTS};
use bq_needs::{Registers, read_registers};
use bq_verify::graph_numbers::find_targets;
use bq_verify::targets::{Targets, instruction};
use std::alloc::{AllocError, Global};

/// The role of an instruction in the ways that bring a register's value to a slot. Each of the ways begins with an instruction that
/// writes the register, and no later instruction on it does.
#[derive(Clone, Copy)]
enum Role {
    /// The instruction is on none of the ways.
    Off,
    /// The instruction begins a way: it writes the register.
    Makes,
    /// The instruction is on a way, and does not write the register.
    Leads,
}

/// The number of registers that a call does not keep: r0 to r5 (RFC 9669 section 2.2).
const CLOBBERED: u8 = 6;

/// Whether the instruction writes the register; a call answers in r0 and ends what r1 to r5 held.
pub(crate) fn writes(insn: Insn, register: u8) -> bool
    ensures { MatchBool result (spares register (Some insn) ≡ false) (spares register (Some insn) ≡ true) }
{
    match insn {
        Insn::Call { .. } => register < CLOBBERED,
        _ => is_register(destination(insn), register),
    }
}

/// Whether the register that is written, if any, is this one.
fn is_register(written: Option<u8>, register: u8) -> bool
    ensures { IsTrue result ↔ (written ≡ Some register) }
{
    match written {
        Some(number) => number == register,
        None => false,
    }
}

/// Whether a way that spares the register leads on from the target, if there is one.
fn leads_on(leading: &[bool], to: Option<usize>) -> bool
    requires { (k : ℕ) → to ≡ Some k → k < length leading.now }
    ensures { IsTrue result ↔ ((k : ℕ) × (to ≡ Some k) × (slice_index_or leading.now k false ≡ true)) }
{
    match to {
        Some(to) => leading[to],
        None => false,
    }
}

/// Whether a way that spares the register leads on from one of the targets.
fn one_leads_on(leading: &[bool], targets: Targets) -> bool
    requires { (k : ℕ) → IsAmongTargets targets k → k < length leading.now }
    ensures { IsTrue result ↔ ((k : ℕ) × IsAmongTargets targets k × (slice_index_or leading.now k false ≡ true)) }
{
    leads_on(leading, targets.next) || leads_on(leading, targets.jump)
}

/// Lists the slots of the instructions whose value the register may hold at `slot`, the nearest first.
pub(crate) fn find_makers(
    alloc: Global,
    slots: &[Option<Insn>],
    register: u8,
    slot: usize,
) -> Result<Vec<usize>, AllocError>
    requires inside { slot < length slots.now }
    requires short { length slots.now ≤ SLOTS }
    requires sound { IsGraphSound slots.now }
    ensures { IfOk result (λ makers. (made : ℕ) → Contains makers.items made ↔ IsMaker slots.now register slot made) }
{
    let mut leading = vec![in alloc; false; slots.len()]?;
    sweep_makers(alloc, slots, register, slot, leading.as_mut_slice())
}

/// Lists what `find_makers` answers, in one sweep from `slot` back to the start. At first `leading` marks no slot. The sweep marks
/// each slot from which a way leads to `slot` on which no instruction writes the register.
fn sweep_makers(
    alloc: Global,
    slots: &[Option<Insn>],
    register: u8,
    slot: usize,
    leading: &mut [bool],
) -> Result<Vec<usize>, AllocError>
    requires inside { slot < length slots.now }
    requires short { length slots.now ≤ SLOTS }
    requires sound { IsGraphSound slots.now }
    requires room { length leading.old ≡ length slots.now }
    requires blank { (k : ℕ) → slice_index_or leading.old k false ≡ false }
    ensures { IfOk result (λ makers. (made : ℕ) → Contains makers.items made ↔ IsMaker slots.now register slot made) }
{
    leading[slot] = true;
    let mut makers = Vec::new(alloc);
    for done in 0..slot {
        let here = slot - 1 - done;
        match role_of(slots, register, here, leading) {
            Role::Off => {}
            Role::Makes => makers.push(here)?,
            Role::Leads => leading[here] = true,
        }
    }
    Ok(makers)
}

/// Finds the role of the instruction of slot `here`. `leading` says of each later slot whether a way leads on from that slot.
fn role_of(slots: &[Option<Insn>], register: u8, here: usize, leading: &[bool]) -> Role
    requires inside { here < length slots.now }
    requires short { length slots.now ≤ SLOTS }
    requires sound { IsGraphSound slots.now }
    requires room { length leading.now ≡ length slots.now }
    ensures { (slot : ℕ) → here < slot → AreLeading slots.now register slot (here + 1) leading.now → HasRole slots.now register slot here result }
{
    let Some(insn) = instruction(slots, here) else {
        return Role::Off;
    };
    let targets = find_targets(slots, here, insn);
    if !one_leads_on(leading, targets) {
        return Role::Off;
    }
    if writes(insn, register) {
        Role::Makes
    } else {
        Role::Leads
    }
}

/// An instruction that made a register.
#[derive(Clone, Copy)]
pub struct Maker {
    /// The slot of the instruction.
    pub slot: usize,
    /// The register that the instruction made.
    pub register: u8,
}

/// The most makers that a trail names.
const MOST_MAKERS: usize = 6;

/// Lists the instructions that made the asked registers as they are at the slot, the nearest first. Then come those that made what
/// these read, and so on, `MOST_MAKERS` at most. From each a run may come to the slot.
pub(crate) fn find_makers_on_trail(
    alloc: Global,
    walk: &Walk<'_>,
    slot: usize,
    asked: &Registers,
) -> Result<Vec<Maker>, AllocError>
    requires inside { slot < length walk.now.slots.now }
    requires short { length walk.now.slots.now ≤ SLOTS }
    requires sound { IsGraphSound walk.now.slots.now }
    ensures { IfOk result (λ trail. AreOnTrail walk.now.slots.now slot asked.now trail.items) }
{
    let mut trail = Vec::new(alloc);
    push_makers(alloc, walk, slot, asked, &mut trail)?;
    for at in 0..MOST_MAKERS {
        if at < trail.len() {
            let maker = trail[at];
            push_operands(alloc, walk, maker, &mut trail)?;
        }
    }
    Ok(trail)
}

/// Adds the instructions that made what the maker reads, as long as there is room.
fn push_operands(
    alloc: Global,
    walk: &Walk<'_>,
    maker: Maker,
    trail: &mut Vec<Maker>,
) -> Result<(), AllocError>
    requires short { length walk.now.slots.now ≤ SLOTS }
    requires sound { IsGraphSound walk.now.slots.now }
    ensures { OnOk result ((slot : ℕ) (asked : List Bool) → IsOnTrail walk.now.slots.now slot asked maker.register maker.slot
        → AreOnTrail walk.now.slots.now slot asked trail.old.items → AreOnTrail walk.now.slots.now slot asked trail.new.items) }
{
    if maker.slot >= walk.slots.len() {
        return Ok(());
    }
    let Some(insn) = instruction(walk.slots, maker.slot) else {
        return Ok(());
    };
    push_makers(alloc, walk, maker.slot, &read_registers(insn), trail)
}

/// Adds the instructions that made the registers as they are at the slot, as long as there is room.
fn push_makers(
    alloc: Global,
    walk: &Walk<'_>,
    slot: usize,
    asked: &Registers,
    trail: &mut Vec<Maker>,
) -> Result<(), AllocError>
    requires inside { slot < length walk.now.slots.now }
    requires short { length walk.now.slots.now ≤ SLOTS }
    requires sound { IsGraphSound walk.now.slots.now }
    ensures { OnOk result ((maker : MakerValue) → Contains trail.new.items maker → Contains trail.old.items maker ⊎ MakesAsked walk.now.slots.now slot asked.now maker) }
{
    for register in 0..REGISTERS as u8 {
        if asked[usize::from(register)] {
            let made = find_makers(alloc, walk.slots, register, slot)?;
            let reaching = find_reaching(alloc, walk, register, slot)?;
            push_named(register, made.as_slice(), reaching.as_slice(), trail)?;
        }
    }
    Ok(())
}

/// Adds those makers of the register that are not on the trail yet and from which a run may come, as long as there is room.
fn push_named(
    register: u8,
    made: &[usize],
    reaching: &[bool],
    trail: &mut Vec<Maker>,
) -> Result<(), AllocError>
    ensures { OnOk result ((maker : MakerValue) → Contains trail.new.items maker → Contains trail.old.items maker ⊎ ((maker.register ≡ register) × Contains made.now maker.slot)) }
{
    for slot in made {
        let maker = Maker {
            slot: *slot,
            register,
        };
        if trail.len() < MOST_MAKERS && !is_left_out(trail.as_slice(), reaching, maker) {
            trail.push(maker)?;
        }
    }
    Ok(())
}

/// Whether the maker is on the trail already, or no run comes from the maker.
fn is_left_out(trail: &[Maker], reaching: &[bool], maker: Maker) -> bool {
    !is_marked(reaching, maker.slot)
        || trail.iter().any(|named| named.slot == maker.slot && named.register == maker.register)
}
