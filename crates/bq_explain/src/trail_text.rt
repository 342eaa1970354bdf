//! Where registers come from, in words.
ghost use Rattle.std.specs.Prelude.{◌≡◌, IfOk, flat_map, string_bytes};
ghost use Rattle.bq_explain.specs.TrailTexts.{join_outcome_text, join_text, made_text, outcome_text, trail_text, unset_below, unset_text, way_text};

use crate::join_point::{IncomingWay, JoinPoint};
use crate::program_point::place_text;
use crate::trail::{RegisterMaker, Trail};
use bq_bpf::MapShape;
use bq_insn::REGISTERS;
use bq_needs::{Registers, known_text};
use bq_policy_file::instruction_text;
use bq_states::abstract_state::AbstractValue;
use std::alloc::{AllocError, Global};

/// Writes a line for each instruction that made a register, for each register that is unset on some way, and for each join
/// point.
pub(crate) fn trail_text(
    alloc: Global,
    shapes: &[MapShape],
    trail: &Trail,
) -> Result<String, AllocError>
    ensures { IfOk result (λ text. string_bytes text ≡ trail_text shapes.now trail.now) }
{
    let made = made_lines(alloc, shapes, trail.makers.as_slice())?;
    let unset = unset_lines(alloc, &trail.unset)?;
    let joins = join_lines(alloc, shapes, trail.joins.as_slice())?;
    format!(in alloc; "{made}{unset}{joins}")
}

/// Writes a line for each instruction that made a register.
fn made_lines(
    alloc: Global,
    shapes: &[MapShape],
    makers: &[RegisterMaker],
) -> Result<String, AllocError>
    ensures { IfOk result (λ text. string_bytes text ≡ flat_map (made_text shapes.now) makers.now) }
{
    let mut text = String::new(alloc);
    for made in makers {
        let line = made_text(alloc, shapes, made)?;
        text.push_str(line.as_str())?;
    }
    Ok(text)
}

/// Writes a line for each register that is unset on some way.
fn unset_lines(alloc: Global, unset: &Registers) -> Result<String, AllocError>
    ensures { IfOk result (λ text. string_bytes text ≡ unset_below REGISTERS unset.now) }
{
    let mut text = String::new(alloc);
    for register in 0..REGISTERS {
        let line = unset_text(alloc, register, unset[register])?;
        text.push_str(line.as_str())?;
    }
    Ok(text)
}

/// Writes the line of a register that is unset on some way; empty if the register is set on each.
fn unset_text(alloc: Global, register: usize, is_unset: bool) -> Result<String, AllocError>
    ensures { IfOk result (λ text. string_bytes text ≡ unset_text register is_unset) }
{
    if is_unset {
        return format!(in alloc;
            "  r{register} is set by no instruction on some path from the start\n"
        );
    }
    Ok(String::new(alloc))
}

/// Writes a line for each join point.
fn join_lines(alloc: Global, shapes: &[MapShape], joins: &[JoinPoint]) -> Result<String, AllocError>
    ensures { IfOk result (λ text. string_bytes text ≡ flat_map (join_text shapes.now) joins.now) }
{
    let mut text = String::new(alloc);
    for join in joins {
        let line = join_text(alloc, shapes, join)?;
        text.push_str(line.as_str())?;
    }
    Ok(text)
}

/// Writes the line of an instruction that made a register: place, instruction, and what the register then is.
fn made_text(alloc: Global, shapes: &[MapShape], made: &RegisterMaker) -> Result<String, AllocError>
    ensures { IfOk result (λ text. string_bytes text ≡ made_text shapes.now made.now) }
{
    let place = place_text(alloc, &made.place)?;
    let insn = instruction_text(alloc, made.place.insn)?;
    let outcome = outcome_text(alloc, shapes, made)?;
    format!(in alloc; "  made at {place}:  {insn}{outcome}\n")
}

/// Says what the register is after the instruction.
fn outcome_text(
    alloc: Global,
    shapes: &[MapShape],
    made: &RegisterMaker,
) -> Result<String, AllocError>
    ensures { IfOk result (λ text. string_bytes text ≡ outcome_text shapes.now made.now.place.insn made.now.register made.now.known) }
{
    let register = made.register;
    match made.known {
        Some(known) => {
            let described = known_text(alloc, shapes, &known)?;
            format!(in alloc; "    r{register} then is {described}")
        }
        None if made.is_unset() => format!(in alloc; "    r{register} then is unset"),
        None => Ok(String::new(alloc)),
    }
}

/// Says which two ways meet where, and what the register is on each.
fn join_text(alloc: Global, shapes: &[MapShape], join: &JoinPoint) -> Result<String, AllocError>
    ensures { IfOk result (λ text. string_bytes text ≡ join_text shapes.now join.now) }
{
    let register = join.register;
    let slot = join.slot;
    let first = way_text(alloc, shapes, &join.first)?;
    let second = way_text(alloc, shapes, &join.second)?;
    let outcome = join_outcome_text(alloc, shapes, join.known)?;
    format!(in alloc;
        "  r{register} is {first}, and {second}; where they meet, at slot {slot}, {outcome}\n"
    )
}

/// Says what the register is on a way, and where the way comes from.
fn way_text(alloc: Global, shapes: &[MapShape], way: &IncomingWay) -> Result<String, AllocError>
    ensures { IfOk result (λ text. string_bytes text ≡ way_text shapes.now way.now) }
{
    let known = known_text(alloc, shapes, &way.known)?;
    let place = place_text(alloc, &way.place)?;
    format!(in alloc; "{known} on the path over {place}")
}

/// Says what is known of the register after the ways meet.
fn join_outcome_text(
    alloc: Global,
    shapes: &[MapShape],
    known: Option<AbstractValue>,
) -> Result<String, AllocError>
    ensures { IfOk result (λ text. string_bytes text ≡ join_outcome_text shapes.now known) }
{
    match known {
        Some(known) => {
            let described = known_text(alloc, shapes, &known)?;
            format!(in alloc; "it is {described}")
        }
        None => String::from_str(alloc, "nothing is known of it"),
    }
}
