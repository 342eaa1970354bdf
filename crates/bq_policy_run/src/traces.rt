//! The instructions of a run, one after another, in words.
ghost use Rattle.std.specs.Prelude.{◌≡◌, IfOk, string_bytes};
ghost use Rattle.bq_policy_run.specs.Tracing.{AreSteps, ReportsSteps, changes_below, changes_to, slot_listing, step_text};

use bq_asm::listing;
use bq_explain::index_at;
use bq_insn::Insn;
use bq_interp::Snapshot;
use bq_policy_file::PolicySource;
use bq_verify::Verified;
use std::alloc::{AllocError, Global};

/// Writes the instructions that the run executed, if that is asked for; empty otherwise.
pub(crate) fn executed_text(
    alloc: Global,
    is_traced: bool,
    policy: &PolicySource,
    verified: &Verified,
    snapshots: &[Snapshot],
) -> Result<String, AllocError>
    ensures { IfOk result (λ text. ReportsSteps is_traced verified.now snapshots.now (string_bytes text)) }
{
    if is_traced {
        steps_text(alloc, policy, verified, snapshots)
    } else {
        Ok(String::new(alloc))
    }
}

/// Writes the place of each instruction, the instruction, and a line for each register that it changed.
fn steps_text(
    alloc: Global,
    policy: &PolicySource,
    verified: &Verified,
    snapshots: &[Snapshot],
) -> Result<String, AllocError>
    ensures { IfOk result (λ text. AreSteps verified.now snapshots.now (string_bytes text)) }
{
    let mut text = String::new(alloc);
    let mut rest = snapshots;
    while let [snapshot, after @ ..] = rest {
        let place = place_of(alloc, policy, snapshot.slot)?;
        let step = step_text(alloc, verified, snapshot, after)?;
        write!(text, "{place}{step}")?;
        rest = after;
    }
    Ok(text)
}

/// Writes one instruction with its slot, and what it changed.
fn step_text(
    alloc: Global,
    verified: &Verified,
    snapshot: &Snapshot,
    after: &[Snapshot],
) -> Result<String, AllocError>
    ensures { IfOk result (λ text. string_bytes text ≡ step_text verified.now snapshot.now after.now) }
{
    let slot = snapshot.slot;
    let spelled = slot_text(alloc, verified.at(slot).copied())?;
    let changes = changes_to(alloc, snapshot, after)?;
    format!(in alloc; "slot {slot}: {spelled}{changes}")
}

/// Writes an instruction as it is listed, with the line's end.
fn slot_text(alloc: Global, insn: Option<Insn>) -> Result<String, AllocError>
    ensures { IfOk result (λ text. string_bytes text ≡ slot_listing insn) }
{
    match insn {
        Some(insn) => listing(alloc, &[insn]),
        None => String::from_str(alloc, "\n"),
    }
}

/// Writes the registers that an instruction changed, by the snapshot at the next one.
fn changes_to(alloc: Global, snapshot: &Snapshot, after: &[Snapshot]) -> Result<String, AllocError>
    ensures { IfOk result (λ text. string_bytes text ≡ changes_to snapshot.now after.now) }
{
    match after {
        [] => Ok(String::new(alloc)),
        [next, ..] => changes_text(alloc, snapshot, next),
    }
}

/// Writes the registers whose words differ, with the words that they have now.
fn changes_text(alloc: Global, before: &Snapshot, now: &Snapshot) -> Result<String, AllocError>
    ensures { IfOk result (λ text. string_bytes text ≡ changes_below 11 before.now.registers now.now.registers) }
{
    let mut text = String::new(alloc);
    for register in 0..11usize {
        let word = now.registers[register];
        if before.registers[register] != word {
            write!(text, "    r{register} = {word} (0x{word:x})\n")?;
        }
    }
    Ok(text)
}

/// Writes the line of the instruction at a slot and a comma, if the policy is a text.
fn place_of(alloc: Global, policy: &PolicySource, slot: usize) -> Result<String, AllocError> {
    let line = match index_at(policy.insns.as_slice(), slot) {
        Some(index) => policy.lines.get(index),
        None => None,
    };
    match line {
        Some(line) => format!(in alloc; "line {line}, "),
        None => Ok(String::new(alloc)),
    }
}
