//! What is wrong with an instruction by the control graph or by itself.
ghost use Rattle.std.specs.Prelude.{◌≡◌};
ghost use Rattle.bq_explain.specs.Explained.{graph_cause_of};

use crate::program_point::line_at;
use bq_bpf::instruction::distance;
use bq_bpf::{with_helper_numbers, with_most_calls};
use bq_insn::Insn;
use bq_policy_file::PolicySource;
use bq_verify::GraphCause;
use std::alloc::{AllocError, Global};

/// What is wrong with an instruction by the control graph or by itself.
#[derive(Clone, Copy)]
pub enum GraphFault {
    /// The instruction jumps to that slot, which the program does not have.
    JumpsOut(i64),
    /// The instruction jumps back to that slot, or to itself.
    JumpsBack(i64),
    /// The instruction jumps to that slot, the second one of a wide instruction.
    JumpsInside(i64),
    /// Control goes on from the instruction past the end.
    RunsOut,
    /// No path leads to the instruction.
    Unreached,
    /// The instruction calls a helper that does not exist.
    Helper(i32),
    /// The instruction writes register 10.
    Frame,
    /// The instruction calls a counter, and too many such calls may come before.
    Calls,
}

/// Names the fault that an instruction has by that cause, in a program of `count` slots.
pub(crate) fn graph_fault(count: usize, slot: usize, insn: Insn, cause: GraphCause) -> GraphFault
    ensures { graph_cause_of result ≡ cause }
{
    match cause {
        GraphCause::Jump => jump_fault(count, slot, distance(insn).unwrap_or(0)),
        GraphCause::NoExit => GraphFault::RunsOut,
        GraphCause::Unreached => GraphFault::Unreached,
        GraphCause::Helper => GraphFault::Helper(called_helper(insn)),
        GraphCause::Frame => GraphFault::Frame,
        GraphCause::Counters => GraphFault::Calls,
    }
}

/// Names the fault of a jump over that distance, which leads to no later instruction.
fn jump_fault(count: usize, slot: usize, distance: i64) -> GraphFault
    ensures { graph_cause_of result ≡ GraphCause.Jump }
{
    let here = i64::try_from(slot).unwrap_or(i64::MAX);
    let to = here.saturating_add(1).saturating_add(distance);
    let end = i64::try_from(count).unwrap_or(i64::MAX);
    if to < 0 || to >= end {
        return GraphFault::JumpsOut(to);
    }
    if to <= here {
        return GraphFault::JumpsBack(to);
    }
    GraphFault::JumpsInside(to)
}

/// Returns the number of the helper that the instruction calls; 0 if it calls none.
fn called_helper(insn: Insn) -> i32 {
    match insn {
        Insn::Call { helper } => helper,
        _ => 0,
    }
}

/// Finds the label to which the jump on that line of a text goes, if the jump names one.
pub(crate) fn label_on(file: &[u8], line: Option<usize>) -> Option<&str> {
    let text = std::str::from_utf8(file).ok()?;
    let line = text.lines().nth(line?.checked_sub(1)?)?;
    let written = match line.split_once(';') {
        Some((written, _)) => written,
        None => line,
    };
    let label = written
        .split(is_between)
        .filter(|word| !word.is_empty())
        .last()?;
    if label.starts_with('+') || label.starts_with('-') {
        return None;
    }
    Some(label)
}

/// Whether the letter separates words of the assembler's language.
fn is_between(letter: char) -> bool {
    letter == ' ' || letter == '\t' || letter == ','
}

/// Writes the fault of the policy in words. A jump that names a label is reported by the label.
pub(crate) fn graph_text(
    alloc: Global,
    policy: &PolicySource,
    fault: GraphFault,
    label: Option<&str>,
) -> Result<String, AllocError> {
    let words = match fault {
        GraphFault::JumpsOut(to) => return out_text(alloc, label, to),
        GraphFault::JumpsBack(to) => return back_text(alloc, policy, label, to),
        GraphFault::JumpsInside(to) => return inside_text(alloc, to),
        GraphFault::Helper(helper) => return helper_text(alloc, helper),
        GraphFault::RunsOut => "goes on past the end of the program, where an exit is needed",
        GraphFault::Unreached => "is on no path from the first instruction",
        GraphFault::Frame => "writes r10, which is only read",
        GraphFault::Calls => with_most_calls!(
            "is at least the ",
            " call of a counter on some path; ",
            " are allowed"
        ),
    };
    String::from_str(alloc, words)
}

/// Says that a jump leads out of the program, to that slot.
fn out_text(alloc: Global, label: Option<&str>, to: i64) -> Result<String, AllocError> {
    let to = target_text(alloc, label, None, to)?;
    format!(in alloc; "jumps to {to}, out of the program")
}

/// Says that a jump leads back to that slot.
fn back_text(
    alloc: Global,
    policy: &PolicySource,
    label: Option<&str>,
    to: i64,
) -> Result<String, AllocError> {
    let line = match usize::try_from(to) {
        Ok(slot) => line_at(policy, slot),
        Err(_) => None,
    };
    let to = target_text(alloc, label, line, to)?;
    format!(in alloc; "jumps back to {to}: a policy has no loops")
}

/// Says that a jump leads to that slot, the second one of a wide instruction.
fn inside_text(alloc: Global, to: i64) -> Result<String, AllocError> {
    format!(in alloc; "jumps to slot {to}, into a wide instruction")
}

/// Names the target of a jump: the label and the line of the instruction there, as far as there are any, and the slot.
fn target_text(
    alloc: Global,
    label: Option<&str>,
    line: Option<usize>,
    slot: i64,
) -> Result<String, AllocError> {
    match (label, line) {
        (Some(label), Some(line)) => {
            format!(in alloc; "label {label}, line {line}, slot {slot}")
        }
        (Some(label), None) => format!(in alloc; "label {label}, slot {slot}"),
        (None, Some(line)) => format!(in alloc; "line {line}, slot {slot}"),
        (None, None) => format!(in alloc; "slot {slot}"),
    }
}

/// Says that the helper does not exist.
fn helper_text(alloc: Global, helper: i32) -> Result<String, AllocError> {
    let numbers = with_helper_numbers!("the helpers are ");
    format!(in alloc; "calls helper {helper}, which does not exist; {numbers}")
}
