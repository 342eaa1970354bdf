//! The summary of an accepted program: what the program uses, as a value and as one line.
ghost use Rattle.std.specs.Prelude.{◌≡◌, IfOk, string_bytes};
ghost use Rattle.bq_insn.specs.Appending.{StartsWith};
ghost use Rattle.bq_explain.specs.Beginnings.{accepted_beginning, map_shapes_text};

use crate::measure::counter_calls;
use bq_bpf::MapShape;
use bq_insn::{Insn, SLOTS};
use bq_policy_file::{PolicySource, more_maps};
use std::alloc::{AllocError, Global};

/// What a program uses.
#[derive(Drop)]
pub struct Summary {
    /// The numbers of the helpers that it calls, each once, the least first.
    pub helpers: Vec<i32>,
    /// The number of its instructions that call a counter.
    pub counters: usize,
    /// The number of slots that it takes.
    pub slots: usize,
}

/// Finds what the policy's program uses.
pub(crate) fn summary_of(alloc: Global, policy: &PolicySource) -> Result<Summary, AllocError> {
    let insns = policy.insns.as_slice();
    Ok(Summary {
        helpers: helpers_of(alloc, insns)?,
        counters: counter_calls(insns),
        slots: slot_count(insns),
    })
}

/// Writes the one line on an accepted program: its hook, budget, version, maps, helpers, calls of counters and slots.
pub(crate) fn summary_text(
    alloc: Global,
    policy: &PolicySource,
    budget: u32,
    summary: &Summary,
) -> Result<String, AllocError>
    ensures { IfOk result (λ text. StartsWith (accepted_beginning policy.now budget) (string_bytes text)) }
{
    let words = accepted_beginning(alloc, policy, budget)?;
    let helpers = helpers_text(alloc, summary.helpers.as_slice())?;
    let counters = summary.counters;
    let slots = summary.slots;
    format!(in alloc; "{words}, helpers {helpers}, counters {counters}, slots {slots}\n")
}

/// Writes the beginning of the line on an accepted program: hook, budget, version and maps.
pub(crate) fn accepted_beginning(
    alloc: Global,
    policy: &PolicySource,
    budget: u32,
) -> Result<String, AllocError>
    ensures { IfOk result (λ text. string_bytes text ≡ accepted_beginning policy.now budget) }
{
    let hook = policy.form.hook.word();
    let version = policy.form.version.number();
    let maps = maps_text(alloc, policy.form.shapes.as_slice())?;
    format!(in alloc; "accepted {hook} budget {budget} of {SLOTS}, version {version}, maps {maps}")
}

/// Counts the slots that the instructions take.
fn slot_count(insns: &[Insn]) -> usize {
    let mut count: usize = 0;
    for insn in insns {
        count = count.saturating_add(insn.slots());
    }
    count
}

/// Writes the shapes of the maps as `--maps` takes them, or `none`.
pub fn maps_text(alloc: Global, shapes: &[MapShape]) -> Result<String, AllocError>
    ensures { IfOk result (λ text. string_bytes text ≡ map_shapes_text shapes.now) }
{
    match shapes {
        [] => String::from_str(alloc, "none"),
        [first, rest @ ..] => {
            let size = first.value_size;
            let entries = first.entries;
            let more = more_maps(alloc, rest)?;
            format!(in alloc; "{size}:{entries}{more}")
        }
    }
}

/// Lists the numbers of the helpers that are called, each once, the least first.
fn helpers_of(alloc: Global, insns: &[Insn]) -> Result<Vec<i32>, AllocError> {
    let mut helpers = Vec::new(alloc);
    for insn in insns {
        if let Insn::Call { helper } = insn {
            helpers.push(*helper)?;
        }
    }
    helpers.sort()?;
    helpers.dedup();
    Ok(helpers)
}

/// Writes the numbers with commas between them, or `none`.
fn helpers_text(alloc: Global, helpers: &[i32]) -> Result<String, AllocError> {
    let mut text = String::new(alloc);
    for number in helpers {
        if !text.is_empty() {
            text.push_str(",")?;
        }
        write!(text, "{number}")?;
    }
    if text.is_empty() {
        text.push_str("none")?;
    }
    Ok(text)
}
