//! The line that shows a processor.
ghost use Rattle.std.specs.Prelude.{◌≡◌, ◌++◌, OnOk, string_bytes};
ghost use Rattle.bq_trace.specs.Texts.{entity_text, current_text, spaced_entities, processor_line, show_line};

use crate::any_core::{AnyCore, AnyCpu};
use crate::texts::write_refusal;
use bq_disc::{Entity, RunQueue};
use bq_parts::{Cpu, Refusal};
use std::alloc::AllocError;

/// Adds `before`, and then a task: its id, its virtual runtime and its deadline.
fn write_entity(text: &mut String, before: &str, entity: &Entity) -> Result<(), AllocError>
    ensures { OnOk result (string_bytes text.new ≡ string_bytes text.old ++ (before.now ++ entity_text entity.now)) }
{
    let id = entity.id();
    let v = entity.v();
    let deadline = entity.deadline();
    write!(text, "{before}{id}:{v}:{deadline}")
}

/// Adds the running task, or `none`.
fn write_current<Q: RunQueue>(text: &mut String, cpu: &Cpu<Q>) -> Result<(), AllocError>
    ensures { OnOk result (string_bytes text.new ≡ string_bytes text.old ++ current_text cpu.now.running.current) }
{
    match cpu.current() {
        None => text.push_str("none"),
        Some(node) => write_entity(text, "", &node.entity),
    }
}

/// Adds the tasks of the queue in order of (v, id), with a space before each.
fn write_queue<Q: RunQueue>(text: &mut String, cpu: &Cpu<Q>) -> Result<(), AllocError>
    ensures { OnOk result (string_bytes text.new ≡ string_bytes text.old ++ spaced_entities cpu.now.running.queue) }
{
    let mut last: Option<(u64, u16)> = None;
    while let Some(node) = cpu.after(last) {
        write_entity(text, " ", &node.entity)?;
        last = Some((node.entity.v(), node.entity.id()));
    }
    Ok(())
}

/// Adds the line that shows a processor.
pub fn write_processor<Q: RunQueue>(
    text: &mut String,
    processor: u8,
    cpu: &Cpu<Q>,
) -> Result<(), AllocError>
    ensures { OnOk result (string_bytes text.new ≡ string_bytes text.old ++ processor_line processor cpu.now.running) }
{
    let mark = cpu.mark();
    write!(text, "show {processor} mark {mark} run ")?;
    write_current(text, cpu)?;
    text.push_str(" queue")?;
    write_queue(text, cpu)?;
    text.push_str("\n")
}

/// Adds the line that shows a processor, or refuses a processor that the machine does not have.
pub fn write_shown(text: &mut String, processor: u8, machine: &AnyCore) -> Result<(), AllocError>
    ensures { OnOk result (string_bytes text.new ≡ string_bytes text.old ++ show_line machine.now.world processor) }
{
    match machine.cpu(processor) {
        None => write_refusal(text, Refusal::NoProcessor),
        Some(AnyCpu::Cfs(cpu)) => write_processor(text, processor, cpu),
        Some(AnyCpu::Eevdf(cpu)) => write_processor(text, processor, cpu),
    }
}
