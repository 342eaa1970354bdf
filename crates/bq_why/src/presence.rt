//! The tasks that run or wait at a processor.
ghost use Rattle.std.specs.Prelude.{◌≡◌, ◌≤◌, ◌++◌, length, IfOk, OnOk};
ghost use Rattle.bq_disc.specs.OneProcessor.{present_at};

use bq_disc::limits::TASKS;
use bq_disc::{Entity, RunQueue};
use bq_parts::Cpu;
use std::alloc::{AllocError, Global};

/// Lists the tasks that run or wait at a processor: the running one first, then the queue by rising (v, id). The list has at most
/// 1,024 tasks, and there are no more ids than that.
pub fn list_present<Q: RunQueue>(alloc: Global, cpu: &Cpu<Q>) -> Result<Vec<Entity>, AllocError>
    ensures few { IfOk result (λ tasks. length tasks.items ≤ TASKS) }
    ensures all { IfOk result (λ tasks. length (present_at cpu.now.running) ≤ TASKS → tasks.items ≡ present_at cpu.now.running) }
{
    let mut tasks = Vec::new(alloc);
    if let Some(node) = cpu.current() {
        tasks.push(node.entity)?;
    }
    add_queue(cpu, &mut tasks)?;
    Ok(tasks)
}

/// Lists the tasks that wait at a processor, by rising (v, id). If there were more than 1,024, some would be left out.
pub fn list_waiting<Q: RunQueue>(alloc: Global, cpu: &Cpu<Q>) -> Result<Vec<Entity>, AllocError>
    ensures few { IfOk result (λ tasks. length tasks.items ≤ TASKS) }
    ensures all { IfOk result (λ tasks. length cpu.now.running.queue ≤ TASKS → tasks.items ≡ cpu.now.running.queue) }
{
    let mut tasks = Vec::new(alloc);
    add_queue(cpu, &mut tasks)?;
    Ok(tasks)
}

/// Adds the tasks of the queue by rising (v, id), until there are 1,024.
fn add_queue<Q: RunQueue>(cpu: &Cpu<Q>, tasks: &mut Vec<Entity>) -> Result<(), AllocError>
    requires { length tasks.old.items ≤ TASKS }
    ensures few { OnOk result (length tasks.new.items ≤ TASKS) }
    ensures all { OnOk result (length (tasks.old.items ++ cpu.now.running.queue) ≤ TASKS → tasks.new.items ≡ tasks.old.items ++ cpu.now.running.queue) }
{
    let mut last: Option<(u64, u16)> = None;
    while tasks.len() < usize::from(TASKS) {
        let Some(node) = cpu.after(last) else {
            return Ok(());
        };
        tasks.push(node.entity)?;
        last = Some(node.entity.key());
    }
    Ok(())
}
