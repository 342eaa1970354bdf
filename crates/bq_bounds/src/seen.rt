//! What is seen of a processor before an event.
ghost use Rattle.std.specs.Prelude.{◌≡◌};
ghost use Rattle.bq_bounds.specs.Charges.{least_waiting};
ghost use Rattle.bq_bounds.specs.RunningTasks.{IsRunningTask};

use crate::running_task::RunningTask;
use bq_disc::RunQueue;
use bq_parts::Cpu;

/// Returns the running task of a processor, with the least virtual runtime that waits. `None` if nothing runs. The time that this
/// takes grows with the logarithm of the number of waiting tasks.
pub fn how_it_stands<Q: RunQueue>(cpu: &Cpu<Q>) -> Option<RunningTask>
    ensures { IsRunningTask cpu.now.running.current cpu.now.running.queue result }
{
    let least = least_waiting(cpu);
    match cpu.current() {
        None => None,
        Some(node) => {
            let v = node.entity.v();
            let weight = node.entity.weight();
            Some(RunningTask { v, weight, least })
        }
    }
}

/// Returns the least virtual runtime of the tasks that wait. `None` if none waits.
fn least_waiting<Q: RunQueue>(cpu: &Cpu<Q>) -> Option<u64>
    ensures { result ≡ least_waiting cpu.now.running.queue }
{
    match cpu.after(None) {
        None => None,
        Some(node) => Some(node.entity.v()),
    }
}
