//! Runs, and what came of them.
ghost use Rattle.std.specs.Prelude.{◌≡◌, ◌<◌, ◌↔◌, [], length, IfNone, IfOk, IfSome, IsTrue};
ghost use Rattle.bq_hooks.specs.Hooks.{context_length_of};
ghost use Rattle.bq_interp.specs.Snapshots.{AreSnapshots};
ghost use Rattle.bq_bpf.specs.Runs.{start};
ghost use Rattle.bq_policy_run.specs.Runs.{AreRunsOn, ChangesOnlyState, FitsProgram, IsRunOn, setting_on};

use crate::inputs::Inputs;
use bq_bpf::same_shapes;
use bq_hooks::context_length;
use bq_interp::{Ran, Snapshot, Stack, run, run_traced};
use bq_verify::Verified;
use std::alloc::AllocError;

/// Returns whether the context has the length of the program's hook and version, and the maps have its shapes.
fn fits(verified: &Verified, inputs: &Inputs) -> bool
    ensures { IsTrue result ↔ FitsProgram verified.now inputs.now }
{
    let length = context_length(verified.hook(), verified.version());
    inputs.context.len() == length && same_shapes(inputs.maps.shapes(), verified.shapes())
}

/// Runs the program once on the inputs, and leaves their maps and counters as the run does. None if the context has not the length
/// of the program's hook and version, or the maps are of other shapes: then all is left as it was.
pub fn run_once(verified: &Verified, inputs: &mut Inputs) -> Option<Ran>
    ensures run { IfSome result (λ r. IsRunOn verified.now inputs.old r inputs.new) }
    ensures fits { IfSome result (λ _. FitsProgram verified.now inputs.old) }
    ensures none { IfNone result (¬ FitsProgram verified.now inputs.old) }
    ensures left { IfNone result (inputs.new ≡ inputs.old) }
    ensures others { ChangesOnlyState inputs.old inputs.new }
{
    if !fits(verified, inputs) {
        return None;
    }
    let mut stack = Stack::new();
    Some(run(
        verified,
        inputs.context.as_slice(),
        &mut inputs.maps,
        &mut stack,
        inputs.env,
        &mut inputs.board,
    ))
}

/// Runs the program this many times; each run begins with the maps and counters that the one before it left. None if `run_once`
/// answers None; then nothing changes.
pub fn run_often(verified: &Verified, inputs: &mut Inputs, count: u32) -> Option<()>
    ensures runs { IfSome result (λ _. AreRunsOn verified.now inputs.old count inputs.new) }
    ensures fits { IfSome result (λ _. 0 < count → FitsProgram verified.now inputs.old) }
    ensures none { IfNone result ((0 < count) × ¬ FitsProgram verified.now inputs.old) }
    ensures left { IfNone result (inputs.new ≡ inputs.old) }
    ensures others { ChangesOnlyState inputs.old inputs.new }
{
    let mut done: u32 = 0;
    while done < count {
        run_once(verified, inputs)?;
        done += 1;
    }
    Some(())
}

/// Runs the program as `run_once` does, and keeps a snapshot of the machine before each instruction. `snapshots` must be empty,
/// and has one for each step afterwards: the machine's steps before it, with the run's calls until then, lead to it. If memory
/// runs out, the context, the time and the processor are unchanged; of maps and counters nothing is said.
pub fn trace_once(
    verified: &Verified,
    inputs: &mut Inputs,
    snapshots: &mut Vec<Snapshot>,
) -> Result<Option<Ran>, AllocError>
    requires { snapshots.old.items ≡ [] }
    ensures run { IfOk result (λ o. IfSome o (λ r. IsRunOn verified.now inputs.old r inputs.new)) }
    ensures snapshots { IfOk result (λ o. IfSome o (λ r. AreSnapshots (setting_on verified.now inputs.old) (start inputs.old.maps.bytes) r.calls.items 0 snapshots.new.items)) }
    ensures each { IfOk result (λ o. IfSome o (λ r. length snapshots.new.items ≡ r.steps)) }
    ensures whole { IfOk result (λ o. IfSome o (λ _. length inputs.old.context.items ≡ context_length_of verified.now.hook verified.now.version)) }
    ensures none { IfOk result (λ o. IfNone o (¬ FitsProgram verified.now inputs.old)) }
    ensures left { IfOk result (λ o. IfNone o (inputs.new ≡ inputs.old)) }
    ensures shapes { IfOk result (λ _. inputs.new.maps.shapes ≡ inputs.old.maps.shapes) }
    ensures kept { IfOk result (λ o. IfNone o (snapshots.new ≡ snapshots.old)) }
    ensures context { inputs.new.context ≡ inputs.old.context }
    ensures env { inputs.new.env ≡ inputs.old.env }
{
    if !fits(verified, inputs) {
        return Ok(None);
    }
    let mut stack = Stack::new();
    let env = inputs.env;
    let ran = run_traced(
        verified,
        inputs.context.as_slice(),
        &mut inputs.maps,
        &mut stack,
        env,
        &mut inputs.board,
        snapshots,
    )?;
    Ok(Some(ran))
}
