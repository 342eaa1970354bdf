//! What policies answered.
ghost use Rattle.std.specs.Prelude.{◌≡◌, IfSome, Some};
ghost use Rattle.bq_installed.specs.Installed.{at_hook};
ghost use Rattle.bq_installed.specs.Standing.{HasAnswered};
ghost use Rattle.bq_verify.specs.Accepted.{Accepted};

use bq_disc::RunQueue;
use bq_hooks::Hook;
use bq_parts::Cpu;

/// Returns the last answer of the policy at a hook, if its last run took this many steps: a run of the policy that is installed there
/// gives this number in this many steps.
#[tactic(auto, using(crate::proofs::AnsweredLemmas::answered_by))]
pub fn answer<Q: RunQueue>(cpu: &Cpu<Q>, hook: Hook, steps: u32) -> Option<u64>
    ensures { IfSome result (λ r0. (policy : Accepted) × ((at_hook hook cpu.now.hooks).policy ≡ Some policy)
        × HasAnswered policy (record { r0 = r0; steps = steps })) }
{
    match cpu.answered(hook) {
        Some(done) if done.steps == steps => Some(done.r0),
        _ => None,
    }
}
