//! What the verifier and a keeper's limits answer to a policy.
ghost use Rattle.std.specs.Prelude.{◌≡◌, IfOk};
ghost use Rattle.std.specs.String.{string_bytes};
ghost use Rattle.bq_explain.specs.Verdicts.{IsAcceptedPolicy, IsVerdict, is_accepted, exceeded_line, verdict_line};

use crate::limits::{ExceededLimit, Limits};
use bq_hooks::Hook;
use bq_load::LoadFault;
use bq_policy_file::{PolicySource, accepted_line, fault_text};
use bq_verify::{Cause, Refused, verify};
use std::alloc::{AllocError, Global};

/// The answer to a policy under limits.
#[derive(Clone, Copy)]
pub enum Verdict {
    /// The policy is safe, and its runs of at most this many instructions are within the limits.
    Accepted { budget: u32 },
    /// The runs of the policy take up to `budget` instructions, and only `most` are allowed.
    OverSteps { budget: u32, most: u32 },
    /// The policy calls a helper that is not allowed.
    Forbidden { helper: i32 },
    /// The policy is for a hook that is not allowed.
    OtherHook,
    /// The policy exceeds another limit.
    Beyond(ExceededLimit),
    /// The policy is not shown to be safe: the slot that the verifier names, and the cause.
    Refused { slot: usize, cause: Cause },
}

impl Verdict {
    ghost use Rattle.bq_explain.specs.Verdicts.{is_accepted};

    /// Whether the policy may run.
    pub fn is_accepted(self) -> bool
        ensures { result ≡ is_accepted self }
    {
        matches!(self, Verdict::Accepted { .. })
    }
}

/// Judges a policy. The verifier is asked first, then the limits: steps, helpers, hook, maps, their bytes, counters.
pub fn judge(alloc: Global, policy: &PolicySource, limits: &Limits) -> Result<Verdict, AllocError>
    ensures { IfOk result (IsVerdict policy.now limits.now) }
{
    let program = policy.program(alloc)?;
    match verify(alloc, program) {
        Ok(verified) => Ok(limited(policy, limits, verified.budget())),
        Err(Refused::OutOfMemory) => Err(AllocError),
        Err(Refused::At { slot, cause }) => Ok(Verdict::Refused { slot, cause }),
    }
}

/// Judges by the limits a policy that the verifier accepts with this budget.
fn limited(policy: &PolicySource, limits: &Limits, budget: u32) -> Verdict
    requires { IsAcceptedPolicy policy.now budget }
    ensures { IsVerdict policy.now limits.now result }
{
    if let Some(most) = limits.steps {
        if most < budget {
            return Verdict::OverSteps { budget, most };
        }
    }
    if let Some(helper) = limits.forbidden(policy.insns.as_slice()) {
        return Verdict::Forbidden { helper };
    }
    if !limits.allows(policy.form.hook) {
        return Verdict::OtherHook;
    }
    match limits.exceeded(policy) {
        Some(over) => Verdict::Beyond(over),
        None => Verdict::Accepted { budget },
    }
}

/// Writes the line that tells a verdict, as `check` tells it of a policy of that hook.
pub fn verdict_line(alloc: Global, hook: Hook, verdict: Verdict) -> Result<String, AllocError>
    ensures { IfOk result (λ text. string_bytes text ≡ verdict_line hook verdict) }
{
    match verdict {
        Verdict::Accepted { budget } => accepted_line(alloc, hook, budget),
        Verdict::OverSteps { budget, most } => {
            format!(in alloc; "refused limit steps {budget} of {most}\n")
        }
        Verdict::Forbidden { helper } => format!(in alloc; "refused limit helper {helper}\n"),
        Verdict::OtherHook => {
            let hook = hook.word();
            format!(in alloc; "refused limit hook {hook}\n")
        }
        Verdict::Beyond(over) => exceeded_line(alloc, over),
        Verdict::Refused { slot, cause } => {
            let named = fault_text(alloc, LoadFault::Refused { slot, cause })?;
            format!(in alloc; "refused {named}\n")
        }
    }
}

/// Writes the line on a limit that a policy exceeds.
fn exceeded_line(alloc: Global, over: ExceededLimit) -> Result<String, AllocError>
    ensures { IfOk result (λ text. string_bytes text ≡ exceeded_line over) }
{
    let word = over.measure.word();
    let used = over.used;
    let most = over.most;
    format!(in alloc; "refused limit {word} {used} of {most}\n")
}
