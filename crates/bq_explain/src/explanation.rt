//! The explanation of a policy as a value: its verdict, and the detail behind the verdict.
ghost use Rattle.std.specs.Prelude.{IfOk};
ghost use Rattle.bq_explain.specs.Explained.{Explains, IsDetail, IsOfVerifier};

use crate::limits::Limits;
use crate::program_point::{ProgramPoint, call_of};
use crate::refusal::{ExplainedRefusal, refusal_of};
use crate::summary::{Summary, summary_of};
use crate::verdict::{Verdict, judge};
use bq_policy_file::PolicySource;
use std::alloc::{AllocError, Global};

/// The explanation of a policy.
#[derive(Drop)]
pub struct Explanation {
    /// The answer of the verifier and the limits.
    pub verdict: Verdict,
    /// The detail behind the verdict.
    pub detail: Detail,
}

/// The detail behind a verdict.
#[derive(Drop)]
pub enum Detail {
    /// The policy is accepted: what its program uses.
    Accepted(Summary),
    /// The policy is safe and exceeds a limit: the first call of a helper that is not allowed, if the limit is on helpers.
    Limited(Option<ProgramPoint>),
    /// The verifier refuses the policy: the place and the reason.
    Refused(ExplainedRefusal),
}

/// Judges a policy and explains the verdict. What the explanation says of registers and stack at the slot of a refusal holds
/// in every run that comes there. The label of a jump at fault is taken from the bytes of the policy's file, if the file is a text.
pub fn explain(
    alloc: Global,
    policy: &PolicySource,
    file: &[u8],
    limits: &Limits,
) -> Result<Explanation, AllocError>
    ensures { IfOk result (Explains policy.now limits.now) }
{
    let verdict = judge(alloc, policy, limits)?;
    let detail = detail_of(alloc, policy, file, verdict)?;
    Ok(Explanation { verdict, detail })
}

/// Finds the detail behind the verdict.
fn detail_of(
    alloc: Global,
    policy: &PolicySource,
    file: &[u8],
    verdict: Verdict,
) -> Result<Detail, AllocError>
    requires { IsOfVerifier policy.now verdict }
    ensures { IfOk result (IsDetail policy.now verdict) }
{
    match verdict {
        Verdict::Accepted { .. } => {
            let summary = summary_of(alloc, policy)?;
            Ok(Detail::Accepted(summary))
        }
        Verdict::OverSteps { .. } | Verdict::OtherHook | Verdict::Beyond(_) => {
            Ok(Detail::Limited(None))
        }
        Verdict::Forbidden { helper } => Ok(Detail::Limited(call_of(policy, helper))),
        Verdict::Refused { slot, cause } => {
            let refusal = refusal_of(alloc, policy, file, slot, cause)?;
            Ok(Detail::Refused(refusal))
        }
    }
}
