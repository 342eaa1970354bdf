//! An explanation in words.
ghost use Rattle.std.specs.Prelude.{◌≡◌, IfOk, false, string_bytes};
ghost use Rattle.bq_insn.specs.Appending.{StartsWith};
ghost use Rattle.bq_explain.specs.Beginnings.{accepted_beginning, text_beginning};
ghost use Rattle.bq_explain.specs.Explained.{DescribesDetail, DescribesRefusal};
ghost use Rattle.bq_explain.specs.TrailTexts.{DescribesTrail};
ghost use Rattle.bq_explain.specs.Verdicts.{is_accepted};

use crate::advice_texts::advice_text;
use crate::explanation::{Detail, Explanation};
use crate::graph_fault::graph_text;
use crate::limits::ExceededLimit;
use crate::program_point::{ProgramPoint, instruction_line};
use crate::refusal::{ExplainedRefusal, Finding};
use crate::state_text::state_text;
use crate::summary::{accepted_beginning, summary_text};
use crate::trail_text::trail_text;
use crate::verdict::{Verdict, verdict_line};
use bq_needs::need_text;
use bq_policy_file::PolicySource;
use std::alloc::{AllocError, Global};

/// Writes the explanation line by line. The first line is `accepted`, or `refused` and why. The file's name, if there is one, comes
/// before the place of the instruction that is at fault.
pub fn explanation_text(
    alloc: Global,
    policy: &PolicySource,
    name: Option<&str>,
    explanation: &Explanation,
) -> Result<String, AllocError>
    ensures begins { IfOk result (λ text. StartsWith (text_beginning policy.now explanation.now.verdict) (string_bytes text)) }
    ensures describes { IfOk result (λ text. is_accepted explanation.now.verdict ≡ false → DescribesDetail policy.now explanation.now.detail (string_bytes text)) }
{
    match explanation.verdict {
        Verdict::Accepted { budget } => accepted_text(alloc, policy, budget, &explanation.detail),
        verdict => {
            let line = verdict_line(alloc, policy.form.hook, verdict)?;
            refused_text(alloc, policy, line, name, verdict, &explanation.detail)
        }
    }
}

/// Writes the line of an accepted policy, with helpers, counters and slots if the detail is a summary.
fn accepted_text(
    alloc: Global,
    policy: &PolicySource,
    budget: u32,
    detail: &Detail,
) -> Result<String, AllocError>
    ensures { IfOk result (λ text. StartsWith (accepted_beginning policy.now budget) (string_bytes text)) }
{
    match detail {
        Detail::Accepted(summary) => summary_text(alloc, policy, budget, summary),
        Detail::Limited(_) | Detail::Refused(_) => accepted_beginning(alloc, policy, budget),
    }
}

/// Adds to the line of a verdict why the policy is not accepted, if the detail says why.
fn refused_text(
    alloc: Global,
    policy: &PolicySource,
    line: String,
    name: Option<&str>,
    verdict: Verdict,
    detail: &Detail,
) -> Result<String, AllocError>
    ensures begins { IfOk result (λ text. StartsWith (string_bytes line) (string_bytes text)) }
    ensures describes { IfOk result (λ text. DescribesDetail policy.now detail.now (string_bytes text)) }
{
    match detail {
        Detail::Accepted(_) => Ok(line),
        Detail::Limited(place) => {
            let why = limit_text(alloc, name, verdict, place)?;
            format!(in alloc; "{line}{why}")
        }
        Detail::Refused(refusal) => refusal_text(alloc, policy, line, name, refusal),
    }
}

/// Says which limit the policy exceeds, and what it uses or calls.
fn limit_text(
    alloc: Global,
    name: Option<&str>,
    verdict: Verdict,
    place: &Option<ProgramPoint>,
) -> Result<String, AllocError> {
    match (verdict, place) {
        (Verdict::OverSteps { budget, most }, _) => format!(in alloc;
            "  a run takes up to {budget} instructions, and the limit of --max-steps is {most}\n"
        ),
        (Verdict::Forbidden { helper }, Some(place)) => {
            let at = instruction_line(alloc, name, place)?;
            format!(in alloc;
                "{at}\n  calls helper {helper}, which is none of those that the limit of --helpers allows\n"
            )
        }
        (Verdict::OtherHook, _) => String::from_str(
            alloc,
            "  the policy is for a hook that the limit of --hooks leaves out\n",
        ),
        (Verdict::Beyond(over), _) => {
            let ExceededLimit {
                measure,
                used,
                most,
            } = over;
            let what = measure.text();
            let word = measure.word();
            format!(in alloc; "  {what}: {used}; the limit of --max-{word} is {most}\n")
        }
        _ => Ok(String::new(alloc)),
    }
}

/// Adds to the line of a refusal its place, the need that is not met, the state before the instruction, and what helps.
fn refusal_text(
    alloc: Global,
    policy: &PolicySource,
    line: String,
    name: Option<&str>,
    refusal: &ExplainedRefusal,
) -> Result<String, AllocError>
    ensures begins { IfOk result (λ text. StartsWith (string_bytes line) (string_bytes text)) }
    ensures describes { IfOk result (λ text. DescribesRefusal policy.now refusal.now (string_bytes text)) }
{
    let at = instruction_line(alloc, name, &refusal.place)?;
    let after = after_text(alloc, policy, refusal)?;
    match refusal.finding {
        Finding::Graph(fault) => {
            let need = graph_text(alloc, policy, fault, refusal.label.as_deref())?;
            format!(in alloc; "{line}{at}\n  {need}\n{after}")
        }
        Finding::Unknown => format!(in alloc; "{line}{at}\n  is not shown to be safe\n{after}"),
        Finding::State { need, known } => {
            let described = need_text(alloc, policy, &known, refusal.place.insn, need)?;
            let state = state_text(alloc, policy.form.shapes.as_slice(), &known)?;
            format!(in alloc; "{line}{at}\n  {described}\n{state}{after}")
        }
    }
}

/// Says what is wrong with the refused instruction, without the state that is known before the instruction.
pub fn finding_text(
    alloc: Global,
    policy: &PolicySource,
    refusal: &ExplainedRefusal,
) -> Result<String, AllocError> {
    match refusal.finding {
        Finding::Graph(fault) => graph_text(alloc, policy, fault, refusal.label.as_deref()),
        Finding::Unknown => String::from_str(alloc, "is not shown to be safe"),
        Finding::State { need, known } => {
            need_text(alloc, policy, &known, refusal.place.insn, need)
        }
    }
}

/// Says where the registers come from, and what helps.
fn after_text(
    alloc: Global,
    policy: &PolicySource,
    refusal: &ExplainedRefusal,
) -> Result<String, AllocError>
    ensures { IfOk result (λ text. DescribesTrail policy.now.form.shapes.items refusal.now.trail (string_bytes text)) }
{
    let trail = trail_text(alloc, policy.form.shapes.as_slice(), &refusal.trail)?;
    let help = advice_text(alloc, policy, refusal.advice)?;
    format!(in alloc; "{trail}  helps: {help}\n")
}
