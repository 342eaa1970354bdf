//! `check` of a policy's file.
ghost use Rattle.std.specs.Prelude.{◌≡◌, ◌≢◌, IfErr, IfOk, OnOk, false, string_bytes};
ghost use Rattle.bq_policy_file.specs.declared.fault.PolicyFault.TheVariants.{OutOfMemory};
ghost use Rattle.bq_policy_check.specs.Checking.{ChecksFile, ChecksTo, IsShownAsJson, IsPlainLine, GivesTerms, ReportsVerdict, answered};
ghost use Rattle.bq_policy_check.specs.Limiting.{HasLimits};
ghost use Rattle.bq_policy_check.specs.Refusing.{policy_fault_line};
ghost use Rattle.bq_console.specs.Words.{GivesNone};
ghost use Rattle.bq_policy_check.specs.Given.{GivesHead};
ghost use Rattle.bq_policy_check.specs.Showing.{ShowsFault, ShowsVerdict};

use crate::answered::Answered;
use crate::file_fault::{fault_line, reason_of};
use crate::given::given_head;
use crate::json_text::{explanation_json, name_text, reason_json};
use crate::limits::limits_of;
use crate::listing::reasoned;
use crate::source_lines::source_text;
use crate::words::CheckWords;
use bq_console::WordsFault;
use bq_explain::{Explanation, Limits, explain, explanation_text, judge, verdict_line};
use bq_policy_file::{Head, PolicyFault, PolicySource, read_policy};
use std::alloc::{AllocError, Global};

/// Gives the verdict on the policy whose file has that name and these bytes, or why the file is no policy. Words are refused
/// only if they say no head or no limits. Standard input has no name.
pub fn check(
    alloc: Global,
    words: &CheckWords,
    name: Option<&str>,
    bytes: &[u8],
) -> Result<Answered, AllocError>
    ensures { IfOk result (ChecksTo words.now bytes.now) }
{
    match terms_of(alloc, words) {
        Ok(terms) => check_file(alloc, words, name, bytes, &terms),
        Err(WordsFault::Words(why)) => Ok(Answered::Words(why)),
        Err(WordsFault::OutOfMemory) => Err(AllocError),
    }
}

/// What a check goes by: what is said beside the file, and the limits.
#[derive(Drop)]
pub(crate) struct Terms {
    pub(crate) head: Head,
    pub(crate) limits: Limits,
}

/// Returns what the words say beside the file, and the limits that they set.
pub(crate) fn terms_of(alloc: Global, words: &CheckWords) -> Result<Terms, WordsFault>
    ensures gives { IfOk result (λ terms. GivesHead words.now.policy terms.head) }
    ensures has { IfOk result (λ terms. HasLimits words.now.limits terms.limits) }
    ensures none { IfErr result (GivesNone (GivesTerms words.now)) }
{
    let head = given_head(alloc, &words.policy)?;
    let limits = limits_of(alloc, &words.limits)?;
    Ok(Terms { head, limits })
}

/// Answers `check` for the file of these bytes: the verdict on its policy, or why the file is no policy.
fn check_file(
    alloc: Global,
    words: &CheckWords,
    name: Option<&str>,
    bytes: &[u8],
    terms: &Terms,
) -> Result<Answered, AllocError>
    ensures { IfOk result (ChecksFile words.now bytes.now terms.now.head terms.now.limits) }
{
    match read_policy(alloc, bytes, &terms.head) {
        Ok(policy) => check_policy(alloc, words, name, bytes, &policy, &terms.limits),
        Err(fault) => Ok(Answered::Refused(refusal(alloc, words, name, bytes, fault)?)),
    }
}

/// Gives the verdict on the policy in the file of these bytes, in the form that the words ask for.
fn check_policy(
    alloc: Global,
    words: &CheckWords,
    name: Option<&str>,
    bytes: &[u8],
    policy: &PolicySource,
    limits: &Limits,
) -> Result<Answered, AllocError>
    ensures { IfOk result (ReportsVerdict words.now policy.now limits.now) }
{
    if words.is_explained || words.is_json {
        let explanation = explain(alloc, policy, bytes, limits)?;
        let text = shown(alloc, words, name, bytes, policy, &explanation)?;
        return Ok(answered(explanation.verdict.is_accepted(), text));
    }
    judge_policy(alloc, words, policy, limits)
}

/// Gives the verdict on a policy, by one line.
fn judge_policy(
    alloc: Global,
    words: &CheckWords,
    policy: &PolicySource,
    limits: &Limits,
) -> Result<Answered, AllocError>
    requires { words.now.is_json ≡ false }
    ensures { IfOk result (ReportsVerdict words.now policy.now limits.now) }
{
    let verdict = judge(alloc, policy, limits)?;
    let line = verdict_line(alloc, policy.form.hook, verdict)?;
    Ok(answered(verdict.is_accepted(), line))
}

/// Says why the file of these bytes is no policy, in the form that the words ask for.
fn refusal(
    alloc: Global,
    words: &CheckWords,
    name: Option<&str>,
    bytes: &[u8],
    fault: PolicyFault,
) -> Result<String, AllocError>
    ensures reported { IfOk result (λ text. IsPlainLine words.now (policy_fault_line fault) (string_bytes text)) }
    ensures shown { IfOk result (λ text. IsShownAsJson words.now (ShowsFault fault) (string_bytes text)) }
    ensures other { OnOk result (fault ≢ OutOfMemory) }
{
    let line = fault_line(alloc, fault)?;
    if words.is_explained || words.is_json {
        return reasoned_refusal(alloc, words, name, bytes, fault, &line);
    }
    Ok(line)
}

/// Makes an answer of that text.
fn answered(accepted: bool, text: String) -> Answered
    ensures { result ≡ answered accepted text }
{
    if accepted {
        Answered::Done(text)
    } else {
        Answered::Refused(text)
    }
}

/// Says why the file of these bytes is no policy, with the reason, in words or as JSON.
fn reasoned_refusal(
    alloc: Global,
    words: &CheckWords,
    name: Option<&str>,
    bytes: &[u8],
    fault: PolicyFault,
    line: &String,
) -> Result<String, AllocError>
    requires { string_bytes line.now ≡ policy_fault_line fault }
    ensures { IfOk result (λ text. IsShownAsJson words.now (ShowsFault fault) (string_bytes text)) }
{
    let reason = reason_of(alloc, bytes, fault)?;
    let text = reasoned(alloc, name, &reason, line)?;
    if words.is_json {
        return reason_json(alloc, name, fault, &reason, text.as_str());
    }
    Ok(text)
}

/// Writes an explanation, in words or as JSON. In words it ends with the line of C, if the text names one.
fn shown(
    alloc: Global,
    words: &CheckWords,
    name: Option<&str>,
    bytes: &[u8],
    policy: &PolicySource,
    explanation: &Explanation,
) -> Result<String, AllocError>
    ensures { IfOk result (λ text. IsShownAsJson words.now (ShowsVerdict policy.now explanation.now.verdict) (string_bytes text)) }
{
    if words.is_json {
        return explanation_json(alloc, name, policy, explanation);
    }
    let shown = name_text(alloc, name)?;
    let text = explanation_text(alloc, policy, shown.as_deref(), explanation)?;
    let source = source_text(alloc, bytes, explanation)?;
    format!(in alloc; "{text}{source}")
}
