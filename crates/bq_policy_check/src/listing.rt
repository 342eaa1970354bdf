//! `dis` of a policy's file.
ghost use Rattle.std.specs.Prelude.{◌≡◌, ◌≢◌, ◌++◌, ℕ, List, IfOk, OnOk, string_bytes};
ghost use Rattle.bq_policy_file.specs.declared.fault.PolicyFault.TheVariants.{OutOfMemory};
ghost use Rattle.bq_policy_check.specs.Listing.{ListsFile, ListsTo};
ghost use Rattle.bq_policy_check.specs.Refusing.{RefusesPolicy};

use crate::answered::Answered;
use crate::file_fault::{FileFault, fault_line, reason_of, reason_text};
use crate::given::given_head;
use crate::words::DisWords;
use bq_console::{WordsFault, file_named};
use bq_policy_file::{Head, PolicyFault, policy_text, read_policy};
use std::alloc::{AllocError, Global};

/// Lists the policy whose file has these bytes, under the marks that say its hook, maps and version. Words are
/// refused only if they say no head.
pub fn list(alloc: Global, words: &DisWords, bytes: &[u8]) -> Result<Answered, AllocError>
    ensures { IfOk result (ListsTo words.now bytes.now) }
{
    match given_head(alloc, &words.policy) {
        Ok(head) => list_file(alloc, words, bytes, &head),
        Err(WordsFault::Words(why)) => Ok(Answered::Words(why)),
        Err(WordsFault::OutOfMemory) => Err(AllocError),
    }
}

/// Answers `dis` for the file of these bytes: the listing of its policy, or why the file is no policy.
fn list_file(
    alloc: Global,
    words: &DisWords,
    bytes: &[u8],
    head: &Head,
) -> Result<Answered, AllocError>
    ensures { IfOk result (ListsFile words.now bytes.now head.now) }
{
    match read_policy(alloc, bytes, head) {
        Ok(policy) => {
            let listed = policy_text(alloc, &policy, words.has_slots)?;
            Ok(Answered::Done(listed))
        }
        Err(fault) => {
            let text = refused_file(alloc, &words.policy.file, bytes, fault)?;
            Ok(Answered::Refused(text))
        }
    }
}

/// Writes the line that refuses a file, and what is wrong with it.
pub fn refused_file(
    alloc: Global,
    file: &Option<String>,
    bytes: &[u8],
    fault: PolicyFault,
) -> Result<String, AllocError>
    ensures line { IfOk result (λ text. RefusesPolicy fault (string_bytes text)) }
    ensures other { OnOk result (fault ≢ OutOfMemory) }
{
    let line = fault_line(alloc, fault)?;
    let reason = reason_of(alloc, bytes, fault)?;
    reasoned(alloc, file_named(file), &reason, &line)
}

/// Writes a line that refuses a file, and the reason after it.
pub(crate) fn reasoned(
    alloc: Global,
    name: Option<&str>,
    reason: &FileFault,
    line: &String,
) -> Result<String, AllocError>
    ensures { IfOk result (λ text. (reason : List ℕ) × (string_bytes text ≡ string_bytes line.now ++ reason)) }
{
    let reason = reason_text(alloc, name, reason)?;
    format!(in alloc; "{line}{reason}\n")
}
