//! The words of `asm` beside the marks of its text.
ghost use Rattle.std.specs.Prelude.{◌≡◌, IfOk, MatchOption};
ghost use Rattle.bq_policy_file.specs.declared.head.Head.{Head as HeadValue};
ghost use Rattle.bq_policy_check.specs.Disagreeing.{IsAsmRefusal, IsDifferingKey, IsRefusalBeside, GivesImage, differing};

use crate::file_fault::{fault_line, fault_reason};
use bq_policy_file::{FileKind, Head, Key, Options, PolicyFault, kind_of, read_policy, shapes_of};
use std::alloc::{AllocError, Global};

/// Why the words of `asm` are refused beside a text.
#[derive(Drop)]
pub struct AsmRefusal {
    /// The line that names the mark, as `check` names it.
    pub line: String,
    /// What is wrong, in words.
    pub reason: String,
}

/// Returns the refusal of the options of `asm`, if they contradict the marks of the text; `None` if they do not.
pub fn asm_refusal(
    alloc: Global,
    options: &Options,
    text: &[u8],
) -> Result<Option<AsmRefusal>, AllocError>
    ensures { IfOk result (IsAsmRefusal options.now text.now) }
{
    match head_of(alloc, options)? {
        None => Ok(None),
        Some(given) => refusal_beside(alloc, &given, text),
    }
}

/// Returns why the options are refused, given what the marks of the text say; `None` if they agree.
fn refusal_beside(
    alloc: Global,
    given: &Head,
    text: &[u8],
) -> Result<Option<AsmRefusal>, AllocError>
    ensures { IfOk result (IsRefusalBeside text.now given.now) }
{
    match difference(alloc, given, text)? {
        None => Ok(None),
        Some(key) => {
            let fault = PolicyFault::Disagrees(key);
            let line = fault_line(alloc, fault)?;
            let reason = fault_reason(alloc, text, fault)?;
            Ok(Some(AsmRefusal { line, reason }))
        }
    }
}

/// Returns what the options say of the image, if they ask for one. A `--maps` that names no maps is refused later, by `asm` itself.
#[tactic(auto, using(crate::proofs::DifferenceLemmas::no_image, crate::proofs::DifferenceLemmas::no_maps))]
pub(crate) fn head_of(alloc: Global, options: &Options) -> Result<Option<Head>, AllocError>
    ensures { IfOk result (λ stated. MatchOption stated ((h : HeadValue) → ¬ GivesImage options.now h) (GivesImage options.now)) }
{
    if options.hook.is_none() {
        return Ok(None);
    }
    let Some(text) = &options.maps else {
        return Ok(Some(Head {
            hook: options.hook,
            maps: None,
            format: options.format,
        }));
    };
    match shapes_of(alloc, text.as_bytes())? {
        None => Ok(None),
        Some(shapes) => Ok(Some(Head {
            hook: options.hook,
            maps: Some(shapes),
            format: options.format,
        })),
    }
}

/// Returns the first mark of a text from which the words differ, if there is one.
fn difference(alloc: Global, given: &Head, text: &[u8]) -> Result<Option<Key>, AllocError>
    ensures { IfOk result (IsDifferingKey text.now given.now) }
{
    match kind_of(text) {
        FileKind::Image | FileKind::Hex => return Ok(None),
        FileKind::Text => {}
    }
    match read_policy(alloc, text, given) {
        Ok(_) => Ok(None),
        Err(PolicyFault::OutOfMemory) => Err(AllocError),
        Err(fault) => Ok(differing(fault)),
    }
}

/// Returns the mark that the words contradict, if that is the fault.
fn differing(fault: PolicyFault) -> Option<Key>
    ensures { result ≡ differing fault }
{
    match fault {
        PolicyFault::Disagrees(key) => Some(key),
        PolicyFault::Text
        | PolicyFault::Hex
        | PolicyFault::Head { .. }
        | PolicyFault::Assembly { .. }
        | PolicyFault::Image(_)
        | PolicyFault::Program { .. }
        | PolicyFault::NoHook
        | PolicyFault::OutOfMemory => None,
    }
}
