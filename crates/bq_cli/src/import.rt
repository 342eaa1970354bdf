//! `import`: a compiled program, written as an assembler text.
ghost use Rattle.std.specs.Prelude.{IfErr, IfOk};
ghost use Rattle.clap.specs.Words.{found_of, rows_of};
ghost use Rattle.bq_console.specs.Words.{GivesNone};
ghost use Rattle.bq_cli.specs.Words.{ArePolicyWords};
ghost use Rattle.bq_cli.specs.Importing.{AskToImport};

use crate::policy_words::policy_words;
use crate::read_limits::most_bytes;
use bq_asm_faults::{TextKind, kind_of_text};
use bq_bpf::with_program_bytes;
use bq_console::status::BAD_INPUT;
use bq_console::{
    Lines, Name, WordsFault, name_of, refused_words, report_out_of_memory, whole_input, written,
};
use bq_explain::{Limits, explain, explanation_text};
use bq_hooks::Version;
use bq_import::{
    ImportFault, ImportRefusal, ImportSettings, ImportedText, SlotReason, imported_text,
};
use bq_object::{SourceLine, is_object, others, source_lines};
use bq_policy_check::{PolicyWords, given_head};
use bq_policy_file::{Head, read_policy};
use bq_verify::PolicyForm;
use clap::ArgMatches;
use std::alloc::{AllocError, Global};
use std::process::ExitCode;

/// Gathers the words that were found. clap refuses words without a hook.
pub(crate) fn import_words(
    alloc: Global,
    matches: &ArgMatches<'_>,
) -> Result<PolicyWords, AllocError>
    ensures { IfOk result (ArePolicyWords (rows_of (found_of matches.now))) }
{
    policy_words(alloc, matches)
}

/// Returns what the words ask for. Words are refused only if they say no hook, no maps or no format.
pub fn import_settings(alloc: Global, words: &PolicyWords) -> Result<ImportSettings, WordsFault>
    ensures asked { IfOk result (AskToImport words.now) }
    ensures none { IfErr result (GivesNone (AskToImport words.now)) }
{
    let Head { hook, maps, format } = match given_head(alloc, words) {
        Ok(head) => head,
        Err(WordsFault::Words(why)) => return Err(refused_words(alloc, &why)),
        Err(WordsFault::OutOfMemory) => return Err(WordsFault::OutOfMemory),
    };
    let Some(hook) = hook else {
        return Err(refused_words(alloc, &"--hook: it says what the program chooses"));
    };
    let shapes = match maps {
        Some(shapes) => shapes,
        None => Vec::new(alloc),
    };
    let version = format.unwrap_or(Version::First);
    let form = PolicyForm {
        hook,
        version,
        shapes,
    };
    let maps = match &words.maps {
        Some(text) => Some(String::from_str(alloc, text.as_str())?),
        None => None,
    };
    Ok(ImportSettings { form, maps })
}

/// Imports the object or the text section in the file that is named, or on standard input.
pub(crate) fn do_import(rt: &HostRuntime, words: &PolicyWords) -> Result<ExitCode, WordsFault> {
    let settings = import_settings(rt.alloc(), words)?;
    let most = most_bytes(rt.alloc(), &words.max_bytes)?;
    match whole_input(rt, &words.file, most) {
        Ok(bytes) => Ok(import_bytes(rt, name_of(&words.file), &settings, bytes.as_slice())),
        Err(code) => Ok(code),
    }
}

/// The message on an input that is no object file, and too short, too long or no multiple of eight bytes.
const NO_SECTION: &str = with_program_bytes!(
    "neither an object file nor a text section, which has ",
    " bytes, a multiple of 8"
);

/// Writes the text of a program, or says why it has none.
fn import_bytes(rt: &HostRuntime, name: &str, settings: &ImportSettings, bytes: &[u8]) -> ExitCode {
    match imported_text(rt.alloc(), settings, bytes) {
        Ok(made) => {
            report_beside(rt, name, bytes, &made);
            written(rt, made.text.as_str(), ExitCode::SUCCESS)
        }
        Err(ImportRefusal::OutOfMemory) => report_out_of_memory(rt),
        Err(_) if matches!(kind_of_text(bytes), TextKind::Policy) => {
            let name = Name(name);
            let _ = eprintln!(rt;
                "{name}: this is a policy in assembler text, and no compiled program; bqsim check reads it"
            );
            ExitCode::from(BAD_INPUT)
        }
        Err(refusal) if is_of_wrong_length(&refusal) && !is_object(bytes) => {
            let name = Name(name);
            let _ = eprintln!(rt; "{name}: {NO_SECTION}");
            ExitCode::from(BAD_INPUT)
        }
        Err(refusal) => {
            let name = Name(name);
            let _ = match source_of(rt.alloc(), &refusal, bytes) {
                Some(SourceLine { file, line }) => {
                    eprintln!(rt; "{name}: {file}:{line}: {refusal}")
                }
                None => eprintln!(rt; "{name}: {refusal}"),
            };
            ExitCode::from(BAD_INPUT)
        }
    }
}

/// Tells whether the program is refused for the number of its bytes.
fn is_of_wrong_length(refusal: &ImportRefusal) -> bool {
    match refusal {
        ImportRefusal::Import(ImportFault::At { reason, .. }) => matches!(
            reason,
            SlotReason::Length
        ),
        _ => false,
    }
}

/// Returns the line of C that a refusal is of, if an object says it.
fn source_of<'a>(
    alloc: Global,
    refusal: &ImportRefusal,
    bytes: &'a [u8],
) -> Option<SourceLine<'a>> {
    let slot = refusal.slot()?;
    if !is_object(bytes) {
        return None;
    }
    let lines = source_lines(alloc, bytes).ok()?;
    lines.as_slice().get(slot as usize).copied().flatten()
}

/// The most functions that are named among those that are left out.
const NAMED: usize = 20;

/// Says what of an object is left out, and why `check` refuses what is imported, if it does.
fn report_beside(rt: &HostRuntime, name: &str, bytes: &[u8], made: &ImportedText<'_>) {
    let name = Name(name);
    name_others(rt, name, bytes);
    if let Ok(Some(why)) = refused_by_check(rt.alloc(), made) {
        let why = Lines(why.as_str());
        let _ = eprint!(rt; "{name}: note: check refuses this policy:\n{why}");
    }
}

/// Names functions of an object that are left out, at most `NAMED` of them.
fn name_others(rt: &HostRuntime, name: Name<'_>, bytes: &[u8]) {
    if !is_object(bytes) {
        return;
    }
    let Ok(others) = others(rt.alloc(), bytes) else {
        return;
    };
    for other in others.as_slice().iter().take(NAMED) {
        let other = Name(*other);
        let _ = eprintln!(rt;
            "{name}: note: the function {other} is left out; only policy is imported"
        );
    }
}

/// Says why `check` refuses what is imported, if it does: by lines of C if all instructions come from one file of C.
fn refused_by_check(alloc: Global, made: &ImportedText<'_>) -> Result<Option<String>, AllocError> {
    let Ok(mut policy) = read_policy(alloc, made.text.as_bytes(), &Head::nothing()) else {
        return Ok(None);
    };
    let file = file_of(made.sources.as_slice());
    policy.lines = match file {
        Some(_) => line_numbers(alloc, made.sources.as_slice())?,
        None => Vec::new(alloc),
    };
    let explanation = explain(alloc, &policy, &[], &Limits::none())?;
    if explanation.verdict.is_accepted() {
        return Ok(None);
    }
    Ok(Some(explanation_text(alloc, &policy, file, &explanation)?))
}

/// Returns the file that all these lines are of, if it is one.
fn file_of<'a>(sources: &[Option<SourceLine<'a>>]) -> Option<&'a str> {
    let first = sources.first().copied().flatten()?;
    for source in sources {
        match source {
            Some(source) if source.file == first.file => {}
            _ => return None,
        }
    }
    Some(first.file)
}

/// Lists the numbers of these lines.
fn line_numbers(
    alloc: Global,
    sources: &[Option<SourceLine<'_>>],
) -> Result<Vec<usize>, AllocError> {
    let mut numbers = Vec::new(alloc);
    for source in sources {
        if let Some(source) = source {
            numbers.push(source.line as usize)?;
        }
    }
    Ok(numbers)
}
