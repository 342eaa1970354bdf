//! The files that `simulate` reads: its workload, and the policies at its hooks.

use bq_asm_faults::{TextKind, kind_of_text};
use bq_console::status::{BAD_INPUT, BAD_WORDS};
use bq_console::{
    Name, file_named, name_of, read_input, report_out_of_memory, report_unread, whole_input,
};
use bq_experiment::{AttachFault, HookWords, Policies, StudyWords};
use bq_hooks::Hook;
use bq_load::LoadFault;
use bq_policy_file::{Head, fault_text, read_policy};
use bq_words::DisciplineName;
use bq_workload::Workload;
use bq_workload_file::{Changes, WorkloadFault, read};
use std::io::{Error, ErrorKind};
use std::process::ExitCode;
use std::str::from_utf8;

/// Reads the policies that the words compare with, if they compare; `none` adds none.
pub(crate) fn read_other_policies(
    rt: &HostRuntime,
    words: &StudyWords,
    most: u64,
) -> Result<Option<Policies>, ExitCode> {
    if words.against.is_empty() {
        return Ok(None);
    }
    let mut policies = Policies::new(rt.alloc());
    for path in &words.against {
        if path.as_str() != "none" {
            let bytes = policy_bytes(rt, words, most, path)?;
            if let Err(fault) = policies.add_by_head(rt.alloc(), bytes.as_slice()) {
                return Err(report_unattached(rt, path.as_str(), None, fault));
            }
        }
    }
    Ok(Some(policies))
}

/// Reads the workload of the file that the words name.
pub(crate) fn read_workload(
    rt: &HostRuntime,
    words: &StudyWords,
    most: u64,
    changes: Changes,
) -> Result<Workload, ExitCode> {
    let name = name_of(&words.shown.file);
    let bytes = whole_input(rt, &words.shown.file, most)?;
    let Ok(text) = from_utf8(bytes.as_slice()) else {
        let what = foreign_text(bytes.as_slice()).unwrap_or("the file is not UTF-8 text");
        return Err(report_no_workload(rt, name, what));
    };
    match read(rt.alloc(), text, changes) {
        Ok(workload) => Ok(workload),
        Err(WorkloadFault::OutOfMemory) => Err(report_out_of_memory(rt)),
        Err(fault) => match foreign_text(bytes.as_slice()) {
            Some(what) => Err(report_no_workload(rt, name, what)),
            None => {
                let name = Name(name);
                let _ = eprintln!(rt; "{name}{fault}");
                Err(ExitCode::from(BAD_INPUT))
            }
        },
    }
}

/// Says what a file is that was given as a workload but is not one.
fn report_no_workload(rt: &HostRuntime, name: &str, what: &str) -> ExitCode {
    let name = Name(name);
    let _ = eprintln!(rt; "{name}: {what}");
    ExitCode::from(BAD_INPUT)
}

/// Says what a file is that was given as a workload, and what to do with it, if that can be told.
fn foreign_text(bytes: &[u8]) -> Option<&'static str> {
    match kind_of_text(bytes) {
        TextKind::Policy => Some(
            "this is a policy, not a workload; give a workload, and this by --place, --preempt or --pull",
        ),
        TextKind::C => Some(
            "this is C, not a workload; docs/POLICIES_IN_C.md makes a policy of it",
        ),
        TextKind::Trace => Some("this is a trace, not a workload; bqsim timeline shows it"),
        TextKind::Workload | TextKind::Other => None,
    }
}

/// Reads the policies that the words install at the hooks.
pub(crate) fn read_policies(
    rt: &HostRuntime,
    words: &StudyWords,
    most: u64,
) -> Result<Policies, ExitCode> {
    let HookWords {
        place,
        preempt,
        pull,
    } = &words.hooks;
    let mut policies = Policies::new(rt.alloc());
    add(rt, words, most, &mut policies, Hook::Place, place)?;
    add(rt, words, most, &mut policies, Hook::Preempt, preempt)?;
    add(rt, words, most, &mut policies, Hook::Pull, pull)?;
    Ok(policies)
}

/// Adds the policy of a file, unless no file is given or it is called `none`.
fn add(
    rt: &HostRuntime,
    words: &StudyWords,
    most: u64,
    policies: &mut Policies,
    hook: Hook,
    file: &Option<String>,
) -> Result<(), ExitCode> {
    let Some(path) = file else {
        return Ok(());
    };
    if path.as_str() == "none" {
        return Ok(());
    }
    let bytes = policy_bytes(rt, words, most, path)?;
    match policies.add(rt.alloc(), hook, bytes.as_slice()) {
        Ok(()) => Ok(()),
        Err(AttachFault::Hook) => Err(report_other_hook(rt, path.as_str(), hook, bytes.as_slice())),
        Err(fault) => Err(report_unattached(rt, path.as_str(), Some(hook), fault)),
    }
}

/// Says that the policy of a file is for the hook that the file names, and not for the one that was asked for.
fn report_other_hook(rt: &HostRuntime, path: &str, hook: Hook, file: &[u8]) -> ExitCode {
    let asked = hook.word();
    let path = Name(path);
    match read_policy(rt.alloc(), file, &Head::nothing()) {
        Ok(policy) => {
            let own = policy.form.hook.word();
            let _ = eprintln!(rt;
                "{path}: the policy is for the hook {own}, not for {asked}; give it by --{own}"
            );
        }
        Err(_) => {
            let _ = eprintln!(rt; "{path}: the policy is for another hook than {asked}");
        }
    }
    ExitCode::from(BAD_INPUT)
}

/// Reads the bytes of the file of a policy, or of standard input for `-`, unless the workload is that.
fn policy_bytes(
    rt: &HostRuntime,
    words: &StudyWords,
    most: u64,
    path: &String,
) -> Result<Vec<u8>, ExitCode> {
    let path = path.as_str();
    if path != "-" {
        return match read_input(rt, Some(path), most) {
            Ok(bytes) => Ok(bytes),
            Err(error) => Err(report_no_policy(rt, path, &error)),
        };
    }
    if file_named(&words.shown.file).is_none() {
        let _ = rt.eprintln("error: standard input is the workload: name the file of the policy");
        return Err(ExitCode::from(BAD_WORDS));
    }
    whole_input(rt, &None, most)
}

/// Says why the file of a policy can't be read. Where it would be, a discipline may have been named.
fn report_no_policy(rt: &HostRuntime, path: &str, error: &Error) -> ExitCode {
    let code = report_unread(rt, Some(path), error);
    if error.kind() == ErrorKind::NotFound {
        if let Some(discipline) = DisciplineName::of_word(path.as_bytes()) {
            let discipline = discipline.word();
            let _ = eprintln!(rt;
                "bqsim: --place, --preempt, --pull and --against take the file of a policy, or none; a discipline goes by --discipline {discipline}, and docs/SEEDS.md compares two"
            );
        }
    }
    code
}

/// Says why a file is no policy for the hook that the words name, or if they name none, for the hook that it says.
fn report_unattached(
    rt: &HostRuntime,
    path: &str,
    hook: Option<Hook>,
    fault: AttachFault,
) -> ExitCode {
    match fault {
        AttachFault::OutOfMemory => report_out_of_memory(rt),
        AttachFault::Program(fault) => report_unaccepted(rt, path, hook, fault),
        fault => {
            let path = Name(path);
            let _ = eprintln!(rt; "{path}: {fault}");
            ExitCode::from(BAD_INPUT)
        }
    }
}

/// Says that a file's program is refused, by the name that `check` gives the fault, and which command explains it. That command
/// names the hook if the words do, since the file may not.
fn report_unaccepted(
    rt: &HostRuntime,
    path: &str,
    hook: Option<Hook>,
    fault: LoadFault,
) -> ExitCode {
    let Ok(named) = fault_text(rt.alloc(), fault) else {
        return report_out_of_memory(rt);
    };
    let path = Name(path);
    match hook {
        Some(hook) => {
            let hook = hook.word();
            let _ = eprintln!(rt;
                "{path}: refused {named}; bqsim check --explain --hook {hook} {path} says why"
            );
        }
        None => {
            let _ = eprintln!(rt; "{path}: refused {named}; bqsim check --explain {path} says why");
        }
    }
    ExitCode::from(BAD_INPUT)
}
