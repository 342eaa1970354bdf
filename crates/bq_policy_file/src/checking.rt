//! From the hex of an image to what is known of its program.
ghost use Rattle.std.specs.Prelude.{◌≡◌, ◌≢◌, IfOk, OnOk};
ghost use Rattle.std.specs.String.{string_bytes};
ghost use Rattle.bq_load.specs.declared.fault.LoadFault.TheVariants.{OutOfMemory};
ghost use Rattle.bq_load.specs.Naming.{load_fault_text};
ghost use Rattle.bq_policy_file.specs.Check.{CheckWrites, accepted_line};

use crate::Answer;
use crate::hex_text::bytes_of;
use bq_hooks::Hook;
use bq_load::{LoadFault, load};
use std::alloc::{AllocError, Global};

/// The hook and the budget of the image whose bytes the hex text spells; else why it is refused. The budget is the
/// number of instructions that a run of its program takes at most. Blanks and line ends in the text are dropped.
pub fn checked(alloc: Global, hex: &[u8]) -> Result<Answer, AllocError>
    ensures { IfOk result (λ a. CheckWrites hex.now a.accepted (string_bytes a.text)) }
{
    let Some(bytes) = bytes_of(alloc, hex)? else {
        return Answer::refused(alloc, "hex");
    };
    match load(alloc, bytes.as_slice()) {
        Ok(program) => {
            let line = accepted_line(alloc, program.hook(), program.budget())?;
            Ok(Answer::accepted(line))
        }
        Err(fault) => {
            let reason = fault_text(alloc, fault)?;
            Answer::refused(alloc, reason.as_str())
        }
    }
}

/// The line that tells of a program that is accepted: its hook and its budget.
pub fn accepted_line(alloc: Global, hook: Hook, budget: u32) -> Result<String, AllocError>
    ensures { IfOk result (λ text. string_bytes text ≡ accepted_line hook budget) }
{
    let hook = hook.word();
    format!(in alloc; "accepted {hook} budget {budget}\n")
}

/// Names a fault: the letter L and its number, and for a fault of the program its cause and its slot. If memory runs out, that
/// is the error.
pub fn fault_text(alloc: Global, fault: LoadFault) -> Result<String, AllocError>
    ensures named { IfOk result (λ text. string_bytes text ≡ load_fault_text fault) }
    ensures other { OnOk result (fault ≢ OutOfMemory) }
{
    match fault {
        LoadFault::OutOfMemory => Err(AllocError),
        fault => format!(in alloc; "{fault}"),
    }
}
