//! From an assembler text to the hex of its program, or of an image with it.
ghost use Rattle.std.specs.Prelude.{IfOk};
ghost use Rattle.std.specs.String.{string_bytes};
ghost use Rattle.bq_policy_file.specs.Asm.{AsmWrites};

use crate::Answer;
use crate::form::ProgramForm;
use bq_asm::{AsmFault, assemble};
use std::alloc::{AllocError, Global};

/// The lower-case hex of the program to which an assembler text assembles, in this form, and LF; otherwise why the text
/// is refused.
pub fn assembled(alloc: Global, form: &ProgramForm, text: &[u8]) -> Result<Answer, AllocError>
    ensures { IfOk result (λ a. AsmWrites form.now text.now a.accepted (string_bytes a.text)) }
{
    let Ok(text) = std::str::from_utf8(text) else {
        return Answer::refused(alloc, "text");
    };
    match assemble(alloc, text) {
        Ok(insns) => {
            let bytes = form.bytes_of(alloc, insns.as_slice())?;
            let mut line = hex::encode(alloc, bytes.as_slice())?;
            line.push_str("\n")?;
            Ok(Answer::accepted(line))
        }
        Err(AsmFault::OutOfMemory) => Err(AllocError),
        Err(AsmFault::At { line, cause }) => {
            let fault = AsmFault::At { line, cause };
            let reason = format!(in alloc; "{fault}")?;
            Answer::refused(alloc, reason.as_str())
        }
    }
}
