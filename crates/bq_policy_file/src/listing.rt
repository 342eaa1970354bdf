//! From hex to the listing of a program.
ghost use Rattle.std.specs.Prelude.{IfOk};
ghost use Rattle.std.specs.String.{string_bytes};
ghost use Rattle.bq_policy_file.specs.Dis.{DisWrites};

use crate::Answer;
use crate::hex_text::bytes_of;
use bq_asm::listing;
use bq_insn::decode::decode;
use bq_insn::fault::DecodeFault;
use std::alloc::{AllocError, Global};

/// The listing of the program whose bytes the hex text spells; else why it is refused. Blanks and line ends in the text
/// are dropped.
pub fn disassembled(alloc: Global, hex: &[u8]) -> Result<Answer, AllocError>
    ensures { IfOk result (λ a. DisWrites hex.now a.accepted (string_bytes a.text)) }
{
    let Some(bytes) = bytes_of(alloc, hex)? else {
        return Answer::refused(alloc, "hex");
    };
    match decode(alloc, bytes.as_slice()) {
        Ok(insns) => Ok(Answer::accepted(listing(alloc, insns.as_slice())?)),
        Err(DecodeFault::OutOfMemory) => Err(AllocError),
        Err(DecodeFault::At { slot, cause }) => {
            let fault = DecodeFault::At { slot, cause };
            let reason = format!(in alloc; "{fault}")?;
            Answer::refused(alloc, reason.as_str())
        }
    }
}
