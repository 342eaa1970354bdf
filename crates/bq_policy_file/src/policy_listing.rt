//! The text of a policy.
ghost use Rattle.std.specs.Prelude.{◌≡◌, IfOk, string_bytes, true};
ghost use Rattle.hex.specs.Hex.{encode_lower};
ghost use Rattle.bq_insn.specs.Spelling.{insn_bytes, is_insn, is_well_formed};
ghost use Rattle.bq_insn.specs.Laws.{AllFit, Fits};
ghost use Rattle.bq_policy_file.specs.ReadBack.{IsFileOf};
ghost use Rattle.bq_asm.specs.Text.{line_body};
ghost use Rattle.bq_policy_file.specs.Listed.{IsListed, noted_line, noted_text, program_text};

use crate::PolicySource;
use crate::policy_marks::marks;
use bq_asm::listing;
use bq_insn::Insn;
use bq_insn::encode::encode;
use std::alloc::{AllocError, Global};

/// The marks of a policy and its instructions, each with its slot and its bytes in a comment if that is asked for. Read
/// again, that text is the policy.
pub fn policy_text(
    alloc: Global,
    policy: &PolicySource,
    has_slots: bool,
) -> Result<String, AllocError>
    requires { AllFit policy.now.insns.items }
    ensures listed { IfOk result (λ text. IsListed policy.now has_slots (string_bytes text)) }
    ensures file { IfOk result (λ text. IsFileOf policy.now (string_bytes text)) }
{
    marked(alloc, policy, has_slots)
}

/// The marks and the listing.
fn marked(alloc: Global, policy: &PolicySource, has_slots: bool) -> Result<String, AllocError>
    requires { AllFit policy.now.insns.items }
    ensures { IfOk result (λ text. IsListed policy.now has_slots (string_bytes text)) }
{
    let marks = marks(alloc, policy)?;
    let lines = program_text(alloc, policy.insns.as_slice(), has_slots)?;
    format!(in alloc; "{marks}{lines}")
}

/// The listing, with slots and bytes if that is asked for.
fn program_text(alloc: Global, insns: &[Insn], has_slots: bool) -> Result<String, AllocError>
    requires whole { is_well_formed insns.now ≡ true }
    requires numbers { AllFit insns.now }
    ensures { IfOk result (λ text. string_bytes text ≡ program_text has_slots insns.now) }
{
    if has_slots {
        with_slots(alloc, insns)
    } else {
        listing(alloc, insns)
    }
}

/// The listing, beside each instruction its slot and its bytes in a comment.
fn with_slots(alloc: Global, insns: &[Insn]) -> Result<String, AllocError>
    requires whole { is_well_formed insns.now ≡ true }
    requires numbers { AllFit insns.now }
    ensures { IfOk result (λ text. string_bytes text ≡ noted_text 0 insns.now) }
{
    let mut text = String::new(alloc);
    let mut slot: usize = 0;
    for insn in insns {
        let line = noted_line(alloc, slot, *insn)?;
        text.push_str(line.as_str())?;
        slot += insn.slots();
    }
    Ok(text)
}

/// The line of an instruction, and beside it its slot and its bytes in a comment.
fn noted_line(alloc: Global, slot: usize, insn: Insn) -> Result<String, AllocError>
    requires whole { is_insn insn ≡ true }
    requires numbers { Fits insn }
    ensures { IfOk result (λ text. string_bytes text ≡ noted_line slot insn) }
{
    let stated = instruction_text(alloc, insn)?;
    let spelled = bytes_text(alloc, insn)?;
    format!(in alloc; "{stated:<32}; {slot:>4}  {spelled}\n")
}

/// The bytes of an instruction, in hex.
fn bytes_text(alloc: Global, insn: Insn) -> Result<String, AllocError>
    requires { is_insn insn ≡ true }
    ensures { IfOk result (λ text. string_bytes text ≡ encode_lower (insn_bytes insn)) }
{
    let mut bytes = Vec::new(alloc);
    encode(&[insn], &mut bytes)?;
    hex::encode(alloc, bytes.as_slice())
}

/// The canonical text of one instruction, without a line's end.
pub fn instruction_text(alloc: Global, insn: Insn) -> Result<String, AllocError>
    ensures { IfOk result (λ text. string_bytes text ≡ line_body insn) }
{
    let text = listing(alloc, &[insn])?;
    match text.as_str().strip_suffix('\n') {
        Some(line) => String::from_str(alloc, line),
        None => Ok(text),
    }
}
