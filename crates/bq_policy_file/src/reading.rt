//! From the bytes of a file to its policy.
ghost use Rattle.std.specs.Prelude.{◌≡◌, IfOk, IfErr};
ghost use Rattle.std.specs.Str.Lines.{lines};
ghost use Rattle.bq_insn.specs.Laws.{AllFit};
ghost use Rattle.bq_policy_file.specs.Files.{IsImageFault, IsOfImage, IsOfText, IsPolicy, IsPolicyFault, IsTextFault, instruction_lines};
ghost use Rattle.bq_policy_file.specs.Heads.{IsHeadFault, StatesHead};

use crate::bytes_of;
use crate::combined::{combine, difference};
use crate::fault::{HeadFault, PolicyFault};
use crate::head::Head;
use crate::kind::{FileKind, kind_of};
use crate::policy_source::PolicySource;
use bq_asm::{assemble, is_instruction_line};
use bq_insn::decode::decode;
use bq_load::{Image, read_image};
use std::alloc::{AllocError, Global};

/// The policy that a file holds: an image, the hex of one, or an assembler text whose marks say what it is. What is
/// given beside the file must agree with it, and says of a text what the marks leave out.
pub fn read_policy(alloc: Global, bytes: &[u8], given: &Head) -> Result<PolicySource, PolicyFault>
    ensures policy { IfOk result (IsPolicy bytes.now given.now) }
    ensures numbers { IfOk result (λ p. AllFit p.insns.items) }
    ensures fault { IfErr result (IsPolicyFault bytes.now given.now) }
{
    match kind_of(bytes) {
        FileKind::Image => from_image(alloc, bytes, given),
        FileKind::Hex => match bytes_of(alloc, bytes)? {
            None => Err(PolicyFault::Hex),
            Some(image) => from_image(alloc, image.as_slice(), given),
        },
        FileKind::Text => from_text(alloc, bytes, given),
    }
}

/// The policy of an image.
fn from_image(alloc: Global, bytes: &[u8], given: &Head) -> Result<PolicySource, PolicyFault>
    ensures policy { IfOk result (IsOfImage bytes.now given.now) }
    ensures numbers { IfOk result (λ p. AllFit p.insns.items) }
    ensures fault { IfErr result (IsImageFault bytes.now given.now) }
{
    let Image { form, program } = read_image(alloc, bytes)?;
    let insns = decode(alloc, program.as_slice())?;
    let maps = Some(form.shapes.as_slice());
    if let Some(key) = difference(given, Some(form.hook), maps, Some(form.version)) {
        return Err(PolicyFault::Disagrees(key));
    }
    Ok(PolicySource {
        form,
        insns,
        lines: Vec::new(alloc),
    })
}

/// The policy of an assembler text.
fn from_text(alloc: Global, bytes: &[u8], given: &Head) -> Result<PolicySource, PolicyFault>
    ensures policy { IfOk result (IsOfText bytes.now given.now) }
    ensures numbers { IfOk result (λ p. AllFit p.insns.items) }
    ensures fault { IfErr result (IsTextFault bytes.now given.now) }
{
    match std::str::from_utf8(bytes) {
        Ok(text) => from_str(alloc, text, given),
        Err(_) => Err(PolicyFault::Text),
    }
}

/// The policy of an assembler text whose bytes are UTF-8.
fn from_str(alloc: Global, text: &str, given: &Head) -> Result<PolicySource, PolicyFault>
    ensures policy { IfOk result (IsOfText text.now given.now) }
    ensures numbers { IfOk result (λ p. AllFit p.insns.items) }
    ensures fault { IfErr result (IsTextFault text.now given.now) }
{
    let stated = read_head(alloc, text)?;
    let insns = assemble(alloc, text)?;
    let lines = lines_of(alloc, text)?;
    match combine(alloc, given, &stated) {
        Ok(form) => Ok(PolicySource { form, insns, lines }),
        Err(fault) => Err(fault),
    }
}

/// The numbers of the lines that say an instruction.
fn lines_of(alloc: Global, text: &str) -> Result<Vec<usize>, AllocError>
    ensures { IfOk result (λ numbers. numbers.items ≡ instruction_lines 1 (lines text.now)) }
{
    let mut numbers = Vec::new(alloc);
    let mut number: usize = 0;
    for line in text.lines() {
        number += 1;
        if is_instruction_line(line.as_bytes()) {
            numbers.push(number)?;
        }
    }
    Ok(numbers)
}

/// The head that the marks of a text say, or the first line that is refused.
pub fn read_head(alloc: Global, text: &str) -> Result<Head, HeadFault>
    ensures head { IfOk result (StatesHead (lines text.now)) }
    ensures fault { IfErr result (IsHeadFault (lines text.now)) }
{
    let mut head = Head::nothing();
    let mut number: usize = 0;
    for line in text.lines() {
        number += 1;
        head.take_line(alloc, number, line.as_bytes())?;
    }
    Ok(head)
}
