//! The operand that a word writes, by the kind of operand that its place wants.
ghost use Rattle.std.specs.Prelude.{◌≡◌, option_map, position, Some, pos};
ghost use Rattle.bq_asm.specs.Operands.{number_place, is_sign, inside, based, operand_of};

use crate::fault::AssemblyCause;
use crate::line::is_label;
use crate::number::{begins_number, distance_of, imm_of, offset_of, register_of, wide_of};
use crate::operand::Operand;

/// The kind of operand that a place wants.
#[derive(Clone, Copy)]
pub enum OperandKind {
    /// A register.
    Register,
    /// A register, or a number of 32 bits.
    Source,
    /// A number of 32 bits.
    Number,
    /// A number of 64 bits without a sign.
    Wide,
    /// A register in brackets, and an offset of 16 bits.
    Memory,
    /// A distance of 16 bits, or a label.
    Near,
    /// A distance of 32 bits, or a label.
    Far,
}

/// Returns the operand of this kind that a word writes, or the cause why it writes none. Until all labels are known, a
/// label stands for the distance 0.
pub fn operand_of(kind: OperandKind, word: &[u8]) -> Result<Operand, AssemblyCause>
    ensures { result ≡ operand_of kind word.now (Some (pos 0)) }
{
    match kind {
        OperandKind::Register => register_place(word),
        OperandKind::Source => source_place(word),
        OperandKind::Number => number_place(imm_of(word).map(Operand::Number), word),
        OperandKind::Wide => number_place(wide_of(word).map(Operand::Wide), word),
        OperandKind::Memory => memory_place(word),
        OperandKind::Near => {
            if is_label(word) {
                return Ok(Operand::Near(0));
            }
            number_place(offset_of(word).map(Operand::Near), word)
        }
        OperandKind::Far => {
            if is_label(word) {
                return Ok(Operand::Far(0));
            }
            number_place(distance_of(word).map(Operand::Far), word)
        }
    }
}

/// Returns the operand, or the cause why the word in the place of a number has none: A2 if it begins like a number, else A1.
fn number_place(value: Option<Operand>, word: &[u8]) -> Result<Operand, AssemblyCause>
    ensures { result ≡ number_place value word.now }
{
    match value {
        Some(operand) => Ok(operand),
        None => {
            if begins_number(word) {
                return Err(AssemblyCause::Number);
            }
            Err(AssemblyCause::Word)
        }
    }
}

/// Returns the register that a word names, or the cause A1.
fn register_place(word: &[u8]) -> Result<Operand, AssemblyCause>
    ensures { result ≡ operand_of OperandKind.Register word.now (Some (pos 0)) }
{
    match register_of(word) {
        Some(register) => Ok(Operand::Register(register)),
        None => Err(AssemblyCause::Word),
    }
}

/// Returns the register that a word names or the number that it writes, or the cause why it does neither.
fn source_place(word: &[u8]) -> Result<Operand, AssemblyCause>
    ensures { result ≡ operand_of OperandKind.Source word.now (Some (pos 0)) }
{
    match register_of(word) {
        Some(register) => Ok(Operand::Register(register)),
        None => number_place(imm_of(word).map(Operand::Number), word),
    }
}

/// Returns the place in memory that a word writes, such as `[r1+8]`, or the cause why it writes none.
fn memory_place(word: &[u8]) -> Result<Operand, AssemblyCause>
    ensures { result ≡ operand_of OperandKind.Memory word.now (Some (pos 0)) }
{
    let Some(inner) = inside(word) else {
        return Err(AssemblyCause::Word);
    };
    match first_sign(inner) {
        None => based(register_of(inner), b"".as_slice()),
        Some(at) => based(register_of(&inner[..at]), &inner[at..]),
    }
}

/// Returns what stands between the brackets of a word; `None` if the word has no `[` at its start or no `]` at its end.
fn inside(word: &[u8]) -> Option<&[u8]>
    ensures { option_map (λ w. w.now) result ≡ inside word.now }
{
    if word.len() >= 2 && word[0] == b'[' && word[word.len() - 1] == b']' {
        return Some(&word[1..word.len() - 1]);
    }
    None
}

/// Returns the place of the first `+` or `-`, if there is one.
fn first_sign(inner: &[u8]) -> Option<usize>
    ensures { result ≡ position is_sign inner.now }
{
    inner.iter().position(|b| is_sign(*b))
}

/// Tells whether the byte is `+` or `-`.
fn is_sign(byte: u8) -> bool
    ensures { result ≡ is_sign byte }
{
    byte == b'+' || byte == b'-'
}

/// Returns the place in memory at an offset from a register; if there is no offset, the place is at the register.
fn based(register: Option<u8>, rest: &[u8]) -> Result<Operand, AssemblyCause>
    ensures { result ≡ based register rest.now }
{
    let Some(base) = register else {
        return Err(AssemblyCause::Word);
    };
    if rest.is_empty() {
        return Ok(Operand::Memory { base, offset: 0 });
    }
    match offset_of(rest) {
        Some(offset) => Ok(Operand::Memory { base, offset }),
        None => number_place(None, rest),
    }
}
