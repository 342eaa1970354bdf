//! The first words of the assembler's language, and the one that a wrong word may mean.
use bq_asm::mnemonics;
use bq_words::nearest;
use std::alloc::{AllocError, Global};

/// Words of other assemblers that are far from the one that they mean here.
const FOREIGN: [(&str, &str); 15] = [
    ("b", "ja"),
    ("beq", "jeq64"),
    ("bne", "jne64"),
    ("bgt", "jgt64"),
    ("bge", "jge64"),
    ("blt", "jlt64"),
    ("ble", "jle64"),
    ("goto", "ja"),
    ("jmp", "ja"),
    ("jz", "jeq64"),
    ("jnz", "jne64"),
    ("ld", "ldxdw"),
    ("ldr", "ldxdw"),
    ("ret", "exit"),
    ("return", "exit"),
];

/// Finds the word of the language that equals this one, if there is one.
fn known_as(word: &str) -> Option<&'static str> {
    for (known, _) in mnemonics() {
        if *known == word {
            return Some(known);
        }
    }
    None
}

/// Returns what a word of another assembler means here.
fn meant_by(word: &str) -> Option<&'static str> {
    for (foreign, known) in &FOREIGN {
        if *foreign == word {
            return Some(known);
        }
    }
    None
}

/// Finds the known word that is meant, whatever its case: the word with its width if only the width is left out, the word that
/// means here what a word of another assembler means, or otherwise the nearest, if one is near.
pub(crate) fn meant_word(alloc: Global, word: &str) -> Result<Option<&'static str>, AllocError> {
    let word = word.to_ascii_lowercase(alloc)?;
    let with_width = format!(in alloc; "{word}64")?;
    if let Some(known) = known_as(with_width.as_str()) {
        return Ok(Some(known));
    }
    match meant_by(word.as_str()) {
        Some(known) => Ok(Some(known)),
        None => nearest(
            alloc,
            word.as_str(),
            mnemonics().iter().map(|(known, _)| *known),
        ),
    }
}
