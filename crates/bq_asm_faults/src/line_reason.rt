//! Why the assembler refuses a line.
ghost use Rattle.std.specs.Prelude.{◌≡◌, ◌==◌, ◌||◌};

use crate::forms::form_of;
use crate::number_reason::number_reason;
use crate::vocabulary::meant_word;
use bq_asm::{AssemblyCause, named};
use bq_console::Quoted;
use bq_insn::SLOTS;
use std::alloc::{AllocError, Global};

/// Says why the assembler refuses the line, for that cause.
pub(crate) fn line_reason(
    alloc: Global,
    line: &str,
    cause: AssemblyCause,
) -> Result<String, AllocError> {
    let shown = with_nul_shown(alloc, line)?;
    let line = shown.as_str();
    match cause {
        AssemblyCause::Word => word_reason(alloc, line),
        AssemblyCause::Number => number_reason(alloc, without_comment(line).trim()),
        AssemblyCause::LabelTwice => {
            let written = Quoted(without_comment(line).trim());
            format!(in alloc;
                "the label \"{written}\" was set before; one of them wants another name"
            )
        }
        AssemblyCause::LabelMissing => {
            let written = Quoted(without_comment(line).trim());
            format!(in alloc;
                "\"{written}\" jumps to a label that is set nowhere; a label is set by a line of its own, as end:"
            )
        }
        AssemblyCause::Slots => format!(in alloc; "the program has more than {SLOTS} slots"),
    }
}

/// Writes the text with `\0` in place of each byte 0, as messages show it.
pub fn with_nul_shown(alloc: Global, text: &str) -> Result<String, AllocError> {
    let mut shown = String::new(alloc);
    let mut is_first = true;
    for part in text.split('\0') {
        if !is_first {
            shown.push_str("\\0")?;
        }
        is_first = false;
        shown.push_str(part)?;
    }
    Ok(shown)
}

/// Returns the line up to its first `;`, where a comment begins.
fn without_comment(line: &str) -> &str {
    match line.split_once(';') {
        Some((written, _)) => written,
        None => line,
    }
}

/// Says why the language does not have the words of a line.
fn word_reason(alloc: Global, line: &str) -> Result<String, AllocError> {
    let words = without_comment(line);
    let written = words.trim();
    if let Some(mark) = foreign_comment(written) {
        return format!(in alloc; "\"{mark}\" begins no comment here: a comment begins with ;");
    }
    if let Some(inside) = blank_in_brackets(written) {
        let inside = Quoted(inside);
        return format!(in alloc; "[{inside}]: no blank inside brackets");
    }
    let first = first_word(words);
    if first.ends_with(':') {
        return label_reason(alloc, written, first);
    }
    let Some(mnemonic) = named(first.as_bytes()) else {
        return unknown(alloc, first);
    };
    if let Some(register) = no_register(written) {
        let register = Quoted(register);
        return format!(in alloc; "there is no register {register}: the registers are r0 to r10");
    }
    let form = form_of(alloc, first, mnemonic)?;
    let written = Quoted(written);
    format!(in alloc; "\"{written}\" has other operands than {first} takes; write it as {form}")
}

/// Returns the first word of a line; empty if it has none.
pub(crate) fn first_word(written: &str) -> &str {
    for word in written.split(is_between) {
        if !word.is_empty() {
            return word;
        }
    }
    ""
}

/// Returns whether the letter separates words: a space, a tab or a comma.
pub(crate) fn is_between(letter: char) -> bool
    ensures { result ≡ (letter == 32 || letter == 9 || letter == 44) }
{
    letter == ' ' || letter == '\t' || letter == ','
}

/// Says why a line whose first word ends with a colon sets no label.
fn label_reason(alloc: Global, written: &str, first: &str) -> Result<String, AllocError> {
    let shown = Quoted(written);
    if written == first {
        return format!(in alloc;
            "\"{shown}\" is no label: a label is a letter or _, then up to 31 letters, digits or _, and a colon"
        );
    }
    format!(in alloc; "\"{shown}\" has words after its label: a label stands alone on its line")
}

/// Says that no instruction begins with a word, and which one may be meant.
fn unknown(alloc: Global, word: &str) -> Result<String, AllocError> {
    let known = meant_word(alloc, word)?;
    let word = Quoted(word);
    match known {
        Some(known) => format!(in alloc; "unknown word \"{word}\", did you mean \"{known}\"?"),
        None => format!(in alloc;
            "unknown word \"{word}\"; docs/ASSEMBLER.md has those that there are"
        ),
    }
}

/// Returns the first word of the line that names a register which does not exist: `r` and a number above 10.
fn no_register(written: &str) -> Option<&str> {
    for word in written.split(is_outside) {
        if let Some(digits) = word.strip_prefix('r') {
            let is_number = !digits.is_empty() && digits.bytes().all(|byte| byte.is_ascii_digit());
            if is_number && !is_register(digits) {
                return Some(word);
            }
        }
    }
    None
}

/// Returns whether these digits are a register's number.
fn is_register(digits: &str) -> bool {
    digits == "10" || digits.len() == 1
}

/// Returns whether the letter separates words; brackets and the signs of an offset do so too.
fn is_outside(letter: char) -> bool {
    is_between(letter) || letter == '[' || letter == ']' || letter == '+' || letter == '-'
}

/// Returns the mark by which another language begins a comment, if the line has one.
fn foreign_comment(written: &str) -> Option<&'static str> {
    if written.contains("//") {
        return Some("//");
    }
    if written.contains("#") {
        return Some("#");
    }
    None
}

/// Returns the text in brackets, if it has a blank.
fn blank_in_brackets(written: &str) -> Option<&str> {
    let (_, rest) = written.split_once('[')?;
    let (inside, _) = rest.split_once(']')?;
    if inside.contains(" ") || inside.contains("\t") {
        return Some(inside);
    }
    None
}
