//! Which lines of a text say an instruction.
ghost use Rattle.std.specs.Prelude.{◌≡◌};
ghost use Rattle.bq_asm.specs.Lines.{is_instruction, line_of_words, parsed_line};
ghost use Rattle.bq_asm.specs.Operands.{word_texts};

use crate::draft::label_set;
use crate::line::{without_comment, words};

/// Tells whether the line says an instruction, right or faulty: it has words and sets no label.
pub fn is_instruction_line(line: &[u8]) -> bool
    ensures { result ≡ is_instruction (parsed_line line.now) }
{
    match words(without_comment(line)) {
        // a line of more than four words sets no label
        None => true,
        Some(words) => has_instruction(words.as_slice()),
    }
}

/// Tells whether these words of a line say an instruction: there is at least one word, and the line sets no label.
fn has_instruction(words: &[&[u8]]) -> bool
    ensures { result ≡ is_instruction (line_of_words (word_texts words.now)) }
{
    match words {
        [] => false,
        [first, operands @ ..] => label_set(first, operands).is_none(),
    }
}
