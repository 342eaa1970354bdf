//! The words of a line, and which words are names of labels.
ghost use Rattle.std.specs.Prelude.{◌≡◌, ◌<◌, length, position, MatchOption};
ghost use Rattle.std.specs.List.{list_all, before_first};
ghost use Rattle.bq_asm.specs.Lines.{is_comment, is_blank, words_between_blanks};
ghost use Rattle.bq_asm.specs.Operands.{is_letter, is_label_byte, is_label, word_texts};

use arrayvec::ArrayVec;
use bq_words::{Blank, next_word_by};

/// The most words of a line that says something: a first word and three operands.
const WORDS: usize = 4;

/// Spaces, tabs and commas separate words.
struct Separators;

impl Blank for Separators {
    ghost is_blank = { is_blank };

    /// Tells whether the byte is a space, a tab or a comma.
    fn is_blank(byte: u8) -> bool {
        byte == b' ' || byte == b'\t' || byte == b','
    }
}

/// Returns the line up to its comment, which a `;` begins.
pub fn without_comment(line: &[u8]) -> &[u8]
    ensures { result.now ≡ before_first is_comment line.now }
{
    match comment_at(line) {
        Some(at) => &line[..at],
        None => line,
    }
}

/// Returns the place of the first `;`, if there is one.
fn comment_at(line: &[u8]) -> Option<usize>
    ensures { result ≡ position is_comment line.now }
{
    line.iter().position(|b| is_comment(*b))
}

/// Returns the words of a text without comments, or `None` if there are more than four.
pub fn words(text: &[u8]) -> Option<ArrayVec<&[u8], WORDS>>
    ensures { MatchOption result (WORDS < length (words_between_blanks text.now)) (λ found. word_texts found.items ≡ words_between_blanks text.now) }
{
    let mut found = ArrayVec::new();
    let mut rest = text;
    while let Some((word, more)) = next_word_by::<Separators>(rest) {
        if found.is_full() {
            return None;
        }
        found.push(word);
        rest = more;
    }
    Some(found)
}

/// Tells whether the byte begins a comment.
fn is_comment(byte: u8) -> bool
    ensures { result ≡ is_comment byte }
{
    byte == b';'
}

/// Tells whether the byte is a letter or `_`, which may begin a label.
fn is_letter(byte: u8) -> bool
    ensures { result ≡ is_letter byte }
{
    (byte >= b'A' && byte <= b'Z') || (byte >= b'a' && byte <= b'z') || byte == b'_'
}

/// Tells whether the byte is a letter, a digit or `_`.
fn is_label_byte(byte: u8) -> bool
    ensures { result ≡ is_label_byte byte }
{
    is_letter(byte) || (byte >= b'0' && byte <= b'9')
}

/// Tells whether each byte of the word is a letter, a digit or `_`.
fn are_label_bytes(word: &[u8]) -> bool
    ensures { result ≡ list_all is_label_byte word.now }
{
    word.iter().all(|b| is_label_byte(*b))
}

/// Tells whether a word is the name of a label: a letter or `_`, then up to 31 letters, digits or `_`.
pub fn is_label(word: &[u8]) -> bool
    ensures { result ≡ is_label word.now }
{
    word.len() >= 1 && word.len() <= 32 && is_letter(word[0]) && are_label_bytes(word)
}
