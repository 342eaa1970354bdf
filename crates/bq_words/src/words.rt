//! The words of a line.
ghost use Rattle.std.specs.Prelude.{◌≡◌, ◌∷◌, [], MatchOption};
ghost use Rattle.bq_words.specs.Words.{words, words_by, StartsWithWord, IsWordLen};

use crate::blanks::{Blank, Spaces};

/// The first word between spaces and tabs, and what follows the word. `None` if no word is left.
pub fn next_word(text: &[u8]) -> Option<(&[u8], &[u8])>
    ensures { MatchOption result (words text.now ≡ []) (λ p. words text.now ≡ p.0.now ∷ words p.1.now) }
{
    next_word_by::<Spaces>(text)
}

/// The first word between blanks of this kind, and what follows the word. `None` if no word is left.
pub fn next_word_by<B: Blank>(text: &[u8]) -> Option<(&[u8], &[u8])>
    ensures { MatchOption result (words_by B.is_blank text.now ≡ []) (λ p. words_by B.is_blank text.now ≡ p.0.now ∷ words_by B.is_blank p.1.now) }
{
    let text = without_blanks::<B>(text);
    let len = word_len::<B>(text);
    if len == 0 {
        return None;
    }
    Some((&text[..len], &text[len..]))
}

fn without_blanks<B: Blank>(text: &[u8]) -> &[u8]
    ensures same { words_by B.is_blank result.now ≡ words_by B.is_blank text.now }
    ensures word { StartsWithWord B.is_blank result.now }
{
    let mut rest = text;
    while let [first, more @ ..] = rest {
        if !B::is_blank(*first) {
            return rest;
        }
        rest = more;
    }
    rest
}

fn word_len<B: Blank>(text: &[u8]) -> usize
    ensures { IsWordLen B.is_blank text.now result }
{
    match text.iter().position(|b| B::is_blank(*b)) {
        Some(at) => at,
        None => text.len(),
    }
}
