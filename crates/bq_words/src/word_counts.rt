//! The words of a text that must have an exact number of them.
ghost use Rattle.std.specs.Prelude.{◌≡◌, ◌∷◌, [], ℕ, List, MatchOption};
ghost use Rattle.std.specs.Borrow.{Bor};
ghost use Rattle.std.specs.Option.{option_map};
ghost use Rattle.bq_words.specs.Words.{words, one_of, two_of, three_of, four_of};

use crate::words::next_word;

/// `Some` exactly when no word is left.
pub fn end_of_words(text: &[u8]) -> Option<()>
    ensures { MatchOption result ((w : _) × (ws : _) × (words text.now ≡ w ∷ ws)) (λ _. words text.now ≡ []) }
{
    match next_word(text) {
        None => Some(()),
        Some(_) => None,
    }
}

/// The word of a text that has exactly one.
pub fn only_word(text: &[u8]) -> Option<&[u8]>
    ensures { option_map (λ (w : Bor (List ℕ)). w.now) result ≡ one_of (words text.now) }
{
    match next_word(text) {
        Some((word, rest)) => end_of_words(rest).and(Some(word)),
        None => None,
    }
}

/// The two words of a text that has exactly two.
#[tactic(auto, using(crate::proofs::WordCountLemmas::two_by_one))]
pub fn two_words(text: &[u8]) -> Option<(&[u8], &[u8])>
    ensures { option_map (λ w. (w.0.now, w.1.now)) result ≡ two_of (words text.now) }
{
    match next_word(text) {
        Some((first, rest)) => Some(first).zip(only_word(rest)),
        None => None,
    }
}

/// The three words of a text that has exactly three.
#[tactic(auto, using(crate::proofs::WordCountLemmas::three_by_two))]
pub fn three_words(text: &[u8]) -> Option<(&[u8], &[u8], &[u8])>
    ensures { option_map (λ w. (w.0.now, w.1.now, w.2.now)) result ≡ three_of (words text.now) }
{
    let Some((first, rest)) = next_word(text) else {
        return None;
    };
    match two_words(rest) {
        Some((second, third)) => Some((first, second, third)),
        None => None,
    }
}

/// The four words of a text that has exactly four.
#[tactic(auto, using(crate::proofs::WordCountLemmas::four_by_three))]
pub fn four_words(text: &[u8]) -> Option<(&[u8], &[u8], &[u8], &[u8])>
    ensures { option_map (λ w. (w.0.now, w.1.now, w.2.now, w.3.now)) result ≡ four_of (words text.now) }
{
    let Some((first, rest)) = next_word(text) else {
        return None;
    };
    match three_words(rest) {
        Some((second, third, fourth)) => Some((first, second, third, fourth)),
        None => None,
    }
}
