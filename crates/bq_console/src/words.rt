//! How words of a command are read: as two parts around a mark, and as numbers.
ghost use Rattle.std.specs.Prelude.{ℕ, ◌<◌, ◌^◌, IfNone, IfSome, MatchOption};
ghost use Rattle.bq_console.specs.Words.{IsSplitAtMark, IsFreeOf, IsNumber, IsNumberWord};

/// The two parts around the first such mark, if the text has one.
pub fn cut(text: &str, mark: char) -> Option<(&str, &str)>
    requires { mark < 128 }
    ensures { MatchOption result (IsFreeOf mark text.now) (λ parts. IsSplitAtMark mark text.now parts.0.now parts.1.now) }
{
    text.split_once(mark)
}

/// A number in decimal.
pub fn decimal(word: &str) -> Option<usize>
    ensures some { IfSome result (IsNumber word.now) }
    ensures none { IfNone result ((number : ℕ) → number < 2 ^ 64 → ¬ IsNumber word.now number) }
{
    let number = bq_words::number(word.as_bytes(), 10)?;
    usize::try_from(number).ok()
}

/// A number in decimal, or in hex after `0x`.
pub fn value(word: &str) -> Option<u64>
    ensures some { IfSome result (IsNumberWord word.now) }
    ensures none { IfNone result ((number : ℕ) → number < 2 ^ 64 → ¬ IsNumberWord word.now number) }
{
    bq_words::value(word.as_bytes())
}
