//! What words write for tasks, processors, masks and nice values: each number has to fit its type.
ghost use Rattle.std.specs.Prelude.{◌≡◌};
ghost use Rattle.bq_words.specs.Quantities.{size_in_word, decimal_of, processor_in_word, task_in_word, mask_in_word, nice_in_word};

use crate::{ProcessorCount, number, value, with_sizes};

/// A generation, a slice or a clock reading: decimal, below 2^64.
pub fn decimal(word: &[u8]) -> Option<u64>
    ensures { result ≡ decimal_of word.now }
{
    number(word, 10)
}

/// A processor or a counter: decimal, below 2^8.
pub fn processor(word: &[u8]) -> Option<u8>
    ensures { result ≡ processor_in_word word.now }
{
    u8::try_from(decimal(word)?).ok()
}

/// What a message says of a word that `size` does not take.
pub const NO_SIZE: &str = with_sizes!("is no number of processors (", ")");

/// How many processors a machine has: decimal, one of 1, 2, 4, 8, 16, 32 and 64.
pub fn size(word: &[u8]) -> Option<ProcessorCount>
    ensures { result ≡ size_in_word word.now }
{
    ProcessorCount::of_number(processor(word)?)
}

/// `before`, the range of a task's number, and `behind` as one text.
#[macro_export]
macro_rules! with_tasks {
    ($before:literal, $behind:literal) => {
        concat!($before, "0 to 65535", $behind)
    };
}

/// A task: decimal, below 2^16.
pub fn task(word: &[u8]) -> Option<u16>
    ensures { result ≡ task_in_word word.now }
{
    u16::try_from(decimal(word)?).ok()
}

/// A mask: decimal, or hex digits after `0x`, below 2^64.
pub fn mask(word: &[u8]) -> Option<u64>
    ensures { result ≡ mask_in_word word.now }
{
    value(word)
}

/// A nice value: decimal, from -128 to 127.
pub fn nice(word: &[u8]) -> Option<i8>
    ensures { result ≡ nice_in_word word.now }
{
    match word.strip_prefix(b"-") {
        Some(digits) => {
            let size = decimal(digits)?;
            if size > 128 {
                return None;
            }
            Some((-(size as i64)) as i8)
        }
        None => i8::try_from(decimal(word)?).ok(),
    }
}
