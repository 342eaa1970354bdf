//! Sets of processors, as bits: bit k is processor k.
ghost use Rattle.std.specs.Prelude.{◌≡◌, ◌<◌, ◌≤◌, ◌+◌, ◌-◌, ◌^◌, ◌==◌, [], ◌∷◌, IfNone, IfSome, bit_or, length, option_and_then, option_map, position};
ghost use Rattle.std.specs.List.{slice_split};
ghost use Rattle.bq_words.specs.ProcessorSets.{processors_of, is_comma, range_bits, span_of, span_at, processor_below};

use crate::{ProcessorCount, quantities};

/// The processors that a word names: numbers and ranges with commas between them, as `0-3,5`. Each is below 64.
///
/// `None` if a part is neither a number nor a range, or if a range runs backwards.
pub fn processors(word: &[u8]) -> Option<u64>
    ensures { result ≡ processors_of word.now }
{
    let mut mask: u64 = 0;
    let mut rest = word;
    'parts: loop {
        match first_part(rest) {
            Some((part, more)) => {
                mask = with_span(mask, part)?;
                rest = more;
            }
            None => return with_span(mask, rest),
        }
    }
}

/// The bits of `mask`, and those of a number or a range. `None` if `part` is neither.
fn with_span(mask: u64, part: &[u8]) -> Option<u64>
    ensures { result ≡ option_map (bit_or mask) (span_of part.now) }
{
    match span(part) {
        Some(bits) => Some(mask | bits),
        None => None,
    }
}

/// The part before the first comma, and what follows the comma. `None` if there is no comma.
pub fn first_part(word: &[u8]) -> Option<(&[u8], &[u8])>
    ensures some { IfSome result (λ p. slice_split is_comma word.now ≡ p.0.now ∷ slice_split is_comma p.1.now) }
    ensures less { IfSome result (λ p. length p.1.now < length word.now) }
    ensures none { IfNone result (slice_split is_comma word.now ≡ word.now ∷ []) }
{
    match place_of(b',', word) {
        Some(end) => Some((&word[..end], &word[end + 1..])),
        None => None,
    }
}

/// Where this byte is first, if `bytes` has it.
fn place_of(byte: u8, bytes: &[u8]) -> Option<usize>
    ensures value { result ≡ position (λ b. b == byte) bytes.now }
    ensures within { IfSome result (λ at. at < length bytes.now) }
{
    bytes.iter().position(|b| *b == byte)
}

/// The bits of a number, or of a range.
fn span(part: &[u8]) -> Option<u64>
    ensures { result ≡ span_of part.now }
{
    span_at(part, place_of(b'-', part))
}

/// The bits of a number, or of a range if there is a dash. `dash` is where the dash is.
fn span_at(part: &[u8], dash: Option<usize>) -> Option<u64>
    requires { IfSome dash (λ at. at < length part.now) }
    ensures { result ≡ span_at part.now dash }
{
    match dash {
        Some(dash) => range(&part[..dash], &part[dash + 1..]),
        None => one_bit(part),
    }
}

/// The bit of one processor.
fn one_bit(word: &[u8]) -> Option<u64>
    ensures { result ≡ option_and_then (λ only. range_bits only only) (processor_below word.now) }
{
    match processor(word) {
        Some(only) => Some(bits(only, only)),
        None => None,
    }
}

/// The bits of a range from one word to another. `None` if a word is no processor, or if the range runs backwards.
fn range(first: &[u8], last: &[u8]) -> Option<u64>
    ensures { result ≡ option_and_then (λ f. option_and_then (range_bits f) (processor_below last.now)) (processor_below first.now) }
{
    match processor(first).zip(processor(last)) {
        Some((first, last)) if first <= last => Some(bits(first, last)),
        _ => None,
    }
}

/// The bits from the first processor to the last.
pub fn bits(first: u8, last: u8) -> u64
    requires order { first ≤ last }
    requires few { last < 64 }
    ensures { result ≡ 2 ^ (last + 1) - 2 ^ first }
{
    ((1u128 << (last + 1)) - (1u128 << first)) as u64
}

/// The processor's number that a word writes, if it is below 64.
fn processor(word: &[u8]) -> Option<u8>
    ensures { result ≡ processor_below word.now }
{
    match quantities::processor(word) {
        Some(number) if number < ProcessorCount::SixtyFour.processors() => Some(number),
        _ => None,
    }
}
