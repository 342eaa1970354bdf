//! Why the assembler refuses a number.
use crate::line_reason::{first_word, is_between};
use bq_asm::{Mnemonic, named};
use bq_console::Quoted;
use bq_words::{duration, value};
use std::alloc::{AllocError, Global};

/// Says why the assembler refuses a number of the line, which begins with the word of an instruction.
pub(crate) fn number_reason(alloc: Global, written: &str) -> Result<String, AllocError> {
    let first = first_word(written);
    let mut place: usize = 0;
    for word in written.split(is_between) {
        if word.is_empty() {
            continue;
        }
        if let Some(slip) = slip_at(first, place, word) {
            return slip_text(alloc, first, word, slip);
        }
        place = place.saturating_add(1);
    }
    let written = Quoted(written);
    format!(in alloc;
        "a number in \"{written}\" is out of its range: numbers of instructions have 32 bits, those of lddw 64, offsets in brackets 16"
    )
}

/// What a number of an instruction is.
#[derive(Clone, Copy)]
enum NumberKind {
    /// What an instruction works on, of 32 bits.
    Immediate,
    /// A helper or a map, of 32 bits.
    Named,
    /// What lddw loads, of 64 bits.
    Wide,
    /// A jump's distance of 16 bits.
    Near,
    /// A jump's distance of 32 bits.
    Far,
}

/// Returns what the operand of that place is, counted from 1, if it is a number.
fn kind_of(mnemonic: Mnemonic, place: usize) -> NumberKind {
    match mnemonic {
        Mnemonic::Imm64 => NumberKind::Wide,
        Mnemonic::Goto => NumberKind::Near,
        Mnemonic::Goto32 => NumberKind::Far,
        Mnemonic::Branch(_, _) if place == 3 => NumberKind::Near,
        Mnemonic::Call | Mnemonic::MapRef => NumberKind::Named,
        _ => NumberKind::Immediate,
    }
}

/// What is wrong with a number.
#[derive(Clone, Copy)]
enum Slip {
    /// The number is written with a unit, and has this many nanoseconds.
    Time(u64),
    /// The number is written with a unit, and has this many nanoseconds, which do not fit 32 bits.
    LongTime(u64),
    /// The word is no number, or does not fit 64 bits.
    NoNumber,
    /// The number does not fit 32 bits.
    Long,
    /// The number does not fit 32 bits, and is the number that means no task or processor in contexts and answers.
    Nobody,
    /// The number is below 0 and does not fit 32 bits; in 64 bits it is this word.
    LongBelowZero(u64),
    /// The number is that of a helper or a map, and does not fit 32 bits.
    NoName,
    /// The number has a `+`, which is not taken here.
    Plus,
    /// The number is a distance without a sign.
    NoSign,
    /// The number is a distance that does not fit 16 bits.
    TooFar,
    /// The number is a distance that does not fit 32 bits.
    MuchTooFar,
    /// The word is an offset in brackets that is no offset, or does not fit 16 bits.
    Offset,
    /// The number has a sign, which is not taken here.
    Signed,
}

/// Finds what is wrong with the word at that place of an instruction; `None` if it writes no number, or nothing is wrong with it.
fn slip_at(first: &str, place: usize, word: &str) -> Option<Slip> {
    let mnemonic = named(first.as_bytes())?;
    if place == 0 {
        return None;
    }
    if word.starts_with('[') {
        return offset_slip(word.as_bytes());
    }
    if !begins_number(word.as_bytes()) {
        return None;
    }
    let kind = kind_of(mnemonic, place);
    match value(digits_of(word).as_bytes()) {
        Some(size) => size_slip(kind, word, size),
        None => Some(no_number(kind, word)),
    }
}

/// Finds what is wrong with a word that begins as a number does, and is not one.
fn no_number(kind: NumberKind, word: &str) -> Slip {
    let Some(time) = duration(word.as_bytes()) else {
        return Slip::NoNumber;
    };
    if matches!(kind, NumberKind::Wide) || fits(time, false, 0x8000_0000) {
        Slip::Time(time)
    } else {
        Slip::LongTime(time)
    }
}

/// Finds what is wrong with a number of that size, its sign aside, if something is.
fn size_slip(kind: NumberKind, word: &str, size: u64) -> Option<Slip> {
    let is_negative = word.starts_with('-');
    let is_signed = is_negative || word.starts_with('+');
    match kind {
        NumberKind::Wide if is_signed => Some(Slip::Signed),
        NumberKind::Wide => None,
        NumberKind::Near | NumberKind::Far if !is_signed => Some(Slip::NoSign),
        NumberKind::Near if fits(size, is_negative, 0x8000) => None,
        NumberKind::Near => Some(Slip::TooFar),
        NumberKind::Far if fits(size, is_negative, 0x8000_0000) => None,
        NumberKind::Far => Some(Slip::MuchTooFar),
        NumberKind::Immediate | NumberKind::Named => {
            if is_signed && !is_negative {
                return Some(Slip::Plus);
            }
            if fits(size, is_negative, 0x8000_0000) {
                return None;
            }
            Some(long_slip(kind, is_negative, size))
        }
    }
}

/// Finds what is wrong with a number of that size that does not fit 32 bits.
fn long_slip(kind: NumberKind, is_negative: bool, size: u64) -> Slip {
    if matches!(kind, NumberKind::Named) {
        return Slip::NoName;
    }
    if !is_negative {
        return if size == 0xffff_ffff {
            Slip::Nobody
        } else {
            Slip::Long
        };
    }
    if size > 0x8000_0000_0000_0000 {
        return Slip::NoNumber;
    }
    Slip::LongBelowZero(size.wrapping_neg())
}

/// Returns whether a number of that size and sign is at least minus the bound, and below the bound.
fn fits(size: u64, is_negative: bool, bound: u64) -> bool {
    size < bound || (is_negative && size == bound)
}

/// Finds what is wrong with the offset in brackets, if something is.
fn offset_slip(word: &[u8]) -> Option<Slip> {
    let inside = word.strip_prefix(b"[")?.strip_suffix(b"]")?;
    let at = inside
        .iter()
        .position(|byte| *byte == b'+' || *byte == b'-')?;
    let [sign, digits @ ..] = &inside[at..] else {
        return None;
    };
    match value(digits) {
        Some(size) if fits(size, *sign == b'-', 0x8000) => None,
        _ => Some(Slip::Offset),
    }
}

/// Returns whether a word begins as a number does: with a digit or a sign.
fn begins_number(word: &[u8]) -> bool {
    match word {
        [first, ..] => first.is_ascii_digit() || *first == b'-' || *first == b'+',
        [] => false,
    }
}

/// Returns the digits of a number, without its sign, if it has one.
fn digits_of(word: &str) -> &str {
    match word.strip_prefix('-') {
        Some(digits) => digits,
        None => word.strip_prefix('+').unwrap_or(word),
    }
}

/// Says what is wrong with a number, in words.
fn slip_text(alloc: Global, first: &str, word: &str, slip: Slip) -> Result<String, AllocError> {
    let shown = Quoted(word);
    match slip {
        Slip::Time(time) => format!(in alloc;
            "\"{shown}\" is not a number; write a time in nanoseconds: {time}"
        ),
        Slip::LongTime(time) => format!(in alloc;
            "\"{shown}\" is not a number; write a time in nanoseconds, and load one that long by lddw, as in lddw r0, {time}"
        ),
        Slip::NoNumber => format!(in alloc;
            "\"{shown}\" is not a number of up to 64 bits; numbers are decimal, as 100, or hex, as 0x64"
        ),
        Slip::Plus => {
            let digits = Quoted(digits_of(word));
            format!(in alloc;
                "{shown} has a +, which only an offset in brackets and a jump's distance have; write {digits}"
            )
        }
        Slip::Offset => format!(in alloc;
            "the offset in {shown} is not a number from -32768 to +32767"
        ),
        Slip::Signed => String::from_str(
            alloc,
            "lddw takes 0 to 18446744073709551615, without a sign; -1 is 0xffffffffffffffff",
        ),
        Slip::NoSign | Slip::TooFar | Slip::MuchTooFar => distance_text(alloc, first, word, slip),
        _ => long_text(alloc, first, word, slip),
    }
}

/// Says what is wrong with a jump's distance, in words.
fn distance_text(alloc: Global, first: &str, word: &str, slip: Slip) -> Result<String, AllocError> {
    let word = Quoted(word);
    match slip {
        Slip::NoSign => format!(in alloc;
            "{first} goes to a label, as end, or over a distance with its sign, as +{word}"
        ),
        Slip::MuchTooFar => format!(in alloc;
            "{word} does not fit the 32 bits of the distance of {first} (-2147483648 to +2147483647); jump to a label"
        ),
        _ => format!(in alloc;
            "{word} does not fit the 16 bits of a jump's distance (-32768 to +32767); jump to a label"
        ),
    }
}

/// Says what is wrong with a number that does not fit 32 bits, in words.
fn long_text(alloc: Global, first: &str, word: &str, slip: Slip) -> Result<String, AllocError> {
    let word = Quoted(word);
    let beyond = format!(in alloc;
        "{word} does not fit the 32 bits of {first} (-2147483648 to 2147483647)"
    )?;
    match slip {
        Slip::Nobody => format!(in alloc;
            "{beyond}; load it by lddw, as in lddw r0, {word}, which is also how a pull policy answers none"
        ),
        Slip::Long => format!(in alloc; "{beyond}; load it by lddw, as in lddw r0, {word}"),
        Slip::LongBelowZero(bits) => {
            format!(in alloc; "{beyond}; load it by lddw, as in lddw r0, {bits}")
        }
        _ => Ok(beyond),
    }
}
