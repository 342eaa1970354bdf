//! The words that follow each keyword: what each word must be, and the text that reports a word that does not fit.
ghost use Rattle.std.specs.Prelude.{◌≡◌, ◌&&◌, length, nat_lt};
ghost use Rattle.std.specs.Char.{is_ascii_digit};
ghost use Rattle.std.specs.List.{list_all};

use crate::keyword::Keyword;
use bq_bpf::board::COUNTERS;
use bq_bpf::with_counters;
use bq_hooks::hook::NO_HOOK;
use bq_hooks::{Hook, with_hooks};
use bq_words::numbers::hex_digits;
use bq_words::{DisciplineName, quantities, with_disciplines, with_tasks};
use std::fmt;

/// What a word of a line must be.
#[derive(Clone, Copy)]
pub enum LineOperand {
    Discipline,
    ProcessorCount,
    Processor,
    Task,
    Nice,
    Mask,
    Time,
    Generation,
    Slice,
    Hook,
    Image,
    Counter,
}

impl LineOperand {
    /// Tells whether a word is of this kind.
    pub fn fits(self, word: &[u8]) -> bool {
        match self {
            LineOperand::Discipline => DisciplineName::of_word(word).is_some(),
            LineOperand::ProcessorCount => quantities::size(word).is_some(),
            LineOperand::Processor => quantities::processor(word).is_some(),
            LineOperand::Task => quantities::task(word).is_some(),
            LineOperand::Nice => quantities::nice(word).is_some(),
            LineOperand::Mask => quantities::mask(word).is_some(),
            LineOperand::Time | LineOperand::Generation | LineOperand::Slice => quantities::decimal(
                word,
            ).is_some(),
            LineOperand::Hook => Hook::of_word(word).is_some(),
            LineOperand::Image => true,
            LineOperand::Counter => quantities::processor(word).is_some_and(|counter| usize::from(
                counter,
            ) < COUNTERS),
        }
    }

    /// Tells whether a word has the form of its kind, if the kind is a number: digits, digits after `-` for a nice value, or hex digits
    /// after `0x` for a mask. True if the kind is no number.
    pub fn has_form(self, word: &[u8]) -> bool {
        match self {
            LineOperand::Discipline
            | LineOperand::ProcessorCount
            | LineOperand::Hook
            | LineOperand::Image => true,
            LineOperand::Nice => match word.strip_prefix(b"-") {
                Some(digits) => are_digits(digits),
                None => are_digits(word),
            },
            LineOperand::Mask => match hex_digits(word) {
                Some(digits) => {
                    !digits.is_empty() && digits.iter().all(|byte| byte.is_ascii_hexdigit())
                }
                None => are_digits(word),
            },
            LineOperand::Processor
            | LineOperand::Task
            | LineOperand::Time
            | LineOperand::Generation
            | LineOperand::Slice
            | LineOperand::Counter => are_digits(word),
        }
    }

    /// Says that a word does not have the form of this kind.
    pub fn formless(self) -> &'static str {
        match self {
            LineOperand::Mask => "is no mask (decimal, or hex after 0x)",
            _ => "is no number",
        }
    }

    /// Names a word of this kind in the form of a line.
    pub fn name(self) -> &'static str {
        match self {
            LineOperand::Discipline => with_disciplines!(""),
            LineOperand::ProcessorCount => "processors",
            LineOperand::Processor => "processor",
            LineOperand::Task => "task",
            LineOperand::Nice => "nice",
            LineOperand::Mask => "mask",
            LineOperand::Time => "now",
            LineOperand::Generation | LineOperand::Counter => "number",
            LineOperand::Slice => "slice",
            LineOperand::Hook => with_hooks!(""),
            LineOperand::Image => "image or none",
        }
    }

    /// Says that a word is not of this kind.
    fn words(self) -> &'static str {
        match self {
            LineOperand::Discipline => with_disciplines!("is no rule (", ")"),
            LineOperand::ProcessorCount => quantities::NO_SIZE,
            LineOperand::Processor => "does not fit a processor's number (0 to 255)",
            LineOperand::Task => with_tasks!("does not fit a task's number (", ")"),
            LineOperand::Nice => "does not fit a nice value (-128 to 127)",
            LineOperand::Mask => "does not fit a mask (64 bits, decimal or hex after 0x)",
            LineOperand::Time => "does not fit a clock reading (0 to 2^64 - 1)",
            LineOperand::Generation => "does not fit a generation (0 to 2^64 - 1)",
            LineOperand::Slice => "does not fit a slice (0 to 2^64 - 1)",
            LineOperand::Hook => NO_HOOK,
            LineOperand::Image => "is no image",
            LineOperand::Counter => with_counters!("does not fit a counter's number (", ")"),
        }
    }
}

impl fmt::Display for LineOperand {
    fn fmt<W: fmt::Write>(&self, f: &mut fmt::Formatter<W>) -> fmt::Result {
        f.write_str(self.words())
    }
}

/// Tells whether a word is at least one digit, and nothing else.
fn are_digits(word: &[u8]) -> bool
    ensures { result ≡ (nat_lt 0 (length word.now) && list_all is_ascii_digit word.now) }
{
    !word.is_empty() && all_digits(word)
}

/// Tells whether each byte of a word is a digit.
fn all_digits(word: &[u8]) -> bool
    ensures { result ≡ list_all is_ascii_digit word.now }
{
    word.iter().all(|byte| byte.is_ascii_digit())
}

/// Returns what each word that follows a keyword must be, in their order.
pub fn operands_of(keyword: Keyword) -> &'static [LineOperand] {
    match keyword {
        Keyword::Machine => &[LineOperand::Discipline, LineOperand::ProcessorCount],
        Keyword::Admit => &[
            LineOperand::Task,
            LineOperand::Nice,
            LineOperand::Mask,
            LineOperand::Slice,
        ],
        Keyword::Retire => &[LineOperand::Task],
        Keyword::Draw => &[],
        Keyword::Install => &[
            LineOperand::Processor,
            LineOperand::Generation,
            LineOperand::Hook,
            LineOperand::Image,
        ],
        Keyword::Begin => &[LineOperand::Processor, LineOperand::Task],
        Keyword::Wake => &[LineOperand::Processor, LineOperand::Task, LineOperand::Time],
        Keyword::End | Keyword::Drain | Keyword::Tick | Keyword::Block => {
            &[LineOperand::Processor, LineOperand::Time]
        }
        Keyword::Pull => &[
            LineOperand::Processor,
            LineOperand::Processor,
            LineOperand::Time,
        ],
        Keyword::Show => &[LineOperand::Processor],
        Keyword::Counter => &[LineOperand::Counter],
    }
}
