//! Why a line is bad.

use crate::bytes::is_allowed_line;
use crate::keyword::Keyword;
use crate::line_operand::{LineOperand, operands_of};
use crate::lines::LONGEST;
use bq_words::{nearest, next_word};
use std::alloc::{AllocError, Global};
use std::{fmt, str};

/// Says that the first line of a trace makes no machine, and that nothing after this line is done.
pub const NOT_READ_ON: &str =
    "a trace begins with its machine line, and nothing after this is done";

/// Why a line is bad.
#[derive(Clone, Copy)]
pub enum LineFault<'a> {
    /// The line has more than 131,072 bytes.
    TooLong,
    /// The line has a byte that is neither printable ASCII nor a tab.
    Byte,
    /// No command has this name.
    Name(&'a [u8]),
    /// This many words follow the command, which takes another number of words.
    Count { keyword: Keyword, count: usize },
    /// A word is not what its place takes.
    Word { word: &'a [u8], kind: LineOperand },
    /// The machine is made already.
    Again,
    /// The trace does not begin with its machine line.
    NoMachine,
}

/// Finds why a bad line is bad. `line` is `None` if the line is too long. `is_open` says whether the machine is made.
pub fn why_bad(line: Option<&[u8]>, is_open: bool) -> LineFault<'_> {
    let Some(line) = line else {
        return LineFault::TooLong;
    };
    if !is_allowed_line(line) {
        return LineFault::Byte;
    }
    let Some((name, rest)) = next_word(line) else {
        return LineFault::NoMachine;
    };
    let Some(keyword) = Keyword::of_word(name) else {
        return LineFault::Name(name);
    };
    match word_fault(keyword, rest) {
        Some(fault) => fault,
        None if is_open => LineFault::Again,
        None => LineFault::NoMachine,
    }
}

/// Finds what is wrong with the words after a keyword: their number, or the first word that does not fit. `None` if all is right.
fn word_fault(keyword: Keyword, operands: &[u8]) -> Option<LineFault<'_>> {
    let kinds = operands_of(keyword);
    let mut rest = operands;
    let mut misfit = None;
    let mut count: usize = 0;
    'words: while let Some((word, more)) = next_word(rest) {
        if let Some(kind) = kinds.get(count) {
            if misfit.is_none() && !kind.fits(word) {
                misfit = Some(LineFault::Word { word, kind: *kind });
            }
        }
        count = count.saturating_add(1);
        rest = more;
    }
    if count == kinds.len() {
        misfit
    } else {
        Some(LineFault::Count { keyword, count })
    }
}

/// Finds a keyword that is near an unknown one, if the fault is an unknown keyword and a known one is near.
pub fn meant_keyword(
    alloc: Global,
    fault: &LineFault<'_>,
) -> Result<Option<&'static str>, AllocError> {
    let LineFault::Name(name) = fault else {
        return Ok(None);
    };
    let Ok(name) = str::from_utf8(beginning(name)) else {
        return Ok(None);
    };
    let words = Keyword::all().map(|keyword| keyword.word());
    nearest(alloc, name, words.iter().copied())
}

/// How many words there are, as `one word`.
#[derive(Clone, Copy)]
struct WordCount(usize);

impl fmt::Display for WordCount {
    fn fmt<W: fmt::Write>(&self, f: &mut fmt::Formatter<W>) -> fmt::Result {
        match self.0 {
            0 => f.write_str("no word"),
            1 => f.write_str("one word"),
            count => write!(f, "{count} words"),
        }
    }
}

/// A line with this keyword, as `wake <processor> <task> <now>`.
#[derive(Clone, Copy)]
struct LineShape(Keyword);

impl fmt::Display for LineShape {
    fn fmt<W: fmt::Write>(&self, f: &mut fmt::Formatter<W>) -> fmt::Result {
        f.write_str(self.0.word())?;
        for operand in operands_of(self.0) {
            let name = operand.name();
            write!(f, " <{name}>")?;
        }
        Ok(())
    }
}

/// A word of a line, cut if it is long.
#[derive(Clone, Copy)]
struct Quoted<'a>(&'a [u8]);

/// Returns a word, or its first 40 bytes if it is longer.
fn beginning(word: &[u8]) -> &[u8] {
    match word.chunks(40).next() {
        Some(first) => first,
        None => word,
    }
}

impl fmt::Display for Quoted<'_> {
    fn fmt<W: fmt::Write>(&self, f: &mut fmt::Formatter<W>) -> fmt::Result {
        let word = beginning(self.0);
        match str::from_utf8(word) {
            Ok(word) => f.write_str(word),
            Err(_) => Ok(()),
        }
    }
}

impl fmt::Display for LineFault<'_> {
    fn fmt<W: fmt::Write>(&self, f: &mut fmt::Formatter<W>) -> fmt::Result {
        match self {
            LineFault::TooLong => write!(f, "a line has at most {LONGEST} bytes"),
            LineFault::Byte => f.write_str("a byte is neither printable ASCII nor a tab"),
            LineFault::Name(name) => {
                let name = Quoted(name);
                write!(f, "{name} is no command")
            }
            LineFault::Count { keyword, count } => {
                let name = keyword.word();
                let wanted = WordCount(operands_of(*keyword).len());
                let (count, shape) = (WordCount(*count), LineShape(*keyword));
                write!(f, "{name} takes {wanted}, and has {count}: {shape}")
            }
            LineFault::Word { word, kind } => {
                let quoted = Quoted(word);
                if kind.has_form(word) {
                    write!(f, "{quoted} {kind}")
                } else {
                    write!(f, "{quoted} {}", kind.formless())
                }
            }
            LineFault::Again => f.write_str("the machine is made already"),
            LineFault::NoMachine => f.write_str(NOT_READ_ON),
        }
    }
}
