//! Texts from outside, made fit for a terminal: control characters are escaped.
ghost use Rattle.std.specs.Prelude.{◌≡◌};
ghost use Rattle.std.specs.List.{list_all};
ghost use Rattle.bq_console.specs.Values.{is_plain, is_printable, quoted};

use std::fmt;

/// The most characters of a word that a message quotes.
pub const QUOTED: usize = 40;

/// Comes in a word before the two hex digits of a byte that is no part of UTF-8 text. No word that is given has it.
pub const NO_TEXT: char = '\0';

/// A name on one line: control characters are escaped, as `\n`, and bytes that are no UTF-8 text, as `\xff`. An empty name is `""`.
#[derive(Clone, Copy)]
pub struct Name<'a>(pub &'a str);

impl fmt::Display for Name<'_> {
    fn fmt<W: fmt::Write>(&self, f: &mut fmt::Formatter<W>) -> fmt::Result {
        if self.0.is_empty() {
            return f.write_str("\"\"");
        }
        for letter in self.0.chars() {
            write_letter(f, letter)?;
        }
        Ok(())
    }
}

/// A word that a message quotes: as a name, cut after 40 characters, and then `..`.
#[derive(Clone, Copy)]
pub struct Quoted<'a>(pub &'a str);

impl fmt::Display for Quoted<'_> {
    ghost output = { λ q. quoted q.0.now };

    fn fmt<W: fmt::Write>(&self, f: &mut fmt::Formatter<W>) -> fmt::Result {
        if is_plain(self.0) {
            return f.write_str(self.0);
        }
        for letter in self.0.chars().take(QUOTED) {
            write_letter(f, letter)?;
        }
        if self.0.chars().nth(QUOTED).is_some() {
            f.write_str("..")?;
        }
        Ok(())
    }
}

/// Whether a word has at most 40 characters, all of them printable ASCII: then it is quoted as it is.
fn is_plain(word: &str) -> bool
    ensures { result ≡ is_plain word.now }
{
    word.len() <= QUOTED && are_printable(word.as_bytes())
}

/// Whether all bytes are printable characters of ASCII.
fn are_printable(bytes: &[u8]) -> bool
    ensures { result ≡ list_all is_printable bytes.now }
{
    bytes.iter().all(|byte| is_printable(*byte))
}

/// Whether a byte is a printable character of ASCII.
fn is_printable(byte: u8) -> bool
    ensures { result ≡ is_printable byte }
{
    byte.is_ascii_graphic() || byte == b' '
}

/// The most characters of a line of a message.
const LINE: usize = 1000;

/// Lines of a message: their ends stay, and other control characters are escaped. A line is cut behind 1,000 characters, and
/// then `..`.
#[derive(Clone, Copy)]
pub struct Lines<'a>(pub &'a str);

impl fmt::Display for Lines<'_> {
    fn fmt<W: fmt::Write>(&self, f: &mut fmt::Formatter<W>) -> fmt::Result {
        let mut count: usize = 0;
        for letter in self.0.chars() {
            if letter == '\n' {
                count = 0;
                f.write_str("\n")?;
                continue;
            }
            count = count.saturating_add(1);
            if count <= LINE {
                write_letter(f, letter)?;
            } else if count == LINE + 1 {
                f.write_str("..")?;
            }
        }
        Ok(())
    }
}

/// A letter, escaped unless it is one that is printed.
fn write_letter<W: fmt::Write>(f: &mut fmt::Formatter<W>, letter: char) -> fmt::Result {
    if letter == NO_TEXT {
        return f.write_str("\\x");
    }
    match letter {
        '"' | '\'' | '\\' => write!(f, "{letter}"),
        letter => write!(f, "{}", letter.escape_debug()),
    }
}
