//! The lines of a text that comes in pieces.
ghost use Rattle.std.specs.Prelude.{◌≡◌, ◌↔◌, IsTrue, ◌==◌, ◌++◌, ◌∷◌, ℕ, List, [], length, OnOk, OnErr, IfSome, IfNone, MatchOption, Some, None};
ghost use Rattle.std.specs.Borrow.{Bor};
ghost use Rattle.std.specs.Option.{option_map};
ghost use Rattle.std.specs.Str.Lines.{strip_carriage_return};
ghost use Rattle.bq_lines.specs.Kept.{IsOneLine, KeepsLine, short_line};

use crate::lines::LONGEST;
use memchr::memchr;
use std::alloc::{AllocError, Global};
use std::marker::Model;

/// The longest line, and one byte more for a CR at its end.
const KEPT: usize = LONGEST + 1;

/// What is kept of a line that has begun: its bytes, unless it is already too long, even if a CR ends it.
#[derive(Drop)]
pub struct PartialLine {
    bytes: Vec<u8>,
    is_too_long: bool,
}

impl Model for PartialLine {
    ghost use Rattle.std.specs.Prelude.{ℕ, List, Option, Some, None, if◌then◌else◌, ◌≤◌, length};
    ghost use Rattle.bq_lines.specs.declared.partial_line.TheConstants.{KEPT};

    ghost Value = { Option (List ℕ) };

    ghost invariant = { λ b. length b.bytes.items ≤ KEPT };

    ghost view = { λ b. if b.is_too_long then None else Some b.bytes.items };
}

impl PartialLine {
    /// Makes a line of which nothing has come.
    pub fn new(alloc: Global) -> PartialLine
        ensures { result ≡ Some [] }
    {
        PartialLine {
            bytes: Vec::new(alloc),
            is_too_long: false,
        }
    }

    /// Tells whether nothing of the line has come.
    pub fn is_empty(&self) -> bool
        ensures kept { IsTrue result ↔ (self.now ≡ Some []) }
        ensures line { (line : List ℕ) → KeepsLine self.now line → result ≡ (length line == 0) }
    {
        !self.is_too_long && self.bytes.is_empty()
    }

    /// Returns the line that `tail` and a line feed end. Returns `None` if a part of the line came before `tail`, or if the
    /// line is too long.
    pub fn whole_line<'a>(&self, tail: &'a [u8]) -> Option<&'a [u8]>
        ensures { MatchOption result ((self.now ≡ Some []) → short_line (strip_carriage_return tail.now) ≡ None)
            (λ l. (self.now ≡ Some []) × (short_line (strip_carriage_return tail.now) ≡ Some l.now)) }
    {
        if self.is_empty() {
            short_line(without_cr(tail))
        } else {
            None
        }
    }

    /// Adds a piece to the line. An `Err` changes nothing.
    pub fn extend(&mut self, piece: &[u8]) -> Result<(), AllocError>
        requires { IsOneLine piece.now }
        ensures ok { OnOk result ((line : List ℕ) → KeepsLine self.old line → KeepsLine self.new (line ++ piece.now)) }
        ensures err { OnErr result (self.new ≡ self.old) }
    {
        if self.is_too_long {
            return Ok(());
        }
        if piece.len() > KEPT - self.bytes.len() {
            self.is_too_long = true;
            self.bytes.clear();
            return Ok(());
        }
        self.bytes.extend_from_slice(piece)
    }

    /// Returns the line, if the text ends here, or `None` if the line is too long.
    pub fn last(&self) -> Option<&[u8]>
        ensures { (line : List ℕ) → KeepsLine self.now line → option_map (λ (l : Bor (List ℕ)). l.now) result ≡ short_line line }
    {
        if self.is_too_long {
            None
        } else {
            short_line(self.bytes.as_slice())
        }
    }

    /// Returns the line, if a line feed ends it here, without the CR at its end, or `None` if the line is too long.
    pub fn ended(&self) -> Option<&[u8]>
        ensures { (line : List ℕ) → KeepsLine self.now line → option_map (λ (l : Bor (List ℕ)). l.now) result ≡ short_line (strip_carriage_return line) }
    {
        if self.is_too_long {
            None
        } else {
            short_line(without_cr(self.bytes.as_slice()))
        }
    }

    /// Forgets what has begun.
    pub fn clear(&mut self)
        ensures { self.new ≡ Some [] }
    {
        self.bytes.clear();
        self.is_too_long = false;
    }
}

/// Returns the line, or `None` if it is too long.
fn short_line(line: &[u8]) -> Option<&[u8]>
    ensures { option_map (λ (l : Bor (List ℕ)). l.now) result ≡ short_line line.now }
{
    if line.len() > LONGEST {
        None
    } else {
        Some(line)
    }
}

/// Splits off the first line. Returns it and what follows its line feed, or `None` if there is no line feed.
pub fn first_line(bytes: &[u8]) -> Option<(&[u8], &[u8])>
    ensures found { IfSome result (λ p. (bytes.now ≡ p.0.now ++ 10 ∷ p.1.now) × IsOneLine p.0.now) }
    ensures none { IfNone result (IsOneLine bytes.now) }
{
    match memchr(b'\n', bytes) {
        Some(at) => Some((&bytes[..at], &bytes[at + 1..])),
        None => None,
    }
}

/// Returns the line without one CR at its end, if it has one.
fn without_cr(line: &[u8]) -> &[u8]
    ensures { result.now ≡ strip_carriage_return line.now }
{
    match line {
        [front @ .., b'\r'] => front,
        _ => line,
    }
}
