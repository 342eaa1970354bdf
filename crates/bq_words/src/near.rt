//! How near a known word is to what was written.
ghost use Rattle.std.specs.Prelude.{◌≡◌, List, ℕ, nat_lt, IfOk, OnOk, OnErr};
ghost use Rattle.std.specs.Iterator.{Drains, IsFinite};
ghost use Rattle.std.specs.Borrow.{Bor};
ghost use Rattle.bq_words.specs.Nearness.{edits, edits_before, fewer, nearest};

use std::alloc::{AllocError, Global};
use std::marker::Model;
use strsim::levenshtein;

/// How many edits a misspelling may have.
const EDITS: usize = 2;

/// The most bytes of a misspelling.
const LONGEST: usize = 40;

/// How near a known word must be to be suggested: nearer than each word that was asked about before.
#[derive(Drop)]
pub struct Near {
    /// A word is too far if it needs this many edits or more.
    before: usize,
}

impl Model for Near {
    ghost use Rattle.std.specs.Prelude.{ℕ};

    ghost Value = { ℕ };

    ghost view = { λ n. n.before };
}

impl Near {
    /// Returns the limit for what was written, before any word is asked about: at most two edits, and fewer than `meant` has bytes.
    /// No word is near one of more than 40 bytes.
    pub fn of(meant: &str) -> Near
        ensures { result ≡ edits_before meant.now }
    {
        let length = meant.len();
        Near {
            before: if length > LONGEST {
                0
            } else {
                length.min(EDITS + 1)
            },
        }
    }

    /// Tells whether `known` is nearer to what was written than each word before it, and near enough at all.
    pub fn takes(&mut self, alloc: Global, meant: &str, known: &str) -> Result<bool, AllocError>
        ensures nearer { IfOk result (λ is. is ≡ nat_lt (edits meant.now known.now) self.old) }
        ensures next { OnOk result (self.new ≡ fewer self.old (edits meant.now known.now)) }
        ensures kept { OnErr result (self.new ≡ self.old) }
    {
        if self.before == 0 {
            return Ok(false);
        }
        let edits = levenshtein(alloc, meant, known)?;
        if edits < self.before {
            self.before = edits;
            Ok(true)
        } else {
            Ok(false)
        }
    }
}

/// Returns the one of some known words that is nearest to what was written, if one is near: the first of these.
pub fn nearest<'a, I: Iterator<Item = &'a str> + Drop>(
    alloc: Global,
    meant: &str,
    known: I,
) -> Result<Option<&'a str>, AllocError>
    requires can { I.can_next known }
    requires ends { IsFinite (I.remaining known) }
    ensures { IfOk result (λ best. (words : List (Bor (List ℕ))) × Drains I.next_gives known words × (best ≡ nearest meant.now words)) }
{
    let mut near = Near::of(meant);
    let mut best = None;
    for word in known {
        if near.takes(alloc, meant, word)? {
            best = Some(word);
        }
    }
    Ok(best)
}
