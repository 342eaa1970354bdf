//! The hooks at which a policy is asked, their names, and the lengths of their contexts.

ghost use Rattle.std.specs.Prelude.{◌≡◌};
ghost use Rattle.bq_hooks.specs.Hooks.{context_length_of, hook_of, hook_word, version_number, version_of};

use crate::{PLACE_LENGTH, PREEMPT_LENGTH, PULL_LENGTH, WIDE_PLACE_LENGTH};

/// A choice that a policy may make.
#[derive(Clone, Copy, Debug, PartialEq, Eq)]
pub enum Hook {
    /// Where a woken task goes.
    Place,
    /// Whether the running task gives way.
    Preempt,
    /// Which task an emptier processor takes.
    Pull,
}

/// A text with the words of hooks in it.
#[macro_export]
macro_rules! with_hooks {
    ($before:literal) => {
        with_hooks!($before, "")
    };
    ($before:literal, $behind:literal) => {
        with_hooks!($before, ", ", " or ", $behind)
    };
    ($before:literal, $second:literal, $third:literal, $behind:literal) => {
        concat!(
            $before,
            "place",
            $second,
            "preempt",
            $third,
            "pull",
            $behind
        )
    };
}

/// The message about a word that `Hook::of_word` does not take.
pub const NO_HOOK: &str = with_hooks!("is no hook (", ")");

impl Hook {
    /// The word that names it in traces, options and marks: `place`, `preempt` or `pull`.
    pub fn word(self) -> &'static str
        ensures { result.now ≡ hook_word self }
    {
        match self {
            Hook::Place => "place",
            Hook::Preempt => "preempt",
            Hook::Pull => "pull",
        }
    }

    /// The hook that a word names, if it names one.
    pub fn of_word(word: &[u8]) -> Option<Hook>
        ensures { result ≡ hook_of word.now }
    {
        if word == b"place".as_slice() {
            Some(Hook::Place)
        } else if word == b"preempt".as_slice() {
            Some(Hook::Preempt)
        } else if word == b"pull".as_slice() {
            Some(Hook::Pull)
        } else {
            None
        }
    }
}

/// The version of an image, on which the length of its place context depends.
#[derive(Clone, Copy, PartialEq, Eq)]
pub enum Version {
    /// The context of a placement has 104 bytes.
    First,
    /// The context of a placement has 296 bytes.
    Second,
}

/// A text with the words of versions in it.
#[macro_export]
macro_rules! with_versions {
    ($before:literal) => {
        with_versions!($before, "")
    };
    ($before:literal, $behind:literal) => {
        with_versions!($before, " or ", $behind)
    };
    ($before:literal, $between:literal, $behind:literal) => {
        concat!($before, "1", $between, "2", $behind)
    };
}

/// The message about a word that `Version::of_word` does not take.
pub const NO_VERSION: &str = with_versions!("is no format (", ")");

impl Version {
    /// Its number: 1 or 2.
    pub fn number(self) -> u8
        ensures { result ≡ version_number self }
    {
        match self {
            Version::First => 1,
            Version::Second => 2,
        }
    }

    /// The version whose number this word is, if it is one.
    pub fn of_word(word: &[u8]) -> Option<Version>
        ensures { result ≡ version_of word.now }
    {
        if word == b"1".as_slice() {
            Some(Version::First)
        } else if word == b"2".as_slice() {
            Some(Version::Second)
        } else {
            None
        }
    }
}

/// A text with the length of the longer context of a placement in it, in bytes.
#[macro_export]
macro_rules! with_longer_context {
    ($before:literal, $behind:literal) => {
        concat!($before, "296", $behind)
    };
}

/// How many bytes the context of a hook has.
pub fn context_length(hook: Hook, version: Version) -> usize
    ensures { result ≡ context_length_of hook version }
{
    match (hook, version) {
        (Hook::Place, Version::First) => PLACE_LENGTH,
        (Hook::Place, Version::Second) => WIDE_PLACE_LENGTH,
        (Hook::Preempt, _) => PREEMPT_LENGTH,
        (Hook::Pull, _) => PULL_LENGTH,
    }
}
