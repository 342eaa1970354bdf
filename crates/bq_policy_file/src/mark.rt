//! What one line of a text says of its program.
ghost use Rattle.std.specs.Prelude.{◌≡◌, MatchOption, false};
ghost use Rattle.bq_policy_file.specs.Heads.{IsMark};
ghost use Rattle.bq_policy_file.specs.Marks.{is_key, key_word};

use bq_words::next_word;

/// What a mark may speak of.
#[derive(Clone, Copy, Debug, PartialEq, Eq)]
pub enum Key {
    /// The choice that the program makes.
    Hook,
    /// The shapes of its maps.
    Maps,
    /// The version of its image.
    Format,
}

impl Key {
    /// All keys: `of_word` finds each of them.
    pub const ALL: [Key; 3] = [Key::Hook, Key::Maps, Key::Format];

    /// The word that names it in marks and options.
    pub fn word(self) -> &'static str
        ensures { result.now ≡ key_word self }
    {
        match self {
            Key::Hook => "hook",
            Key::Maps => "maps",
            Key::Format => "format",
        }
    }

    /// Returns the key that a word names, if it names one.
    fn of_word(word: &[u8]) -> Option<Key>
        ensures { MatchOption result (is_key word.now ≡ false) (λ key. word.now ≡ key_word key) }
    {
        Key::ALL
            .iter()
            .copied()
            .find(|key| word == key.word().as_bytes())
    }
}

/// What one line is: no mark, an unknown mark, or a key and its value.
#[derive(Clone, Copy)]
pub enum Mark<'a> {
    Nothing,
    Unknown,
    States(Key, &'a [u8]),
}

/// What the line is.
pub fn mark_of(line: &[u8]) -> Mark<'_>
    ensures { IsMark line.now result }
{
    if !line.starts_with(b";@") {
        return Mark::Nothing;
    }
    let Some((word, rest)) = next_word(&line[2..]) else {
        return Mark::Unknown;
    };
    let Some((value, rest)) = next_word(rest) else {
        return Mark::Unknown;
    };
    if next_word(rest).is_some() {
        return Mark::Unknown;
    }
    match Key::of_word(word) {
        Some(key) => Mark::States(key, value),
        None => Mark::Unknown,
    }
}
