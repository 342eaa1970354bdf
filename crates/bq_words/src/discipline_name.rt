//! The disciplines by their words.
ghost use Rattle.std.specs.Prelude.{◌≡◌};
ghost use Rattle.bq_words.specs.Sizes.{discipline_named, discipline_word};

/// How processors choose among their tasks.
#[derive(Clone, Copy, PartialEq, Eq)]
pub enum DisciplineName {
    /// The task with the least virtual time runs.
    Cfs,
    /// Of the tasks that have had no more than their share, the one with the earliest deadline runs.
    Eevdf,
}

/// `before`, the words of the disciplines, and `behind` as one text.
#[macro_export]
macro_rules! with_disciplines {
    ($before:literal) => {
        with_disciplines!($before, "")
    };
    ($before:literal, $behind:literal) => {
        with_disciplines!($before, " or ", $behind)
    };
    ($before:literal, $between:literal, $behind:literal) => {
        concat!($before, "cfs", $between, "eevdf", $behind)
    };
}

impl DisciplineName {
    /// The word that names the discipline: `cfs` or `eevdf`.
    pub fn word(self) -> &'static str
        ensures { result.now ≡ discipline_word self }
    {
        match self {
            DisciplineName::Cfs => "cfs",
            DisciplineName::Eevdf => "eevdf",
        }
    }

    /// The discipline that a word names: `cfs` or `eevdf`.
    pub fn of_word(word: &[u8]) -> Option<DisciplineName>
        ensures { result ≡ discipline_named word.now }
    {
        if word == b"cfs".as_slice() {
            Some(DisciplineName::Cfs)
        } else if word == b"eevdf".as_slice() {
            Some(DisciplineName::Eevdf)
        } else {
            None
        }
    }
}
