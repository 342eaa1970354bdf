//! The words that lines begin with.
ghost use Rattle.std.specs.Prelude.{◌≡◌, Contains};
ghost use Rattle.std.specs.Str.{bytes_eq};
ghost use Rattle.bq_lines.specs.Keywords.{keyword_of, setting_keyword_of, keyword_of_event, keyword_word};

use bq_parts::Event;

/// What a line asks for, by its first word.
#[derive(Clone, Copy)]
pub enum Keyword {
    /// A policy is installed, or taken away.
    Install,
    /// A machine is made.
    Machine,
    /// A task is admitted.
    Admit,
    /// A task leaves.
    Retire,
    /// A generation is drawn.
    Draw,
    /// A wake begins.
    Begin,
    /// A wake ends.
    End,
    /// A wake begins, and ends at once.
    Wake,
    /// A processor takes in the tasks that were placed on it.
    Drain,
    /// A clock ticks.
    Tick,
    /// The running task goes to sleep.
    Block,
    /// A processor takes a task from another.
    Pull,
    /// A processor is shown.
    Show,
    /// A counter is shown.
    Counter,
}

/// All keywords.
const KEYWORDS: [Keyword; 14] = [
    Keyword::Machine,
    Keyword::Admit,
    Keyword::Retire,
    Keyword::Draw,
    Keyword::Install,
    Keyword::Begin,
    Keyword::End,
    Keyword::Wake,
    Keyword::Drain,
    Keyword::Tick,
    Keyword::Block,
    Keyword::Pull,
    Keyword::Show,
    Keyword::Counter,
];

/// A text that says with an example how a trace begins, between `before` and `behind`.
#[macro_export]
macro_rules! with_first_line {
    ($before:literal, $behind:literal) => {
        concat!(
            $before,
            "it begins with a line such as machine cfs 2",
            $behind
        )
    };
}

impl Keyword {
    /// Returns all keywords. If the words of two are equally near to an unknown word, the first one is likelier.
    pub(crate) fn all() -> [Keyword; 14]
        ensures { (keyword : Keyword) → Contains result keyword }
    {
        KEYWORDS
    }

    /// Returns the word itself, such as `tick`.
    #[inline(always)]
    pub fn word(self) -> &'static str
        ensures { result.now ≡ keyword_word self }
    {
        match self {
            Keyword::Install => "install",
            Keyword::Machine => "machine",
            Keyword::Admit => "admit",
            Keyword::Retire => "retire",
            Keyword::Draw => "draw",
            Keyword::Begin => "begin",
            Keyword::End => "end",
            Keyword::Wake => "wake",
            Keyword::Drain => "drain",
            Keyword::Tick => "tick",
            Keyword::Block => "block",
            Keyword::Pull => "pull",
            Keyword::Show => "show",
            Keyword::Counter => "counter",
        }
    }

    /// Tells whether a word is the word of this keyword.
    #[inline(always)]
    fn is_word(self, word: &[u8]) -> bool
        ensures { result ≡ bytes_eq word.now (keyword_word self) }
    {
        word == self.word().as_bytes()
    }

    /// Returns the keyword that a word is, if it is one.
    #[inline(always)]
    pub fn of_word(word: &[u8]) -> Option<Keyword>
        ensures { result ≡ keyword_of word.now }
    {
        if Keyword::Begin.is_word(word) {
            Some(Keyword::Begin)
        } else if Keyword::End.is_word(word) {
            Some(Keyword::End)
        } else if Keyword::Wake.is_word(word) {
            Some(Keyword::Wake)
        } else if Keyword::Drain.is_word(word) {
            Some(Keyword::Drain)
        } else if Keyword::Tick.is_word(word) {
            Some(Keyword::Tick)
        } else if Keyword::Block.is_word(word) {
            Some(Keyword::Block)
        } else if Keyword::Pull.is_word(word) {
            Some(Keyword::Pull)
        } else {
            Keyword::of_setting_word(word)
        }
    }

    /// Returns the keyword that a word is, of those that few lines have: the other half of `of_word`.
    #[inline(always)]
    fn of_setting_word(word: &[u8]) -> Option<Keyword>
        ensures { result ≡ setting_keyword_of word.now }
    {
        if Keyword::Install.is_word(word) {
            Some(Keyword::Install)
        } else if Keyword::Machine.is_word(word) {
            Some(Keyword::Machine)
        } else if Keyword::Admit.is_word(word) {
            Some(Keyword::Admit)
        } else if Keyword::Retire.is_word(word) {
            Some(Keyword::Retire)
        } else if Keyword::Draw.is_word(word) {
            Some(Keyword::Draw)
        } else if Keyword::Show.is_word(word) {
            Some(Keyword::Show)
        } else if Keyword::Counter.is_word(word) {
            Some(Keyword::Counter)
        } else {
            None
        }
    }

    /// Returns the keyword of the line that asks for an event.
    pub fn of_event(event: &Event) -> Keyword
        ensures { result ≡ keyword_of_event event.now }
    {
        match event {
            Event::Admit { .. } => Keyword::Admit,
            Event::Retire { .. } => Keyword::Retire,
            Event::Draw => Keyword::Draw,
            Event::Install { .. } => Keyword::Install,
            Event::BeginWake { .. } => Keyword::Begin,
            Event::EndWake { .. } => Keyword::End,
            Event::Drain { .. } => Keyword::Drain,
            Event::Tick { .. } => Keyword::Tick,
            Event::Block { .. } => Keyword::Block,
            Event::Pull { .. } => Keyword::Pull,
        }
    }
}
