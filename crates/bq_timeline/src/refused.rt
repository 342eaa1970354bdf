//! The word that a fault of settings refuses.
ghost use Rattle.std.specs.Prelude.{◌≡◌, IfNone, IfSome, None, Some};
ghost use Rattle.bq_timeline.specs.Settings.{settings_option_refused, optional_word_text, settings_word_refused};

use crate::settings::{SettingsFault, ShownWords};
use crate::with_forms;
use bq_drawing::with_themes;

/// A word that is refused after an option.
#[derive(Clone, Copy)]
pub struct RefusedWord<'a> {
    /// The option, without its dashes.
    pub option: &'static str,
    /// The word.
    pub word: &'a str,
    /// The words that the option takes, as `light, dark or auto`; empty if it takes numbers or names.
    pub known: &'static str,
}

impl SettingsFault {
    /// Returns the word that the fault refuses, and its option. `None` if the fault is not that of one word.
    pub fn refused<'a>(self, words: &'a ShownWords) -> Option<RefusedWord<'a>>
        ensures word { IfSome result (λ r. optional_word_text (settings_word_refused words.now self) ≡ Some r.word.now) }
        ensures none { IfNone result (settings_word_refused words.now self ≡ None) }
        ensures option { IfSome result (λ r. r.option.now ≡ settings_option_refused self) }
    {
        match self {
            SettingsFault::Form => word_after("as", &words.form, with_forms!("report, ")),
            SettingsFault::From | SettingsFault::FromTooGreat => {
                word_after("from", &words.from, "")
            }
            SettingsFault::To | SettingsFault::ToTooGreat => word_after("to", &words.to, ""),
            SettingsFault::Processors => word_after("cpus", &words.cpus, ""),
            SettingsFault::Tasks => word_after("tasks", &words.tasks, ""),
            SettingsFault::Width => word_after("width", &words.width, ""),
            SettingsFault::Theme => word_after("theme", &words.theme, with_themes!("light, ")),
            SettingsFault::Backwards
            | SettingsFault::FromUnused
            | SettingsFault::ToUnused
            | SettingsFault::WidthUnused
            | SettingsFault::ThemeUnused
            | SettingsFault::TitleUnused
            | SettingsFault::OutOfMemory => None,
        }
    }
}

/// Returns the word after an option, if there is one, as a word that is refused.
pub fn word_after<'a>(
    option: &'static str,
    word: &'a Option<String>,
    known: &'static str,
) -> Option<RefusedWord<'a>>
    ensures word { IfSome result (λ r. optional_word_text word.now ≡ Some r.word.now) }
    ensures none { IfNone result (word.now ≡ None) }
    ensures option { IfSome result (λ r. r.option.now ≡ option.now) }
{
    match word {
        Some(word) => Some(RefusedWord {
            option,
            word: word.as_str(),
            known,
        }),
        None => None,
    }
}
