//! Whether a picture is light or dark.
ghost use Rattle.std.specs.Prelude.{◌≡◌};
ghost use Rattle.bq_drawing.specs.Themes.{theme_of};

/// Whether a picture is light or dark.
#[derive(Clone, Copy, PartialEq, Eq)]
pub enum Theme {
    Light,
    Dark,
    /// As the reader's system is: light or dark.
    Auto,
}

/// `before`, followed by the words for themes other than `light`.
#[macro_export]
macro_rules! with_themes {
    ($before:literal) => {
        concat!($before, "dark or auto")
    };
}

impl Theme {
    /// Returns the theme of this name, if there is one.
    pub fn of_word(word: &str) -> Option<Theme>
        ensures { result ≡ theme_of word.now }
    {
        match word {
            "light" => Some(Theme::Light),
            "dark" => Some(Theme::Dark),
            "auto" => Some(Theme::Auto),
            _ => None,
        }
    }
}
