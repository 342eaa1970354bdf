//! The forms by name.
ghost use Rattle.std.specs.Prelude.{◌≡◌};
ghost use Rattle.bq_timeline.specs.Settings.{form_named, has_stretch, has_width, is_picture};

/// A form in which a schedule is shown.
#[derive(Clone, Copy)]
pub enum FormName {
    Report,
    Map,
    Timehist,
    Why,
    Csv,
    Json,
    Svg,
    Perfetto,
}

/// `before`, followed by the names of the forms other than the report.
#[macro_export]
macro_rules! with_forms {
    ($before:literal) => {
        concat!($before, "map, timehist, why, svg, perfetto, csv or json")
    };
}

/// `before`, followed by the names of the forms that show a stretch of time.
#[macro_export]
macro_rules! with_stretches {
    ($before:literal) => {
        concat!($before, "map, timehist, why, svg, perfetto or csv")
    };
}

impl FormName {
    /// Returns the form of this name, if there is one.
    pub fn of_word(word: &str) -> Option<FormName>
        ensures { result ≡ form_named word.now }
    {
        match word {
            "report" => Some(FormName::Report),
            "map" => Some(FormName::Map),
            "timehist" => Some(FormName::Timehist),
            "why" => Some(FormName::Why),
            "csv" => Some(FormName::Csv),
            "json" => Some(FormName::Json),
            "svg" => Some(FormName::Svg),
            "perfetto" => Some(FormName::Perfetto),
            _ => None,
        }
    }

    /// Tells whether the form shows a stretch of time. A report and JSON have the figures of the whole trace.
    pub fn has_stretch(self) -> bool
        ensures { result ≡ has_stretch self }
    {
        !matches!(self, FormName::Report | FormName::Json)
    }

    /// Tells whether `--width` sets how wide the form is.
    pub fn has_width(self) -> bool
        ensures { result ≡ has_width self }
    {
        matches!(self, FormName::Map)
    }

    /// Tells whether the form is a picture: it has a theme and a title.
    pub fn is_picture(self) -> bool
        ensures { result ≡ is_picture self }
    {
        matches!(self, FormName::Svg)
    }
}
