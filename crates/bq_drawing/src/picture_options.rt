//! The theme and the title of a picture.
ghost use Rattle.std.specs.Prelude.{◌≡◌};
ghost use Rattle.bq_drawing.specs.Headings.{title_of};

use crate::theme::Theme;

/// The theme and the title of a picture.
#[derive(Drop)]
pub struct PictureOptions {
    pub theme: Theme,
    /// The title of the picture, if it has its own.
    pub title: Option<String>,
}

/// The title of a picture that has no title of its own.
const UNTITLED: &str = "Schedule";

impl PictureOptions {
    /// Returns the title of the picture.
    pub fn title(&self) -> &str
        ensures { result.now ≡ title_of self.now }
    {
        match &self.title {
            Some(title) => title.as_str(),
            None => UNTITLED,
        }
    }
}
