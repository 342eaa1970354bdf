//! The colours of a picture, on a light page and on a dark one.

/// How many tasks have a colour of their own. The tasks after them use these colours again.
pub const COLOURS: usize = 8;

/// The place of the grey in which the key is drawn.
pub const GREY: usize = 7;

/// The colours of a page, as CSS writes them. By WCAG's measure, the contrast between a task's area and the page or the band is at least
/// 3 to 1, and the contrast between a text and what is behind it at least 4.5 to 1; `tests/pictures.py` computes it.
#[derive(Clone, Copy)]
pub struct Palette {
    /// The page.
    pub page: &'static str,
    /// The band of a row, where runs are drawn.
    pub band: &'static str,
    /// The lines of the axis.
    pub grid: &'static str,
    /// Text on the page.
    pub ink: &'static str,
    /// The numbers and the words around the picture.
    pub faint: &'static str,
    /// The colours of tasks.
    pub tasks: [&'static str; COLOURS],
    /// The colours of text on tasks.
    pub letters: [&'static str; COLOURS],
}

/// The colours on a light page.
pub const LIGHT: Palette = Palette {
    page: "#ffffff",
    band: "#eef0f3",
    grid: "#c9d1d9",
    ink: "#1b1f24",
    faint: "#4f5863",
    tasks: [
        "#114ed4", "#b87e0d", "#295351", "#9c2889", "#0083ff", "#ca140e", "#4b7131", "#638a8b",
    ],
    letters: [
        "#ffffff", "#111111", "#ffffff", "#ffffff", "#111111", "#ffffff", "#ffffff", "#111111",
    ],
};

/// The colours on a dark page.
pub const DARK: Palette = Palette {
    page: "#0d1117",
    band: "#1c2128",
    grid: "#3d444d",
    ink: "#e6edf3",
    faint: "#a5adb7",
    tasks: [
        "#1971ca", "#e8aa00", "#13a561", "#b78eb0", "#68c7f4", "#c44d14", "#f3fd58", "#818480",
    ],
    letters: [
        "#ffffff", "#111111", "#111111", "#111111", "#111111", "#ffffff", "#111111", "#111111",
    ],
};
