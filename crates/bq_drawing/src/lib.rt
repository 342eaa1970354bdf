//! The forms in which a schedule is shown as a picture: SVG, and the trace format that ui.perfetto.dev opens.
//! Promises that a form only adds to its text, and shows what is in its window, cut at the window's edges.
//! Builds on bq_report for windows, names and the order of tasks.
#![tactic(auto)]

pub mod axis;
pub mod colours;
pub mod drawing;
pub mod escaped;
pub mod events;
pub mod frame;
pub mod heading;
pub mod lanes;
pub mod legend;
pub mod links;
pub mod past_events;
pub mod perfetto;
pub mod picture_name;
pub mod picture_options;
pub mod processor_row;
mod row_lanes;
pub mod runs;
pub mod scale;
pub mod shapes;
pub mod styles;
pub mod svg;
pub mod theme;
pub mod unit;
mod written_rows;

pub use perfetto::Perfetto;
pub use picture_options::PictureOptions;
pub use svg::Svg;
pub use theme::Theme;
