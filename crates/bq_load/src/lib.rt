//! Images: a program with the choice that it makes and the shapes of its maps, as bytes.
//!
//! `read_image` reads an image and `write_image` writes one; `load` also decodes and verifies the program.
//! `ImageReader` reads or loads an image that comes in pieces. Each fault is the first one from left to right.
#![tactic(auto)]

pub mod fault;
mod framing;
mod header;
pub mod image;
mod judging;
pub mod laws;
pub mod loading;
pub mod reader;
mod words;
pub mod writing;

pub use fault::LoadFault;
pub use image::{Image, read_image};
pub use loading::load;
pub use reader::ImageReader;
pub use words::FaultInWords;
pub use writing::write_image;
