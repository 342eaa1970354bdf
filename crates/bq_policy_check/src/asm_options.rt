//! What is wrong with the options of `asm`.
ghost use Rattle.std.specs.Prelude.{IfOk};
ghost use Rattle.bq_policy_check.specs.Complaining.{ComplainsOfOptions};

use crate::maps_fault_text::maps_fault_text;
use bq_policy_file::{Options, OptionsFault};
use std::alloc::{AllocError, Global};

/// Writes one line on what is wrong with the options of `asm`, without its end; None if they ask for a form.
///
/// ```text
/// --maps: part 1 "7:2": the size of a value is 8 to 256, a multiple of 8 (got 7)
/// ```
pub fn options_complaint(alloc: Global, options: &Options) -> Result<Option<String>, AllocError>
    ensures { IfOk result (ComplainsOfOptions options.now) }
{
    match options.form(alloc) {
        Ok(_) => Ok(None),
        Err(OptionsFault::Maps) => Ok(Some(maps_complaint(alloc, options)?)),
        Err(OptionsFault::Format) => Ok(Some(String::from_str(
            alloc,
            "--format: only an image has a version; say its hook too, as --hook place",
        )?)),
        Err(OptionsFault::OutOfMemory) => Err(AllocError),
    }
}

/// Says what is wrong with the maps of options that `asm` refuses for them.
fn maps_complaint(alloc: Global, options: &Options) -> Result<String, AllocError> {
    match (&options.hook, &options.maps) {
        (Some(_), Some(text)) => maps_option_text(alloc, text.as_str()),
        _ => String::from_str(
            alloc,
            "--maps: only an image has maps; say its hook too, as --hook place",
        ),
    }
}

/// Says what is wrong with the text of `--maps`, which names no maps.
pub(crate) fn maps_option_text(alloc: Global, text: &str) -> Result<String, AllocError> {
    let why = maps_fault_text(alloc, text)?;
    format!(in alloc; "--maps: {why}")
}
