//! A fault of an image in words.
use crate::fault::LoadFault;
use std::fmt;

/// A fault in a few words, for a person: `cut short`, or `slot 3: Unset` if the program is at fault.
#[derive(Clone, Copy)]
pub struct FaultInWords(pub LoadFault);

impl fmt::Display for FaultInWords {
    fn fmt<W: fmt::Write>(&self, f: &mut fmt::Formatter<W>) -> fmt::Result {
        match self.0 {
            LoadFault::Magic => f.write_str("no image"),
            LoadFault::Version => f.write_str("an unknown version"),
            LoadFault::Hook => f.write_str("an unknown hook"),
            LoadFault::Shape => f.write_str("maps out of range"),
            LoadFault::Cut => f.write_str("cut short"),
            LoadFault::Rest => f.write_str("bytes after the end"),
            LoadFault::Decode { slot, cause } => write!(f, "slot {slot}: {cause:?}"),
            LoadFault::Refused { slot, cause } => write!(f, "slot {slot}: {cause:?}"),
            LoadFault::OutOfMemory => f.write_str("out of memory"),
        }
    }
}
