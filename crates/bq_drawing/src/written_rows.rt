//! The rows of a picture that are written so far, and the lines between them.
ghost use Rattle.std.specs.Prelude.{◌≡◌, ◌++◌, OnOk, string_bytes};
ghost use Rattle.std.specs.BTreeMap.{get};
ghost use Rattle.std.specs.Ordering.{nat_cmp};
ghost use Rattle.bq_drawing.specs.Links.{link_line};
ghost use Rattle.bq_drawing.specs.Frames.{picture_setting};

use crate::frame::Frame;
use crate::links::{LinkKind, RowLink};
use std::alloc::AllocError;
use std::collections::BTreeMap;

/// The rows that are written so far.
#[derive(Drop)]
pub(crate) struct WrittenRows {
    pub(crate) text: String,
    /// The lines between rows, which are drawn below the rows.
    pub(crate) links: String,
    /// The names on the runs, which are drawn over all rows.
    pub(crate) labels: String,
    /// Where the band of each shown processor begins.
    pub(crate) bands: BTreeMap<u8, usize>,
    /// Where the last row ends.
    pub(crate) bottom: usize,
    pub(crate) waits_left_out: usize,
    pub(crate) wakes_left_out: usize,
}

impl WrittenRows {
    /// Draws a line between two rows, if the line is of this kind and both rows are shown.
    pub(crate) fn write_link(
        &mut self,
        kind: LinkKind,
        link: &RowLink,
        frame: &Frame<'_>,
    ) -> Result<(), AllocError>
        ensures text { OnOk result (string_bytes self.new.links
            ≡ string_bytes self.old.links ++ link_line kind (picture_setting frame.now) (get nat_cmp self.old.bands) link.now) }
        ensures unchanged { self.new ≡ record self.old { links = self.new.links } }
    {
        if !link.kind.is_same(kind) {
            return Ok(());
        }
        let from = self.bands.get(&link.from.processor).copied();
        let to = self.bands.get(&link.to.processor).copied();
        match (from, to) {
            (Some(from), Some(to)) => link.write(from, to, frame, &mut self.links),
            _ => Ok(()),
        }
    }
}
